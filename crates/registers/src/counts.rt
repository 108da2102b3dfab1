// The counts of a stream on what is lent for a port, for support. It asks nothing of its caller.
ghost use Rattle.std.specs.Prelude.{◌≡◌};
ghost use Rattle.stream.specs.Replies.{answered};
ghost use Rattle.registers.specs.StreamCounts.{port_counts};

use register_block::Count;
use stream::{Numbers, Refusal};

// The accepted frames and the discards of a stream.
pub fn of_stream(port: &[u8], stream: u8) -> Result<Numbers, Refusal>
    ensures { answered result ≡ port_counts stream port.now }
{
    if port.len() < crate::PORT_LENGTH {
        return Err(Refusal::UnfitRecord);
    }
    if record::STREAMS <= stream {
        return Err(Refusal::StreamRange);
    }
    let block = &port[record::RECORD_LENGTH..];
    let accepted = Count::Accepted.of(block, stream);
    let discarded = Count::Discarded.of(block, stream);
    Ok(Numbers::new(accepted, discarded))
}
