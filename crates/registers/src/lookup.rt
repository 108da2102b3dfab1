// The lookup on what is lent for a port, for those who measure. It asks nothing of its caller.
ghost use Rattle.std.specs.Prelude.{◌≡◌};
ghost use Rattle.stream.specs.Replies.{answered};
ghost use Rattle.registers.specs.PortLookup.{port_lookup};

use stream::{Numbers, Refusal};

// The stream that is bound to an address and a VID, or best effort's, and the number of address octets compared.
pub fn of_pair(
    port: &[u8],
    address: &[u8; record::ADDRESS_LENGTH],
    vid: u32,
) -> Result<Numbers, Refusal>
    ensures { answered result ≡ port_lookup address.now vid port.now }
{
    if port.len() < crate::PORT_LENGTH {
        return Err(Refusal::UnfitRecord);
    }
    let answer = binding::finding::of_pair(&port[..record::RECORD_LENGTH], address, vid);
    Ok(Numbers::from(answer))
}
