// One stream by itself, whose record a caller in Rust holds: its rule without a port around it.
ghost use Rattle.std.specs.Prelude.{◌≡◌, ◌-◌};
ghost use Rattle.stream.specs.State.{least_queues};
ghost use Rattle.stream.specs.Steps.{arrive_of};
ghost use Rattle.stream.specs.Replies.{reply_of, stream_of};
ghost use Rattle.exports.specs.Handed.{handed};

use stream::Stream;

// The last place of a port with the fewest queues.
const LAST: u8 = record::LEAST_QUEUES - 1;

// A frame of this charge arrives on the stream, of a port with the fewest queues.
#[unsafe(no_mangle)]
pub extern "C" fn bunnysolder_stream_arrive(
    stream: &mut Stream,
    charge: u16,
    first: &mut u32,
    second: &mut u32,
) -> u8
    ensures { (handed result first.new second.new ≡ reply_of (arrive_of (least_queues - 1) stream.old charge)) × (stream.new ≡ stream_of (arrive_of (least_queues - 1) stream.old charge)) }
{
    let answer = stream.receive(LAST, charge).answer();
    crate::hand(answer, first, second)
}
