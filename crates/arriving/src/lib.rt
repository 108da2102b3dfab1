// The step of Arrive, in the octets that the host lends. The definition is in specs/.
#![tactic(auto)]

ghost use Rattle.std.specs.Prelude.{◌≡◌, ◌<◌};
ghost use Rattle.stream.specs.Replies.{answered};
ghost use Rattle.stream.specs.declared.Reply.{Reply};
ghost use Rattle.queue.specs.Ring.{HasPart};
ghost use Rattle.record.specs.Layout.{Whole, stream_count, queue_room};
ghost use Rattle.record.specs.Queues.{HasMemory};
ghost use Rattle.steps.specs.Outcome.{outcome};
ghost use Rattle.arriving.specs.Arriving.{unless_refused, joined_into, arrive_step};

use queue::Frame;
use steps::Roles;
use stream::{Arrival, Numbers, Refusal, Stream};

// The frame joins the queue of this number, and the stream moves on, unless the queue is full, whatever the arrival replies.
fn join(
    port: &mut [u8],
    memory: &mut [u8],
    stream: u8,
    next: Stream,
    number: u8,
    frame: Frame,
) -> Result<(), Refusal>
    requires { Whole port.old × (HasPart memory.old number × ((stream < stream_count) × (number < queue_room))) }
    ensures { (reply : Reply) → outcome (unless_refused result reply) port.new memory.new ≡ joined_into port.old memory.old stream reply next number frame }
{
    let queue = record::head::queue_at(port, number);
    if queue::PLACES <= queue.count {
        return Err(Refusal::QueueFull);
    }
    steps::move_to(port, stream, next);
    record::head::put_queue(port, number, queue.joined());
    queue::join_at(memory, number, queue, frame);
    Ok(())
}

// Arrive(s, a, tag).
#[tactic(auto, unfolding(crate::specs::Arriving::arrive_step, steps::specs::Roles::role_at))]
pub fn arrive(
    port: &mut [u8],
    memory: &mut [u8],
    stream: u8,
    charge: u16,
    tag: u32,
) -> Result<Numbers, Refusal>
    requires { Whole port.old × (HasMemory port.old memory.old × (stream < stream_count)) }
    ensures { outcome (answered result) port.new memory.new ≡ arrive_step port.old memory.old stream charge tag }
{
    let frame = Frame {
        stream: stream as u16,
        charge,
        tag,
    };
    let roles = Roles::of(port);
    let arrival = record::entry::stream_at(port, stream).arrive(roles.queues - 1, charge);
    match arrival {
        Arrival::Joined(place, next) => {
            let number = roles.queue(place);
            join(port, memory, stream, next, number, frame)?;
        }
        Arrival::Discarded(spent) => steps::move_to(port, stream, spent),
    }
    arrival.answer()
}
