// The step of Best effort, in the octets that the host lends. The definition is in specs/.
#![tactic(auto)]

ghost use Rattle.std.specs.Prelude.{◌≡◌};
ghost use Rattle.stream.specs.Replies.{given};
ghost use Rattle.record.specs.Layout.{Whole};
ghost use Rattle.record.specs.Queues.{HasMemory};
ghost use Rattle.steps.specs.Outcome.{outcome};
ghost use Rattle.best_effort.specs.BestEffort.{HasRoom, best_effort_step};

use queue::Frame;
use stream::Numbers;

// Best effort(a, tag).
#[tactic(auto, unfolding(crate::specs::BestEffort::best_effort_step))]
pub fn join(port: &mut [u8], memory: &mut [u8], charge: u16, tag: u32) -> Numbers
    requires { Whole port.old × (HasMemory port.old memory.old × HasRoom port.old charge) }
    ensures { outcome (given result) port.new memory.new ≡ best_effort_step port.old memory.old charge tag }
{
    let frame = Frame {
        stream: fitness::frames::BEST_EFFORT_STREAM,
        charge,
        tag,
    };
    let number = record::head::queues(port);
    let queue = record::head::queue_at(port, number);
    let waits = record::head::waits(port) + charge as u32;
    record::head::put_queue(port, number, queue.joined());
    record::head::put_waits(port, waits);
    queue::join_at(memory, number, queue, frame);
    Numbers::new(waits, 0)
}
