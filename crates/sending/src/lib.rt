// The step of Transmit, in the octets that the host lends. The definition is in specs/.
#![tactic(auto)]

ghost use Rattle.std.specs.Prelude.{◌≡◌, ◌<◌, Some};
ghost use Rattle.stream.specs.Replies.{given};
ghost use Rattle.queue.specs.Ring.{HasPart, front_of};
ghost use Rattle.record.specs.Layout.{Whole, queue_room};
ghost use Rattle.record.specs.Queues.{HasMemory};
ghost use Rattle.steps.specs.Outcome.{outcome};
ghost use Rattle.sending.specs.Sending.{sent_answer, sent, sent_best_effort, transmit_step};

use queue::{Frame, Queue};
use steps::Roles;
use stream::Numbers;

// The stream in the reply where nothing is sent. It stays a number: C is handed it, and the definition `nothing` says it.
pub const NOTHING: u32 = 254;

// Sends the oldest frame of the queue of this number, which starts and counts as given.
fn send(port: &mut [u8], memory: &[u8], number: u8, queue: Queue) -> Frame
    requires { Whole port.old × (HasPart memory.now number × ((number < queue_room) × (0 < queue.count))) }
    ensures { (result ≡ front_of memory.now number queue) × (outcome (sent_answer (Some result)) port.new memory.now ≡ sent port.old memory.now number queue) }
{
    record::head::put_queue(port, number, queue.sent());
    queue::front_at(memory, number, queue)
}

// Sends the oldest frame of best effort, which has this number and starts and counts as given, and takes its charge off W.
fn send_best_effort(port: &mut [u8], memory: &[u8], number: u8, queue: Queue) -> Frame
    requires { Whole port.old × (HasPart memory.now number × ((number < queue_room) × (0 < queue.count))) }
    ensures { outcome (sent_answer (Some result)) port.new memory.now ≡ sent_best_effort port.old memory.now number queue }
{
    let waits = record::head::waits(port);
    let frame = send(port, memory, number, queue);
    record::head::put_waits(port, waits.saturating_sub(frame.charge as u32));
    frame
}

// Sends the oldest frame of prior; if none waits there, of current; if none, of best effort.
#[tactic(auto, unfolding(crate::specs::Sending::transmit_step, steps::specs::Roles::role_at))]
fn send_first(port: &mut [u8], memory: &[u8]) -> Option<Frame>
    requires { Whole port.old × HasMemory port.old memory.now }
    ensures { outcome (sent_answer result) port.new memory.now ≡ transmit_step port.old memory.now }
{
    let roles = Roles::of(port);
    let prior = roles.queue(steps::PRIOR);
    let in_prior = record::head::queue_at(port, prior);
    if in_prior.count != 0 {
        return Some(send(port, memory, prior, in_prior));
    }
    let current = roles.queue(steps::CURRENT);
    let in_current = record::head::queue_at(port, current);
    if in_current.count != 0 {
        return Some(send(port, memory, current, in_current));
    }
    let in_best_effort = record::head::queue_at(port, roles.queues);
    if in_best_effort.count != 0 {
        return Some(send_best_effort(port, memory, roles.queues, in_best_effort));
    }
    None
}

// Transmit.
pub fn transmit(port: &mut [u8], memory: &[u8]) -> Numbers
    requires { Whole port.old × HasMemory port.old memory.now }
    ensures { outcome (given result) port.new memory.now ≡ transmit_step port.old memory.now }
{
    match send_first(port, memory) {
        Some(frame) => Numbers::new(frame.stream as u32, frame.tag),
        None => Numbers::new(NOTHING, 0),
    }
}
