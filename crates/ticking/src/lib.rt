// The step of Tick, in the octets that the host lends. The definition is in specs/.
#![tactic(auto)]

ghost use Rattle.std.specs.Prelude.{◌≡◌, ◌<◌};
ghost use Rattle.stream.specs.Replies.{given};
ghost use Rattle.record.specs.Layout.{Whole, stream_count, queue_room};
ghost use Rattle.record.specs.Queues.{HasMemory};
ghost use Rattle.steps.specs.Outcome.{outcome};
ghost use Rattle.ticking.specs.Ticking.{drained_at, ticked_at, streams_ticked, ticked_from, tick_step};

use queue::Queue;
use steps::Roles;
use stream::Numbers;

// Lets a withdrawn stream come a tick nearer to its freedom, and drops it at the last of them.
#[tactic(auto, unfolding(crate::specs::Ticking::drained_at))]
fn drain_stream(port: &mut [u8], stream: u8)
    requires { Whole port.old × (stream < stream_count) }
    ensures { port.new ≡ drained_at stream port.old }
{
    let ticks = record::entry::drain(port, stream);
    if ticks == 0 {
        return;
    }
    if ticks == 1 {
        record::entry::drop_stream(port, stream);
        return;
    }
    record::entry::put_drain(port, stream, ticks - 1);
}

// The tick of one stream.
fn tick_stream(port: &mut [u8], stream: u8)
    requires { Whole port.old × (stream < stream_count) }
    ensures { port.new ≡ ticked_at stream port.old }
{
    let reservation = record::entry::stream_at(port, stream);
    if !reservation.reserved {
        return;
    }
    steps::move_to(port, stream, reservation.tick());
    drain_stream(port, stream);
}

// The tick of every stream.
#[tactic(auto, unfolding(lists::specs::Turns::iterate))]
fn tick_streams(port: &mut [u8])
    requires { Whole port.old }
    ensures { port.new ≡ streams_ticked port.old }
{
    for s in 0..record::STREAMS {
        tick_stream(port, s);
    }
}

// The record of the tick, with the numbers of prior and current: prior is emptied, current becomes prior, and the streams come nearer.
fn tick_record(port: &mut [u8], prior: u8, current: u8)
    requires { Whole port.old × (prior < queue_room) }
    ensures { port.new ≡ ticked_from port.old prior current }
{
    record::head::put_queue(port, prior, Queue::empty());
    record::head::put_prior(port, current);
    tick_streams(port);
}

// Tick.
#[tactic(auto, unfolding(crate::specs::Ticking::tick_step, crate::specs::Ticking::ticked_record, steps::specs::Roles::role_at))]
pub fn tick(port: &mut [u8], memory: &[u8]) -> Numbers
    requires { Whole port.old × HasMemory port.old memory.now }
    ensures { outcome (given result) port.new memory.now ≡ tick_step port.old memory.now }
{
    let roles = Roles::of(port);
    let prior = roles.queue(steps::PRIOR);
    let current = roles.queue(steps::CURRENT);
    let queue = record::head::queue_at(port, prior);
    tick_record(port, prior, current);
    Numbers::new(queue.count as u32, queue::charges(memory, prior, queue))
}
