// The steps of Open, Reserve and Withdraw, in the octets that the host lends. The definitions are in specs/.
#![tactic(auto)]

ghost use Rattle.std.specs.Prelude.{◌≡◌, ◌<◌};
ghost use Rattle.stream.specs.Replies.{granted, given};
ghost use Rattle.record.specs.Layout.{Whole, stream_count};
ghost use Rattle.ranges.specs.Ranges.{share_of};
ghost use Rattle.steps.specs.Call.{terms};
ghost use Rattle.opening.specs.Opening.{opened_head, all_emptied, all_dropped, opened_record, free_share, reserved_record};
ghost use Rattle.opening.specs.Withdrawing.{withdrawn_record};

use queue::Queue;
use stream::{Numbers, Stream};

// Writes the head of an open port.
fn open_head(port: &mut [u8], link: u16, delay: u8)
    requires { Whole port.old }
    ensures { port.new ≡ opened_head port.old (terms link delay) }
{
    record::head::put_open(port);
    record::head::put_prior(port, 0);
    record::head::put_delay(port, delay);
    record::head::put_link(port, link);
    record::head::put_waits(port, 0);
}

// Empties all queues.
#[tactic(auto, unfolding(lists::specs::Turns::iterate))]
fn empty_queues(port: &mut [u8])
    requires { Whole port.old }
    ensures { port.new ≡ all_emptied port.old }
{
    for q in 0..=record::head::queues(port) {
        record::head::put_queue(port, q, Queue::empty());
    }
}

// Drops all reservations and bindings.
#[tactic(auto, unfolding(lists::specs::Turns::iterate))]
fn drop_streams(port: &mut [u8])
    requires { Whole port.old }
    ensures { port.new ≡ all_dropped port.old }
{
    for s in 0..record::STREAMS {
        record::entry::drop_stream(port, s);
    }
}

// Open(L, K).
#[tactic(auto, unfolding(crate::specs::Opening::opened_record))]
pub fn open_port(port: &mut [u8], link: u16, delay: u8) -> Numbers
    requires { Whole port.old }
    ensures { (given result ≡ granted (share_of link) 0) × (port.new ≡ opened_record port.old (terms link delay)) }
{
    open_head(port, link, delay);
    empty_queues(port);
    drop_streams(port);
    Numbers::new(ranges::share(link), 0)
}

// The share still free.
fn free_share(port: &[u8]) -> u32
    requires { Whole port.now }
    ensures { result ≡ free_share port.now }
{
    let share = ranges::share(record::head::link(port));
    share.saturating_sub(fitness::streams::permitted_sum(port))
}

// Reserve(s, P).
pub fn reserve(port: &mut [u8], stream: u8, permitted: u16) -> Numbers
    requires { Whole port.old × (stream < stream_count) }
    ensures { (given result ≡ granted (free_share (reserved_record port.old stream permitted)) 0) × (port.new ≡ reserved_record port.old stream permitted) }
{
    record::entry::put_stream(port, stream, Stream::reserve(permitted));
    Numbers::new(free_share(port), 0)
}

// Withdraw(s).
pub fn withdraw(port: &mut [u8], stream: u8) -> Numbers
    requires { Whole port.old × (stream < stream_count) }
    ensures { (given result ≡ granted 0 0) × (port.new ≡ withdrawn_record port.old stream) }
{
    let queues = record::head::queues(port);
    record::entry::put_drain(port, stream, queues);
    Numbers::new(0, 0)
}
