// Whether the host's record and memory will do: refusals 18 and 19, for a record and a memory of any length and content. The definitions
// are in specs/, clause by clause in document 01's order.
#![tactic(auto)]

mod bindings;
pub mod frames;
mod queues;
pub mod streams;

ghost use Rattle.std.specs.Prelude.{◌≡◌};
ghost use Rattle.stream.specs.Replies.{refusal_number};
ghost use Rattle.record.specs.Layout.{Whole};
ghost use Rattle.record.specs.Queues.{HasMemory};
ghost use Rattle.fitness.specs.Clauses.{prior_fits, waits_fit, plan_fits, open_fits};
ghost use Rattle.fitness.specs.Fit.{record_fits, lent_refusal};

use stream::Refusal;

// Whether prior is one of the queues for reserved traffic.
fn prior_fits(port: &[u8]) -> bool
    requires { Whole port.now }
    ensures { result ≡ prior_fits port.now }
{
    record::head::prior(port) < record::head::queues(port)
}

// Whether W is the sum of the charges waiting in best effort.
fn waits_fit(port: &[u8], memory: &[u8]) -> bool
    requires { Whole port.now × HasMemory port.now memory.now }
    ensures { result ≡ waits_fit port.now memory.now }
{
    let best = record::head::queues(port);
    let queue = record::head::queue_at(port, best);
    record::head::waits(port) == queue::charges(memory, best, queue)
}

// Whether L, K, every P and their sum are in their ranges.
fn plan_fits(port: &[u8]) -> bool
    requires { Whole port.now }
    ensures { result ≡ plan_fits port.now }
{
    ranges::link_fits(record::head::link(port) as u32)
        && ranges::delay_fits(record::head::delay(port) as u32)
        && streams::reservations_fit(port)
        && streams::permitted_sum(port) <= ranges::share(record::head::link(port))
}

// The clause on open ports only.
fn open_fits(port: &[u8]) -> bool
    requires { Whole port.now }
    ensures { result ≡ open_fits port.now }
{
    if record::head::is_open(port) {
        plan_fits(port)
    } else {
        true
    }
}

// Whether the record is fit, clause by clause.
#[tactic(auto, unfolding(crate::specs::Fit::record_fits))]
fn record_fits(port: &[u8], memory: &[u8]) -> bool
    requires { HasMemory port.now memory.now }
    ensures { result ≡ record_fits port.now memory.now }
{
    port.len() >= record::RECORD_LENGTH
        && prior_fits(port)
        && queues::fit(port)
        && streams::fit(port)
        && bindings::fit(port)
        && frames::fit(port, memory)
        && waits_fit(port, memory)
        && open_fits(port)
}

// The refusal of what the host lends: 18, 19, or none where both will do.
#[tactic(auto, unfolding(crate::specs::Fit::lent_refusal))]
pub fn refusal(port: &[u8], memory: &[u8]) -> Result<(), Refusal>
    ensures { refusal_number result ≡ lent_refusal port.now memory.now }
{
    if memory.len() < record::head::memory_length(port) {
        return Err(Refusal::ShortMemory);
    }
    if !record_fits(port, memory) {
        return Err(Refusal::UnfitRecord);
    }
    Ok(())
}
