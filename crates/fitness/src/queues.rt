// The clause of 19 on the queues' starts and counts.
ghost use Rattle.std.specs.Prelude.{◌≡◌};
ghost use Rattle.record.specs.Layout.{Whole};
ghost use Rattle.fitness.specs.Clauses.{queue_fits, queues_fit};

use queue::Queue;

// Whether the queue's start and count are in their ranges.
fn queue_fits(queue: Queue) -> bool
    ensures { result ≡ queue_fits queue }
{
    queue.start < queue::PLACES && queue.count <= queue::PLACES
}

// Whether every queue's are.
pub(crate) fn fit(port: &[u8]) -> bool
    requires { Whole port.now }
    ensures { result ≡ queues_fit port.now }
{
    let best = record::head::queues(port);
    (0..best + 1).all(|q| queue_fits(record::head::queue_at(port, q)))
}
