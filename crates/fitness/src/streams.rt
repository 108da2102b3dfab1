// The clauses of 19 on the reserved streams, and R, the sum of their P.
ghost use Rattle.std.specs.Prelude.{◌≡◌};
ghost use Rattle.lists.specs.Turns.{all_to};
ghost use Rattle.record.specs.Layout.{Whole, stream_count};
ghost use Rattle.record.specs.Entry.{stream_at};
ghost use Rattle.record.specs.Reservations.{permitted_of, permitted_sum};
ghost use Rattle.fitness.specs.Clauses.{stream_fits, streams_fit, reservation_fits};

use stream::Stream;

// The first place, as the ranges take numbers.
const CURRENT: u32 = stream::CURRENT as u32;

// Whether the stream, if it is reserved, has a place up to the last, at most P left and a draining count of at most the queues.
fn stream_fits(last: u8, stream: Stream, drain: u8) -> bool
    ensures { result ≡ stream_fits last stream drain }
{
    !stream.reserved
        || (ranges::within(stream.place as u32, CURRENT, last as u32)
            && stream.left <= stream.permitted
            && drain as u16 <= last as u16 + 1)
}

// Whether every stream has.
pub(crate) fn fit(port: &[u8]) -> bool
    requires { Whole port.now }
    ensures { result ≡ streams_fit port.now }
{
    let last = record::head::last_place(port);
    (0..record::STREAMS).all(|s| {
        let stream = record::entry::stream_at(port, s);
        stream_fits(last, stream, record::entry::drain(port, s))
    })
}

// Whether the stream's P, if it is reserved, is in its range.
fn reservation_fits(stream: Stream) -> bool
    ensures { result ≡ reservation_fits stream }
{
    !stream.reserved || ranges::permitted_fits(stream.permitted as u32)
}

// Whether every stream's is.
pub(crate) fn reservations_fit(port: &[u8]) -> bool
    requires { Whole port.now }
    ensures { result ≡ all_to (λ s. reservation_fits (stream_at port.now s)) stream_count }
{
    (0..record::STREAMS).all(|s| reservation_fits(record::entry::stream_at(port, s)))
}

// What the stream adds to R.
fn permitted(stream: Stream) -> u16
    ensures { result ≡ permitted_of stream }
{
    if stream.reserved { stream.permitted } else { 0 }
}

// R, the sum of the reserved streams' P.
#[tactic(auto, using(crate::proofs::TestLaws::sum_to_start, crate::proofs::TestLaws::sum_to_turn))]
pub fn permitted_sum(port: &[u8]) -> u32
    requires { Whole port.now }
    ensures { result ≡ permitted_sum port.now }
{
    let mut sum: u32 = 0;
    for s in 0..record::STREAMS {
        sum += permitted(record::entry::stream_at(port, s)) as u32;
    }
    sum
}
