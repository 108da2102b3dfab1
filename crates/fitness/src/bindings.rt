// The clause of 19 on the bindings. The pairs of the bound streams are gathered, by their numbers, as the scan goes, and each binding is compared with
// those gathered before it, so that nothing of an unbound stream is read but that it is unbound.
ghost use Rattle.std.specs.Prelude.{◌≡◌, not, cond, ◌<◌, ◌∷◌, [], ◌++◌, eqb};
ghost use Rattle.arrayvec.specs.ArrayVec.{array_vec_len};
ghost use Rattle.std.specs.List.{list_all};
ghost use Rattle.record.specs.Layout.{Whole, stream_count};
ghost use Rattle.record.specs.Entry.{bound_at};
ghost use Rattle.record.specs.PairNumber.{pair_at};
ghost use Rattle.fitness.specs.Clauses.{binding_fits, bindings_fit};

use arrayvec::ArrayVec;

// The pairs at most, one for each stream.
const PAIRS: usize = record::STREAMS as usize;

// Whether none of these pairs is this one. All are looked at, since several are then compared at a time.
#[tactic(auto, using(std::proofs::lemmas::List::Folds::list_all_more))]
fn unlike(pairs: &[u64], pair: u64) -> bool
    ensures { result ≡ list_all (λ gathered. not (eqb gathered pair)) pairs.now }
{
    let mut ok = true;
    for gathered in pairs {
        ok &= *gathered != pair;
    }
    ok
}

// Whether the stream's binding, if it has one, fits, with the pairs of the bindings before it.
fn binding_fits(port: &[u8], stream: u8, pairs: &[u64]) -> bool
    requires { Whole port.now × (stream < stream_count) }
    ensures { result ≡ binding_fits port.now stream (list_all (λ gathered. not (eqb gathered (pair_at port.now stream))) pairs.now) }
{
    !record::entry::is_bound(port, stream)
        || (record::entry::stream_at(port, stream).reserved
            && ranges::vid_fits(record::entry::vid(port, stream) as u32)
            && unlike(pairs, record::entry::pair(port, stream)))
}

// Adds the stream's pair, if it is bound.
fn gather(port: &[u8], stream: u8, pairs: &mut ArrayVec<u64, PAIRS>)
    requires { Whole port.now × ((stream < stream_count) × (array_vec_len pairs.old < stream_count)) }
    ensures { pairs.new.items ≡ cond (bound_at port.now stream) (pairs.old.items ++ (pair_at port.now stream ∷ [])) pairs.old.items }
{
    if record::entry::is_bound(port, stream) {
        pairs.push(record::entry::pair(port, stream));
    }
}

// Whether every binding fits.
#[tactic(auto, using(crate::proofs::TestLaws::all_to_start))]
pub(crate) fn fit(port: &[u8]) -> bool
    requires { Whole port.now }
    ensures { result ≡ bindings_fit port.now }
{
    let mut pairs = ArrayVec::new();
    for s in 0..record::STREAMS {
        if !binding_fits(port, s, pairs.as_slice()) {
            return false;
        }
        gather(port, s, &mut pairs);
    }
    true
}
