// A frame in its place: 8 octets, high octet first. A place stays an index into the lent memory with a clause that it ends there: it is read where it stands.
ghost use Rattle.std.specs.Prelude.{◌≡◌, ◌+◌, ◌≤◌, length};
ghost use Rattle.queue.specs.Place.{place_length, frame_at, with_frame};

use crate::Frame;

// The octets of a place.
pub(crate) const LENGTH: usize = 8;

// Where, in a place, the charge begins; the stream stands before it.
const CHARGE: usize = 2;

// Where, in a place, the tag begins.
const TAG: usize = 4;

// The charge of the frame whose place begins at `at`.
#[tactic(auto, using(crate::proofs::PlaceLaws::charge_at))]
pub(crate) fn charge(memory: &[u8], at: usize) -> u16
    requires { at + place_length ≤ length memory.now }
    ensures { result ≡ (frame_at memory.now at).charge }
{
    octets::two_at(memory, at + CHARGE)
}

// The frame whose place begins at `at`.
#[tactic(auto, using(crate::proofs::PlaceLaws::stream_at_lem, crate::proofs::PlaceLaws::tag_at, crate::proofs::PlaceLaws::same_fields))]
pub(crate) fn read(memory: &[u8], at: usize) -> Frame
    requires { at + place_length ≤ length memory.now }
    ensures { result ≡ frame_at memory.now at }
{
    Frame {
        stream: octets::two_at(memory, at),
        charge: charge(memory, at),
        tag: octets::four_at(memory, at + TAG),
    }
}

// Writes the frame into the place that begins at `at`.
#[tactic(auto, using(crate::proofs::PlaceLaws::fields_written))]
pub(crate) fn write(memory: &mut [u8], at: usize, frame: Frame)
    requires { at + place_length ≤ length memory.old }
    ensures { memory.new ≡ with_frame memory.old at frame }
{
    octets::put_two(memory, at, frame.stream);
    octets::put_two(memory, at + CHARGE, frame.charge);
    octets::put_four(memory, at + TAG, frame.tag);
}
