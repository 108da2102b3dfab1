// A frame by its octets: its length, its charge, and what Frame reads of its header. Nothing here knows a port. That the octets reach
// to the header's end stays a clause: the frame is lent whole, and its length is read too. The definitions are in specs/.
#![tactic(auto)]

ghost use Rattle.std.specs.Prelude.{◌≡◌, true, ◌≤◌, length};
ghost use Rattle.header.specs.Header.{charge_of, length_fits, header_length, tagged_frame, vid_of};

// What a frame costs on the wire beside its own octets: the check sequence, and preamble and gap.
const ON_WIRE: u32 = 4 + 20;

// The ends of a frame's length.
const LEAST_LENGTH: usize = (ranges::LEAST_CHARGE - ON_WIRE) as usize;

const GREATEST_LENGTH: usize = (ranges::GREATEST_CHARGE - ON_WIRE) as usize;

// Where the VID stands, and the numbers of its 12 bits.
const VID: usize = 14;

const VIDS: u16 = 4096;

// Whether the frame's length is in its range.
#[tactic(auto, unfolding(crate::specs::Header::length_fits))]
pub fn length_fits(frame: &[u8]) -> bool
    ensures { result ≡ length_fits frame.now }
{
    (LEAST_LENGTH..=GREATEST_LENGTH).contains(&frame.len())
}

// The frame's charge.
#[tactic(auto, using(crate::proofs::HeaderLaws::length_bounds), unfolding(crate::specs::Header::charge_of))]
pub fn charge(frame: &[u8]) -> u32
    requires { length_fits frame.now ≡ true }
    ensures { result ≡ charge_of frame.now }
{
    frame.len() as u32 + ON_WIRE
}

// Whether the frame has a VLAN tag.
pub fn is_tagged(frame: &[u8]) -> bool
    requires { header_length ≤ length frame.now }
    ensures { result ≡ tagged_frame frame.now }
{
    check::same(&frame[12..14], b"\x81\x00")
}

// The VID of a frame that has a VLAN tag.
#[tactic(auto, unfolding(crate::specs::Header::vid_of))]
pub fn vid(frame: &[u8]) -> u16
    requires { header_length ≤ length frame.now }
    ensures { result ≡ vid_of frame.now }
{
    octets::two_at(frame, VID) % VIDS
}
