// Numbers of two, four and eight octets, high octet first, read and written in a slice: what the port record, the frame memory and
// capture files are made of. Each size stays a function of its own: it names its number's type and its definition, and its body is the library's conversion. That the octets reach so far stays a clause: an array of them would have to be cut out of the slice.
#![tactic(auto)]

ghost use Rattle.std.specs.Prelude.{◌≡◌, ◌+◌, ◌≤◌, length};
ghost use Rattle.lists.specs.Window.{put, get};
ghost use Rattle.octets.specs.Numbers.{two_of, two_octets, four_of, four_octets, eight_of};

// The number in the two octets from `at` on.
#[tactic(auto, unfolding(crate::specs::Numbers::two_of))]
pub fn two_at(octets: &[u8], at: usize) -> u16
    requires { at + 2 ≤ length octets.now }
    ensures { result ≡ two_of (get octets.now at 2) }
{
    u16::from_be_bytes([octets[at], octets[at + 1]])
}

// Writes the number into the two octets from `at` on.
pub fn put_two(octets: &mut [u8], at: usize, number: u16)
    requires { at + 2 ≤ length octets.old }
    ensures { octets.new ≡ put octets.old at (two_octets number) }
{
    octets[at..at + 2].copy_from_slice(&number.to_be_bytes());
}

// The number in the four octets from `at` on.
#[tactic(auto, unfolding(crate::specs::Numbers::two_of, crate::specs::Numbers::four_of))]
pub fn four_at(octets: &[u8], at: usize) -> u32
    requires { at + 4 ≤ length octets.now }
    ensures { result ≡ four_of (get octets.now at 4) }
{
    let bytes = [octets[at], octets[at + 1], octets[at + 2], octets[at + 3]];
    u32::from_be_bytes(bytes)
}

// Writes the number into the four octets from `at` on.
pub fn put_four(octets: &mut [u8], at: usize, number: u32)
    requires { at + 4 ≤ length octets.old }
    ensures { octets.new ≡ put octets.old at (four_octets number) }
{
    octets[at..at + 4].copy_from_slice(&number.to_be_bytes());
}

// The number in the eight octets from `at` on.
#[tactic(auto, unfolding(crate::specs::Numbers::two_of, crate::specs::Numbers::four_of, crate::specs::Numbers::eight_of))]
pub fn eight_at(octets: &[u8], at: usize) -> u64
    requires { at + 8 ≤ length octets.now }
    ensures { result ≡ eight_of (get octets.now at 8) }
{
    let bytes = [
        octets[at],
        octets[at + 1],
        octets[at + 2],
        octets[at + 3],
        octets[at + 4],
        octets[at + 5],
        octets[at + 6],
        octets[at + 7],
    ];
    u64::from_be_bytes(bytes)
}
