// The port record in the octets that the host lends: each field read and written in place. The layout and the definitions are in specs/.
#![tactic(auto)]

pub mod entry;
pub mod head;

ghost use Rattle.std.specs.Prelude.{◌≡◌, [], ◌∷◌, ◌<◌, length};
ghost use Rattle.lists.specs.Window.{put};
ghost use Rattle.record.specs.Layout.{memory_length};

// The record stays a slice with a clause that it has its length, here and in the crates above: the host lends it with octets behind it, which the calls of
// `port` promise to leave, and a struct for it would be two, one that reads and one that writes. A stream stays a number with a clause that it is below 64,
// and a queue one with a clause that it has a place: a struct of one number would be made and opened at each turn of each loop over them.

// The fewest queues for reserved traffic, prior and one for each place.
pub const LEAST_QUEUES: u8 = 4;

// The streams of a port.
pub const STREAMS: u8 = 64;

// The octets of a record, and those of the memory of a port with the fewest queues.
pub const RECORD_LENGTH: usize = entry::START + STREAMS as usize * entry::LENGTH;

pub const LEAST_MEMORY_LENGTH: usize = (LEAST_QUEUES as usize + 1) * queue::PART_LENGTH;

// The octets of an address.
pub const ADDRESS_LENGTH: usize = 6;

// An octet as a mark: 1 is yes, any other no, so it is no bool that is put down and read back.
const YES: u8 = 1;

const NO: u8 = 0;

// The octets of the memory of a port with so many queues for reserved traffic.
pub(crate) fn memory_length(queues: u8) -> usize
    ensures { result ≡ memory_length queues }
{
    (queues as usize + 1) * queue::PART_LENGTH
}

// Writes one octet.
fn put_octet(port: &mut [u8], at: usize, octet: u8)
    requires { at < length port.old }
    ensures { port.new ≡ put port.old at (octet ∷ []) }
{
    port[at] = octet;
}
