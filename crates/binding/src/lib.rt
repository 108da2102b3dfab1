// The step of Bind, in the octets that the host lends, and the lookup of a pair among the bindings. The definitions are in specs/.
#![tactic(auto)]

pub mod finding;

ghost use Rattle.std.specs.Prelude.{◌≡◌, ◌≤◌, ◌<◌, length};
ghost use Rattle.stream.specs.Replies.{granted, given};
ghost use Rattle.record.specs.Layout.{Whole, stream_count, address_length};
ghost use Rattle.record.specs.Entry.{with_binding};
ghost use Rattle.binding.specs.Finding.{lookup_reply};

use stream::Numbers;

// What comparing an address gives: whether it is equal, and how many address octets were compared by then, those compared before among them.
// Stays a flag beside a number: the number counts whether the address is equal or not, and in an Option or a Result it would stand twice.
#[derive(Clone, Copy, Drop)]
pub struct Comparison {
    equal: bool,
    compared: u32,
}

// What a lookup gives: the stream that is bound to the pair, if one is, and beside it the number of address octets compared.
#[derive(Clone, Copy, Drop)]
pub struct Answer {
    pub found: Option<u8>,
    pub compared: u32,
}

impl From<Answer> for Numbers {
    ghost from_gives = { λ answer numbers. given numbers ≡ lookup_reply answer };

    // The two numbers of the reply: the stream, or best effort's where none is bound, and the number of octets compared.
    fn from(answer: Answer) -> Numbers {
        let stream = answer.found.map_or(
            fitness::frames::BEST_EFFORT_STREAM as u32,
            |stream| stream as u32,
        );
        Numbers::new(stream, answer.compared)
    }
}

// Bind(s, address, VID); the address is the first six of the octets.
pub fn bind(port: &mut [u8], stream: u8, address: &[u8], vid: u16) -> Numbers
    requires { Whole port.old × ((stream < stream_count) × (address_length ≤ length address.now)) }
    ensures { (given result ≡ granted 0 0) × (port.new ≡ with_binding port.old stream address.now vid) }
{
    record::entry::put_binding(port, stream, address, vid);
    Numbers::new(0, 0)
}
