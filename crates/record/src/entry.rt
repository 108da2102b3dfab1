// The fields of a stream's entry: its reservation, how long it still drains, and its binding. Each stays a function of its own, for the reason that the
// fields of the head give.
#![tactic(auto, unfolding(crate::specs::Entry::drain_at, crate::specs::Entry::with_drain, crate::specs::Entry::drains_at, crate::specs::Entry::bound_at, crate::specs::Entry::vid_at, crate::specs::PairNumber::pair_at))]

ghost use Rattle.std.specs.Prelude.{◌≡◌, ◌≤◌, ◌<◌, length, get_or};
ghost use Rattle.record.specs.Layout.{Whole, stream_count, entry_offset, address_length};
ghost use Rattle.record.specs.Entry.{stream_at, with_stream, with_place, drain_at, with_drain, drains_at, bound_at, vid_at, address_at, with_binding, dropped};
ghost use Rattle.record.specs.PairNumber.{pair_at};

use stream::Stream;

// Where the entries begin, and the octets of one.
pub(crate) const START: usize = 64;

pub(crate) const LENGTH: usize = 16;

// Where the fields of an entry begin; whether the stream is reserved stands first.
const PLACE: usize = 1;

const LEFT: usize = 2;

const PERMITTED: usize = 4;

const DRAIN: usize = 6;

const BOUND: usize = 7;

const PAIR: usize = 8;

const ADDRESS: usize = 10;

// Where the last four octets of an address begin.
const LATER: usize = 2;

// Where the stream's entry begins.
fn start(stream: u8) -> usize
    ensures { result ≡ entry_offset stream }
{
    START + stream as usize * LENGTH
}

// The stream's reservation.
#[tactic(auto, using(crate::proofs::EntryLaws::stream_read))]
pub fn stream_at(port: &[u8], stream: u8) -> Stream
    requires { Whole port.now × (stream < stream_count) }
    ensures { result ≡ stream_at port.now stream }
{
    let at = start(stream);
    Stream {
        reserved: port[at] == crate::YES,
        permitted: octets::two_at(port, at + PERMITTED),
        place: port[at + PLACE],
        left: octets::two_at(port, at + LEFT),
    }
}

// Writes the stream's reservation; it does not drain.
#[tactic(auto, using(crate::proofs::EntryLaws::mark_octet, crate::proofs::EntryLaws::stream_written))]
pub fn put_stream(port: &mut [u8], stream: u8, reservation: Stream)
    requires { Whole port.old × (stream < stream_count) }
    ensures { port.new ≡ with_stream port.old stream reservation }
{
    let at = start(stream);
    crate::put_octet(port, at, u8::from(reservation.reserved));
    put_place(port, stream, reservation.place, reservation.left);
    octets::put_two(port, at + PERMITTED, reservation.permitted);
    crate::put_octet(port, at + DRAIN, 0);
}

// Writes the stream's place and what is left there.
#[tactic(auto, using(crate::proofs::EntryLaws::place_written))]
pub fn put_place(port: &mut [u8], stream: u8, place: u8, left: u16)
    requires { Whole port.old × (stream < stream_count) }
    ensures { port.new ≡ with_place port.old stream place left }
{
    let at = start(stream);
    crate::put_octet(port, at + PLACE, place);
    octets::put_two(port, at + LEFT, left);
}

// The stream's draining count.
pub fn drain(port: &[u8], stream: u8) -> u8
    requires { Whole port.now × (stream < stream_count) }
    ensures { result ≡ drain_at port.now stream }
{
    port[start(stream) + DRAIN]
}

// Writes the stream's draining count.
pub fn put_drain(port: &mut [u8], stream: u8, ticks: u8)
    requires { Whole port.old × (stream < stream_count) }
    ensures { port.new ≡ with_drain port.old stream ticks }
{
    crate::put_octet(port, start(stream) + DRAIN, ticks);
}

// Whether the stream is draining.
pub fn drains(port: &[u8], stream: u8) -> bool
    requires { Whole port.now × (stream < stream_count) }
    ensures { result ≡ drains_at port.now stream }
{
    stream_at(port, stream).reserved && drain(port, stream) != 0
}

// Whether the stream is bound.
pub fn is_bound(port: &[u8], stream: u8) -> bool
    requires { Whole port.now × (stream < stream_count) }
    ensures { result ≡ bound_at port.now stream }
{
    port[start(stream) + BOUND] == crate::YES
}

// The VID of the stream's binding.
pub fn vid(port: &[u8], stream: u8) -> u16
    requires { Whole port.now × (stream < stream_count) }
    ensures { result ≡ vid_at port.now stream }
{
    octets::two_at(port, start(stream) + PAIR)
}

// An octet of the address of the stream's binding.
#[tactic(auto, using(lists::proofs::WindowLaws::get_or_get), unfolding(crate::specs::Entry::address_at))]
pub fn address_octet(port: &[u8], stream: u8, index: usize) -> u8
    requires { Whole port.now × ((stream < stream_count) × (index < address_length)) }
    ensures { result ≡ get_or (address_at port.now stream) index 0 }
{
    port[start(stream) + ADDRESS + index]
}

// The pair of VID and address of the stream's binding, as one number.
pub fn pair(port: &[u8], stream: u8) -> u64
    requires { Whole port.now × (stream < stream_count) }
    ensures { result ≡ pair_at port.now stream }
{
    octets::eight_at(port, start(stream) + PAIR)
}

// Binds the stream to an address, the first six of the octets, and a VID.
#[tactic(auto, using(crate::proofs::EntryLaws::binding_written))]
pub fn put_binding(port: &mut [u8], stream: u8, address: &[u8], vid: u16)
    requires { Whole port.old × ((stream < stream_count) × (address_length ≤ length address.now)) }
    ensures { port.new ≡ with_binding port.old stream address.now vid }
{
    let at = start(stream);
    crate::put_octet(port, at + BOUND, crate::YES);
    octets::put_two(port, at + PAIR, vid);
    octets::put_two(port, at + ADDRESS, octets::two_at(address, 0));
    octets::put_four(port, at + ADDRESS + LATER, octets::four_at(address, LATER));
}

// Drops the stream's reservation and its binding, and ends its draining.
#[tactic(auto, using(crate::proofs::EntryLaws::dropped_written))]
pub fn drop_stream(port: &mut [u8], stream: u8)
    requires { Whole port.old × (stream < stream_count) }
    ensures { port.new ≡ dropped port.old stream }
{
    let at = start(stream);
    crate::put_octet(port, at, crate::NO);
    crate::put_octet(port, at + DRAIN, 0);
    crate::put_octet(port, at + BOUND, crate::NO);
}
