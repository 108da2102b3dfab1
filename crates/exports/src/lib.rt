// The calls of a port, its register accesses, its counts and its lookup for a host in C or Rust, over the slice and the memory that the host lends. The
// refusal, or 0, is returned, and the two reply numbers are left in `first` and `second`. None asks anything of its caller; a contract is that of the call in
// `registers`.
#![tactic(auto)]

pub mod alone;
pub mod unscanned;

ghost use Rattle.std.specs.Prelude.{◌≡◌};
ghost use Rattle.stream.specs.Replies.{answered};
ghost use Rattle.steps.specs.Call.{terms, opening, reserving, withdrawing, arriving, ticking, transmitting, joining_best_effort, binding, framing};
ghost use Rattle.steps.specs.Outcome.{outcome};
ghost use Rattle.registers.specs.Calls.{port_call};
ghost use Rattle.registers.specs.Accesses.{register_read, register_write};
ghost use Rattle.registers.specs.StreamCounts.{port_counts};
ghost use Rattle.registers.specs.PortLookup.{port_lookup};
ghost use Rattle.exports.specs.Handed.{handed};

use port::Scanned;
use stream::{Numbers, Refusal, Reply};

// Hands over an answer: the refusal's number, or 0, is returned, and the two numbers are left in `first` and `second`.
fn hand(answer: Result<Numbers, Refusal>, first: &mut u32, second: &mut u32) -> u8
    ensures { handed result first.new second.new ≡ answered answer }
{
    let reply = Reply::from(answer);
    *first = reply.first;
    *second = reply.second;
    reply.refusal
}

// Open(L, K).
#[unsafe(no_mangle)]
pub extern "C" fn bunnysolder_open(
    port: &mut [u8],
    memory: &[u8],
    link: u32,
    delay: u32,
    first: &mut u32,
    second: &mut u32,
) -> u8
    ensures { outcome (handed result first.new second.new) port.new memory.now ≡ port_call (opening (terms link delay)) port.old memory.now }
{
    let answer = registers::open_port::<Scanned>(port, memory, link, delay);
    hand(answer, first, second)
}

// Reserve(s, P).
#[unsafe(no_mangle)]
pub extern "C" fn bunnysolder_reserve(
    port: &mut [u8],
    memory: &[u8],
    stream: u8,
    permitted: u32,
    first: &mut u32,
    second: &mut u32,
) -> u8
    ensures { outcome (handed result first.new second.new) port.new memory.now ≡ port_call (reserving stream permitted) port.old memory.now }
{
    let answer = registers::reserve::<Scanned>(port, memory, stream, permitted);
    hand(answer, first, second)
}

// Withdraw(s).
#[unsafe(no_mangle)]
pub extern "C" fn bunnysolder_withdraw(
    port: &mut [u8],
    memory: &[u8],
    stream: u8,
    first: &mut u32,
    second: &mut u32,
) -> u8
    ensures { outcome (handed result first.new second.new) port.new memory.now ≡ port_call (withdrawing stream) port.old memory.now }
{
    let answer = registers::withdraw::<Scanned>(port, memory, stream);
    hand(answer, first, second)
}

// Arrive(s, a, tag).
#[unsafe(no_mangle)]
pub extern "C" fn bunnysolder_arrive(
    port: &mut [u8],
    memory: &mut [u8],
    stream: u8,
    charge: u32,
    tag: u32,
    first: &mut u32,
    second: &mut u32,
) -> u8
    ensures { outcome (handed result first.new second.new) port.new memory.new ≡ port_call (arriving stream charge tag) port.old memory.old }
{
    let answer = registers::arrive::<Scanned>(port, memory, stream, charge, tag);
    hand(answer, first, second)
}

// Tick.
#[unsafe(no_mangle)]
pub extern "C" fn bunnysolder_tick(
    port: &mut [u8],
    memory: &[u8],
    first: &mut u32,
    second: &mut u32,
) -> u8
    ensures { outcome (handed result first.new second.new) port.new memory.now ≡ port_call ticking port.old memory.now }
{
    let answer = registers::tick::<Scanned>(port, memory);
    hand(answer, first, second)
}

// Transmit.
#[unsafe(no_mangle)]
pub extern "C" fn bunnysolder_transmit(
    port: &mut [u8],
    memory: &[u8],
    first: &mut u32,
    second: &mut u32,
) -> u8
    ensures { outcome (handed result first.new second.new) port.new memory.now ≡ port_call transmitting port.old memory.now }
{
    let answer = registers::transmit::<Scanned>(port, memory);
    hand(answer, first, second)
}

// Best effort(a, tag).
#[unsafe(no_mangle)]
pub extern "C" fn bunnysolder_best_effort(
    port: &mut [u8],
    memory: &mut [u8],
    charge: u32,
    tag: u32,
    first: &mut u32,
    second: &mut u32,
) -> u8
    ensures { outcome (handed result first.new second.new) port.new memory.new ≡ port_call (joining_best_effort charge tag) port.old memory.old }
{
    let answer = registers::best_effort::<Scanned>(port, memory, charge, tag);
    hand(answer, first, second)
}

// Bind(s, address, VID).
#[unsafe(no_mangle)]
pub extern "C" fn bunnysolder_bind(
    port: &mut [u8],
    memory: &[u8],
    stream: u8,
    address: &[u8; record::ADDRESS_LENGTH],
    vid: u32,
    first: &mut u32,
    second: &mut u32,
) -> u8
    ensures { outcome (handed result first.new second.new) port.new memory.now ≡ port_call (binding stream address.now vid) port.old memory.now }
{
    let answer = registers::bind::<Scanned>(port, memory, stream, address, vid);
    hand(answer, first, second)
}

// Frame(octets, tag).
#[unsafe(no_mangle)]
pub extern "C" fn bunnysolder_frame(
    port: &mut [u8],
    memory: &mut [u8],
    octets: &[u8],
    tag: u32,
    first: &mut u32,
    second: &mut u32,
) -> u8
    ensures { outcome (handed result first.new second.new) port.new memory.new ≡ port_call (framing octets.now tag) port.old memory.old }
{
    let answer = registers::frame::<Scanned>(port, memory, octets, tag);
    hand(answer, first, second)
}

// A read of the register at an offset.
#[unsafe(no_mangle)]
pub extern "C" fn bunnysolder_register_read(
    port: &[u8],
    memory: &[u8],
    offset: u32,
    first: &mut u32,
    second: &mut u32,
) -> u8
    ensures { outcome (handed result first.new second.new) port.now memory.now ≡ register_read offset port.now memory.now }
{
    let answer = registers::accesses::read::<Scanned>(port, memory, offset);
    hand(answer, first, second)
}

// A write to the register at an offset.
#[unsafe(no_mangle)]
pub extern "C" fn bunnysolder_register_write(
    port: &mut [u8],
    memory: &[u8],
    offset: u32,
    value: u32,
    first: &mut u32,
    second: &mut u32,
) -> u8
    ensures { outcome (handed result first.new second.new) port.new memory.now ≡ register_write offset value port.old memory.now }
{
    let answer = registers::accesses::write::<Scanned>(port, memory, offset, value);
    hand(answer, first, second)
}

// The accepted frames and the discards of a stream.
#[unsafe(no_mangle)]
pub extern "C" fn bunnysolder_stream_counts(
    port: &[u8],
    stream: u8,
    first: &mut u32,
    second: &mut u32,
) -> u8
    ensures { handed result first.new second.new ≡ port_counts stream port.now }
{
    let answer = registers::counts::of_stream(port, stream);
    hand(answer, first, second)
}

// The lookup of the pair of an address and a VID.
#[unsafe(no_mangle)]
pub extern "C" fn bunnysolder_lookup(
    port: &[u8],
    address: &[u8; record::ADDRESS_LENGTH],
    vid: u32,
    first: &mut u32,
    second: &mut u32,
) -> u8
    ensures { handed result first.new second.new ≡ port_lookup address.now vid port.now }
{
    let answer = registers::lookup::of_pair(port, address, vid);
    hand(answer, first, second)
}
