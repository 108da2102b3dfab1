// The quick calls and register accesses for a host in C or Rust that alone writes the slice: nothing is scanned. On a fit record each equals the call of
// the same name. They stay functions beside the calls, and not one generic one: C calls each by its name.
ghost use Rattle.std.specs.Prelude.{◌≡◌};
ghost use Rattle.steps.specs.Call.{terms, opening, reserving, withdrawing, arriving, ticking, transmitting, joining_best_effort, binding, framing};
ghost use Rattle.steps.specs.Outcome.{outcome};
ghost use Rattle.registers.specs.Calls.{quick_port_call};
ghost use Rattle.registers.specs.Accesses.{quick_register_read, quick_register_write};
ghost use Rattle.exports.specs.Handed.{handed};

use port::Unscanned;

// Open(L, K); nothing is scanned.
#[unsafe(no_mangle)]
pub extern "C" fn bunnysolder_open_unscanned(
    port: &mut [u8],
    memory: &[u8],
    link: u32,
    delay: u32,
    first: &mut u32,
    second: &mut u32,
) -> u8
    ensures { outcome (handed result first.new second.new) port.new memory.now ≡ quick_port_call (opening (terms link delay)) port.old memory.now }
{
    let answer = registers::open_port::<Unscanned>(port, memory, link, delay);
    crate::hand(answer, first, second)
}

// Reserve(s, P); nothing is scanned.
#[unsafe(no_mangle)]
pub extern "C" fn bunnysolder_reserve_unscanned(
    port: &mut [u8],
    memory: &[u8],
    stream: u8,
    permitted: u32,
    first: &mut u32,
    second: &mut u32,
) -> u8
    ensures { outcome (handed result first.new second.new) port.new memory.now ≡ quick_port_call (reserving stream permitted) port.old memory.now }
{
    let answer = registers::reserve::<Unscanned>(port, memory, stream, permitted);
    crate::hand(answer, first, second)
}

// Withdraw(s); nothing is scanned.
#[unsafe(no_mangle)]
pub extern "C" fn bunnysolder_withdraw_unscanned(
    port: &mut [u8],
    memory: &[u8],
    stream: u8,
    first: &mut u32,
    second: &mut u32,
) -> u8
    ensures { outcome (handed result first.new second.new) port.new memory.now ≡ quick_port_call (withdrawing stream) port.old memory.now }
{
    let answer = registers::withdraw::<Unscanned>(port, memory, stream);
    crate::hand(answer, first, second)
}

// Arrive(s, a, tag); nothing is scanned.
#[unsafe(no_mangle)]
pub extern "C" fn bunnysolder_arrive_unscanned(
    port: &mut [u8],
    memory: &mut [u8],
    stream: u8,
    charge: u32,
    tag: u32,
    first: &mut u32,
    second: &mut u32,
) -> u8
    ensures { outcome (handed result first.new second.new) port.new memory.new ≡ quick_port_call (arriving stream charge tag) port.old memory.old }
{
    let answer = registers::arrive::<Unscanned>(port, memory, stream, charge, tag);
    crate::hand(answer, first, second)
}

// Tick; nothing is scanned.
#[unsafe(no_mangle)]
pub extern "C" fn bunnysolder_tick_unscanned(
    port: &mut [u8],
    memory: &[u8],
    first: &mut u32,
    second: &mut u32,
) -> u8
    ensures { outcome (handed result first.new second.new) port.new memory.now ≡ quick_port_call ticking port.old memory.now }
{
    let answer = registers::tick::<Unscanned>(port, memory);
    crate::hand(answer, first, second)
}

// Transmit; nothing is scanned.
#[unsafe(no_mangle)]
pub extern "C" fn bunnysolder_transmit_unscanned(
    port: &mut [u8],
    memory: &[u8],
    first: &mut u32,
    second: &mut u32,
) -> u8
    ensures { outcome (handed result first.new second.new) port.new memory.now ≡ quick_port_call transmitting port.old memory.now }
{
    let answer = registers::transmit::<Unscanned>(port, memory);
    crate::hand(answer, first, second)
}

// Best effort(a, tag); nothing is scanned.
#[unsafe(no_mangle)]
pub extern "C" fn bunnysolder_best_effort_unscanned(
    port: &mut [u8],
    memory: &mut [u8],
    charge: u32,
    tag: u32,
    first: &mut u32,
    second: &mut u32,
) -> u8
    ensures { outcome (handed result first.new second.new) port.new memory.new ≡ quick_port_call (joining_best_effort charge tag) port.old memory.old }
{
    let answer = registers::best_effort::<Unscanned>(port, memory, charge, tag);
    crate::hand(answer, first, second)
}

// Bind(s, address, VID); nothing is scanned.
#[unsafe(no_mangle)]
pub extern "C" fn bunnysolder_bind_unscanned(
    port: &mut [u8],
    memory: &[u8],
    stream: u8,
    address: &[u8; record::ADDRESS_LENGTH],
    vid: u32,
    first: &mut u32,
    second: &mut u32,
) -> u8
    ensures { outcome (handed result first.new second.new) port.new memory.now ≡ quick_port_call (binding stream address.now vid) port.old memory.now }
{
    let answer = registers::bind::<Unscanned>(port, memory, stream, address, vid);
    crate::hand(answer, first, second)
}

// Frame(octets, tag); nothing is scanned.
#[unsafe(no_mangle)]
pub extern "C" fn bunnysolder_frame_unscanned(
    port: &mut [u8],
    memory: &mut [u8],
    octets: &[u8],
    tag: u32,
    first: &mut u32,
    second: &mut u32,
) -> u8
    ensures { outcome (handed result first.new second.new) port.new memory.new ≡ quick_port_call (framing octets.now tag) port.old memory.old }
{
    let answer = registers::frame::<Unscanned>(port, memory, octets, tag);
    crate::hand(answer, first, second)
}

// A read of the register at an offset; nothing is scanned.
#[unsafe(no_mangle)]
pub extern "C" fn bunnysolder_register_read_unscanned(
    port: &[u8],
    memory: &[u8],
    offset: u32,
    first: &mut u32,
    second: &mut u32,
) -> u8
    ensures { outcome (handed result first.new second.new) port.now memory.now ≡ quick_register_read offset port.now memory.now }
{
    let answer = registers::accesses::read::<Unscanned>(port, memory, offset);
    crate::hand(answer, first, second)
}

// A write to the register at an offset; nothing is scanned.
#[unsafe(no_mangle)]
pub extern "C" fn bunnysolder_register_write_unscanned(
    port: &mut [u8],
    memory: &[u8],
    offset: u32,
    value: u32,
    first: &mut u32,
    second: &mut u32,
) -> u8
    ensures { outcome (handed result first.new second.new) port.new memory.now ≡ quick_register_write offset value port.old memory.now }
{
    let answer = registers::accesses::write::<Unscanned>(port, memory, offset, value);
    crate::hand(answer, first, second)
}
