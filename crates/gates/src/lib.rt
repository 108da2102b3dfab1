// What each call does where record and memory are long enough: its own refusals, in document 01's order, then its step. The definitions are in specs/.
// Record and memory stay two parameters, here and in the crates above and below: the host lends them apart, and most calls only read the memory.
// L and K stay two numbers, as do charge and tag: a call has them once, and hands each on to a place of its own.
#![tactic(auto, using(crate::proofs::GateNeeds::gates))]

mod refusals;

ghost use Rattle.std.specs.Prelude.{◌≡◌, ◌≤◌, length};
ghost use Rattle.stream.specs.Replies.{answered};
ghost use Rattle.record.specs.Layout.{Whole, address_length};
ghost use Rattle.record.specs.Queues.{HasMemory};
ghost use Rattle.steps.specs.Call.{terms};
ghost use Rattle.steps.specs.Outcome.{outcome, performed};
ghost use Rattle.opening.specs.Opening.{open_step, reserve_step};
ghost use Rattle.opening.specs.Withdrawing.{withdraw_step};
ghost use Rattle.arriving.specs.Arriving.{arrive_step};
ghost use Rattle.ticking.specs.Ticking.{tick_step};
ghost use Rattle.sending.specs.Sending.{transmit_step};
ghost use Rattle.best_effort.specs.BestEffort.{best_effort_step};
ghost use Rattle.binding.specs.Binding.{bind_step};
ghost use Rattle.gates.specs.Refusals.{open_refusal, reserve_refusal, withdraw_refusal, arrive_refusal, closed_refusal, best_effort_refusal};
ghost use Rattle.gates.specs.FrameRefusals.{bind_refusal, frame_refusal};
ghost use Rattle.gates.specs.Becoming.{frame_step};

use stream::{Numbers, Refusal};

// Open.
pub fn open_port(port: &mut [u8], memory: &[u8], link: u32, delay: u32) -> Result<Numbers, Refusal>
    requires { Whole port.old }
    ensures { outcome (answered result) port.new memory.now ≡ performed (λ p. open_refusal p (terms link delay)) (λ p m. open_step p m (terms link delay)) port.old memory.now }
{
    refusals::open_port(port, link, delay)?;
    Ok(opening::open_port(port, link as u16, delay as u8))
}

// Reserve.
pub fn reserve(
    port: &mut [u8],
    memory: &[u8],
    stream: u8,
    permitted: u32,
) -> Result<Numbers, Refusal>
    requires { Whole port.old }
    ensures { outcome (answered result) port.new memory.now ≡ performed (λ p. reserve_refusal p stream permitted) (λ p m. reserve_step p m stream permitted) port.old memory.now }
{
    refusals::reserve(port, stream, permitted)?;
    Ok(opening::reserve(port, stream, permitted as u16))
}

// Withdraw.
pub fn withdraw(port: &mut [u8], memory: &[u8], stream: u8) -> Result<Numbers, Refusal>
    requires { Whole port.old }
    ensures { outcome (answered result) port.new memory.now ≡ performed (λ p. withdraw_refusal p stream) (λ p m. withdraw_step p m stream) port.old memory.now }
{
    refusals::on_reserved(port, stream)?;
    Ok(opening::withdraw(port, stream))
}

// Arrive.
pub fn arrive(
    port: &mut [u8],
    memory: &mut [u8],
    stream: u8,
    charge: u32,
    tag: u32,
) -> Result<Numbers, Refusal>
    requires { Whole port.old × HasMemory port.old memory.old }
    ensures { outcome (answered result) port.new memory.new ≡ performed (λ p. arrive_refusal p stream charge) (λ p m. arrive_step p m stream charge tag) port.old memory.old }
{
    refusals::arrive(port, stream, charge)?;
    arriving::arrive(port, memory, stream, charge as u16, tag)
}

// Tick.
pub fn tick(port: &mut [u8], memory: &[u8]) -> Result<Numbers, Refusal>
    requires { Whole port.old × HasMemory port.old memory.now }
    ensures { outcome (answered result) port.new memory.now ≡ performed closed_refusal tick_step port.old memory.now }
{
    refusals::closed(port)?;
    Ok(ticking::tick(port, memory))
}

// Transmit.
pub fn transmit(port: &mut [u8], memory: &[u8]) -> Result<Numbers, Refusal>
    requires { Whole port.old × HasMemory port.old memory.now }
    ensures { outcome (answered result) port.new memory.now ≡ performed closed_refusal transmit_step port.old memory.now }
{
    refusals::closed(port)?;
    Ok(sending::transmit(port, memory))
}

// Best effort.
pub fn best_effort(
    port: &mut [u8],
    memory: &mut [u8],
    charge: u32,
    tag: u32,
) -> Result<Numbers, Refusal>
    requires { Whole port.old × HasMemory port.old memory.old }
    ensures { outcome (answered result) port.new memory.new ≡ performed (λ p. best_effort_refusal p charge) (λ p m. best_effort_step p m charge tag) port.old memory.old }
{
    refusals::best_effort(port, charge)?;
    Ok(best_effort::join(port, memory, charge as u16, tag))
}

// Bind; the address is the first six of the octets.
pub fn bind(
    port: &mut [u8],
    memory: &[u8],
    stream: u8,
    address: &[u8],
    vid: u32,
) -> Result<Numbers, Refusal>
    requires { Whole port.old × (address_length ≤ length address.now) }
    ensures { outcome (answered result) port.new memory.now ≡ performed (λ p. bind_refusal p stream address.now vid) (λ p m. bind_step p m stream address.now vid) port.old memory.now }
{
    refusals::bind(port, stream, address, vid)?;
    Ok(binding::bind(port, stream, address, vid as u16))
}

// Frame.
pub fn frame(
    port: &mut [u8],
    memory: &mut [u8],
    octets: &[u8],
    tag: u32,
) -> Result<Numbers, Refusal>
    requires { Whole port.old × HasMemory port.old memory.old }
    ensures { outcome (answered result) port.new memory.new ≡ performed (λ p. frame_refusal p octets.now) (λ p m. frame_step p m octets.now tag) port.old memory.old }
{
    refusals::frame(port, octets)?;
    let charge = header::charge(octets);
    match binding::finding::of_frame(port, octets) {
        Some(stream) => arrive(port, memory, stream, charge, tag),
        None => best_effort(port, memory, charge, tag),
    }
}
