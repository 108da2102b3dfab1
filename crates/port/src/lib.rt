// The calls of a port, over the record and the memory that the host lends: Open, Reserve, Withdraw, Arrive, Tick, Transmit, Best effort, Bind
// and Frame. Each first looks at what is lent: a call `Scanned`, a quick call `Unscanned`. None asks anything of its caller. The definitions are in specs/.
#![tactic(auto)]

pub mod look;

ghost use Rattle.std.specs.Prelude.{◌≡◌};
ghost use Rattle.stream.specs.Replies.{answered};
ghost use Rattle.steps.specs.Call.{terms};
ghost use Rattle.steps.specs.Outcome.{outcome};
ghost use Rattle.opening.specs.Opening.{open_step, reserve_step};
ghost use Rattle.opening.specs.Withdrawing.{withdraw_step};
ghost use Rattle.arriving.specs.Arriving.{arrive_step};
ghost use Rattle.ticking.specs.Ticking.{tick_step};
ghost use Rattle.sending.specs.Sending.{transmit_step};
ghost use Rattle.best_effort.specs.BestEffort.{best_effort_step};
ghost use Rattle.binding.specs.Binding.{bind_step};
ghost use Rattle.gates.specs.Refusals.{open_refusal, reserve_refusal, withdraw_refusal, arrive_refusal, closed_refusal, best_effort_refusal};
ghost use Rattle.gates.specs.FrameRefusals.{bind_refusal, frame_refusal};
ghost use Rattle.gates.specs.Becoming.{frame_step};
ghost use Rattle.port.specs.Calls.{looked};

pub use look::{Look, Scanned, Unscanned};
use stream::{Numbers, Refusal};

// Open(L, K).
pub fn open_port<L: Look>(
    port: &mut [u8],
    memory: &[u8],
    link: u32,
    delay: u32,
) -> Result<Numbers, Refusal>
    ensures { outcome (answered result) port.new memory.now ≡ looked L.lent (λ p. open_refusal p (terms link delay)) (λ p m. open_step p m (terms link delay)) port.old memory.now }
{
    L::look(port, memory)?;
    gates::open_port(port, memory, link, delay)
}

// Reserve(s, P).
pub fn reserve<L: Look>(
    port: &mut [u8],
    memory: &[u8],
    stream: u8,
    permitted: u32,
) -> Result<Numbers, Refusal>
    ensures { outcome (answered result) port.new memory.now ≡ looked L.lent (λ p. reserve_refusal p stream permitted) (λ p m. reserve_step p m stream permitted) port.old memory.now }
{
    L::look(port, memory)?;
    gates::reserve(port, memory, stream, permitted)
}

// Withdraw(s).
pub fn withdraw<L: Look>(port: &mut [u8], memory: &[u8], stream: u8) -> Result<Numbers, Refusal>
    ensures { outcome (answered result) port.new memory.now ≡ looked L.lent (λ p. withdraw_refusal p stream) (λ p m. withdraw_step p m stream) port.old memory.now }
{
    L::look(port, memory)?;
    gates::withdraw(port, memory, stream)
}

// Arrive(s, a, tag).
pub fn arrive<L: Look>(
    port: &mut [u8],
    memory: &mut [u8],
    stream: u8,
    charge: u32,
    tag: u32,
) -> Result<Numbers, Refusal>
    ensures { outcome (answered result) port.new memory.new ≡ looked L.lent (λ p. arrive_refusal p stream charge) (λ p m. arrive_step p m stream charge tag) port.old memory.old }
{
    L::look(port, memory)?;
    gates::arrive(port, memory, stream, charge, tag)
}

// Tick.
pub fn tick<L: Look>(port: &mut [u8], memory: &[u8]) -> Result<Numbers, Refusal>
    ensures { outcome (answered result) port.new memory.now ≡ looked L.lent closed_refusal tick_step port.old memory.now }
{
    L::look(port, memory)?;
    gates::tick(port, memory)
}

// Transmit.
pub fn transmit<L: Look>(port: &mut [u8], memory: &[u8]) -> Result<Numbers, Refusal>
    ensures { outcome (answered result) port.new memory.now ≡ looked L.lent closed_refusal transmit_step port.old memory.now }
{
    L::look(port, memory)?;
    gates::transmit(port, memory)
}

// Best effort(a, tag).
pub fn best_effort<L: Look>(
    port: &mut [u8],
    memory: &mut [u8],
    charge: u32,
    tag: u32,
) -> Result<Numbers, Refusal>
    ensures { outcome (answered result) port.new memory.new ≡ looked L.lent (λ p. best_effort_refusal p charge) (λ p m. best_effort_step p m charge tag) port.old memory.old }
{
    L::look(port, memory)?;
    gates::best_effort(port, memory, charge, tag)
}

// Bind(s, address, VID).
pub fn bind<L: Look>(
    port: &mut [u8],
    memory: &[u8],
    stream: u8,
    address: &[u8; record::ADDRESS_LENGTH],
    vid: u32,
) -> Result<Numbers, Refusal>
    ensures { outcome (answered result) port.new memory.now ≡ looked L.lent (λ p. bind_refusal p stream address.now vid) (λ p m. bind_step p m stream address.now vid) port.old memory.now }
{
    L::look(port, memory)?;
    gates::bind(port, memory, stream, address, vid)
}

// Frame(octets, tag).
pub fn frame<L: Look>(
    port: &mut [u8],
    memory: &mut [u8],
    octets: &[u8],
    tag: u32,
) -> Result<Numbers, Refusal>
    ensures { outcome (answered result) port.new memory.new ≡ looked L.lent (λ p. frame_refusal p octets.now) (λ p m. frame_step p m octets.now tag) port.old memory.old }
{
    L::look(port, memory)?;
    gates::frame(port, memory, octets, tag)
}
