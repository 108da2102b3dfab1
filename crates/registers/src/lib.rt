// The calls of a port with its registers, over the slice that the host lends, the record and then the register block, and the memory: Open, Reserve,
// Withdraw, Arrive, Tick, Transmit, Best effort, Bind and Frame. Each makes the call on the record, and then does to the block what its reply says;
// `Scanned` makes it the call, `Unscanned` the quick call. None asks anything of its caller. The definitions are in specs/.
#![tactic(auto)]

pub mod accesses;
pub mod counts;
pub mod lookup;
mod notes;

ghost use Rattle.std.specs.Prelude.{◌≡◌};
ghost use Rattle.stream.specs.Replies.{answered, refusal_number};
ghost use Rattle.steps.specs.Call.{terms, opening, reserving, withdrawing, arriving, ticking, transmitting, joining_best_effort, binding, framing};
ghost use Rattle.steps.specs.Outcome.{outcome};
ghost use Rattle.registers.specs.Lent.{short_refusal};
ghost use Rattle.port.specs.Calls.{called_by};
ghost use Rattle.registers.specs.Calls.{registered};

use port::Look;
use stream::{Numbers, Refusal};

// The octets that are lent for a port: its record, and the register block.
pub const PORT_LENGTH: usize = record::RECORD_LENGTH + register_block::LENGTH;

// The refusal of a slice that is too short for record and block, where it is.
fn lengths(port: &[u8], memory: &[u8]) -> Result<(), Refusal>
    ensures { refusal_number result ≡ short_refusal port.now memory.now }
{
    if PORT_LENGTH <= port.len() {
        return Ok(());
    }
    if memory.len() < record::head::memory_length(port) {
        return Err(Refusal::ShortMemory);
    }
    Err(Refusal::UnfitRecord)
}

// Open(L, K): a granted one zeroes the block.
pub fn open_port<L: Look>(
    port: &mut [u8],
    memory: &[u8],
    link: u32,
    delay: u32,
) -> Result<Numbers, Refusal>
    ensures { outcome (answered result) port.new memory.now ≡ registered (called_by L.lent) (opening (terms link delay)) port.old memory.now }
{
    lengths(port, memory)?;
    let (record, block) = port.split_at_mut(record::RECORD_LENGTH);
    let numbers = port::open_port::<L>(record, memory, link, delay)?;
    register_block::clear(block);
    Ok(numbers)
}

// Reserve(s, P).
pub fn reserve<L: Look>(
    port: &mut [u8],
    memory: &[u8],
    stream: u8,
    permitted: u32,
) -> Result<Numbers, Refusal>
    ensures { outcome (answered result) port.new memory.now ≡ registered (called_by L.lent) (reserving stream permitted) port.old memory.now }
{
    lengths(port, memory)?;
    let (record, _) = port.split_at_mut(record::RECORD_LENGTH);
    port::reserve::<L>(record, memory, stream, permitted)
}

// Withdraw(s): after a granted one the counts of the stream are 0.
pub fn withdraw<L: Look>(port: &mut [u8], memory: &[u8], stream: u8) -> Result<Numbers, Refusal>
    ensures { outcome (answered result) port.new memory.now ≡ registered (called_by L.lent) (withdrawing stream) port.old memory.now }
{
    lengths(port, memory)?;
    let (record, block) = port.split_at_mut(record::RECORD_LENGTH);
    let numbers = port::withdraw::<L>(record, memory, stream)?;
    register_block::withdraw(block, stream);
    Ok(numbers)
}

// Arrive(s, a, tag): counted by what it answers.
pub fn arrive<L: Look>(
    port: &mut [u8],
    memory: &mut [u8],
    stream: u8,
    charge: u32,
    tag: u32,
) -> Result<Numbers, Refusal>
    ensures { outcome (answered result) port.new memory.new ≡ registered (called_by L.lent) (arriving stream charge tag) port.old memory.old }
{
    lengths(port, memory)?;
    let (record, block) = port.split_at_mut(record::RECORD_LENGTH);
    let answer = port::arrive::<L>(record, memory, stream, charge, tag);
    notes::arrive(block, stream, answer);
    answer
}

// Tick: its purge of frames raises a flag.
pub fn tick<L: Look>(port: &mut [u8], memory: &[u8]) -> Result<Numbers, Refusal>
    ensures { outcome (answered result) port.new memory.now ≡ registered (called_by L.lent) ticking port.old memory.now }
{
    lengths(port, memory)?;
    let (record, block) = port.split_at_mut(record::RECORD_LENGTH);
    let purged = port::tick::<L>(record, memory)?;
    notes::tick(block, purged.first);
    Ok(purged)
}

// Transmit: a frame sent is counted, and one that is not there raises a flag.
pub fn transmit<L: Look>(port: &mut [u8], memory: &[u8]) -> Result<Numbers, Refusal>
    ensures { outcome (answered result) port.new memory.now ≡ registered (called_by L.lent) transmitting port.old memory.now }
{
    lengths(port, memory)?;
    let (record, block) = port.split_at_mut(record::RECORD_LENGTH);
    let sent = port::transmit::<L>(record, memory)?;
    notes::transmit(block, sent.first);
    Ok(sent)
}

// Best effort(a, tag).
pub fn best_effort<L: Look>(
    port: &mut [u8],
    memory: &mut [u8],
    charge: u32,
    tag: u32,
) -> Result<Numbers, Refusal>
    ensures { outcome (answered result) port.new memory.new ≡ registered (called_by L.lent) (joining_best_effort charge tag) port.old memory.old }
{
    lengths(port, memory)?;
    let (record, _) = port.split_at_mut(record::RECORD_LENGTH);
    port::best_effort::<L>(record, memory, charge, tag)
}

// Bind(s, address, VID).
pub fn bind<L: Look>(
    port: &mut [u8],
    memory: &[u8],
    stream: u8,
    address: &[u8; record::ADDRESS_LENGTH],
    vid: u32,
) -> Result<Numbers, Refusal>
    ensures { outcome (answered result) port.new memory.now ≡ registered (called_by L.lent) (binding stream address.now vid) port.old memory.now }
{
    lengths(port, memory)?;
    let (record, _) = port.split_at_mut(record::RECORD_LENGTH);
    port::bind::<L>(record, memory, stream, address, vid)
}

// Frame(octets, tag): the call that it becomes; a frame that becomes none, since its length is outside its range, is refused on the record.
pub fn frame<L: Look>(
    port: &mut [u8],
    memory: &mut [u8],
    octets: &[u8],
    tag: u32,
) -> Result<Numbers, Refusal>
    ensures { outcome (answered result) port.new memory.new ≡ registered (called_by L.lent) (framing octets.now tag) port.old memory.old }
{
    lengths(port, memory)?;
    let (record, block) = port.split_at_mut(record::RECORD_LENGTH);
    if !header::length_fits(octets) {
        return port::frame::<L>(record, memory, octets, tag);
    }
    let charge = header::charge(octets);
    match binding::finding::of_frame(record, octets) {
        Some(stream) => {
            let answer = port::arrive::<L>(record, memory, stream, charge, tag);
            notes::arrive(block, stream, answer);
            answer
        }
        None => port::best_effort::<L>(record, memory, charge, tag),
    }
}
