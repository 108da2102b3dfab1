// The register block in the octets that the host lends behind a port's record: flags, mask, choice and counters read and written in place. The layout and
// the definitions are in specs/. Nothing here knows of calls: what a reply does to the block is said above.
#![tactic(auto)]

mod count;
mod flag;
mod register;

ghost use Rattle.std.specs.Prelude.{◌≡◌, ◌+◌, ◌<◌, ◌≤◌, length, if◌then◌else◌};
ghost use Rattle.register_block.specs.Layout.{WholeBlock};
ghost use Rattle.register_block.specs.Fields.{word_at, with_word, bit_of};
ghost use Rattle.register_block.specs.Events.{raised, accepted, discarded, withdrawn, purged, sent, sent_nothing, zeroed};
ghost use Rattle.register_block.specs.Shown.{flags_of, line_up, status_of, register_at};
ghost use Rattle.register_block.specs.Written.{flags_cleared, written_at};

pub use count::Count;
use flag::Flag;
pub use register::{NoRegister, Register};

// The block stays a slice with a clause that it is whole: a struct for it would be two, one that reads and one that writes, and no plainer.

// The octets of the block, which ends with the counts of the last stream.
pub const LENGTH: usize = count::START + record::STREAMS as usize * count::BOTH_LENGTH;

// The last register's offset, and the octets of each register.
pub const LAST_OFFSET: u32 = 60;

pub const REGISTER_LENGTH: u32 = 4;

// Where a control write is made.
pub const CONTROL_OFFSET: u32 = Register::Control as u32;

// The weights of the first three bits of a number. They stay numbers: they are the bits of control and of status as well as those of the flags.
pub const BIT_0: u32 = 1;

pub const BIT_1: u32 = 2;

const BIT_2: u32 = 4;

// Where the mask, the count of frames sent and the choice begin.
const MASK: usize = 4;

const SENT: usize = 8;

const CHOICE: usize = 12;

// The word from an octet on. That the block reaches so far stays a clause, as it is one of the block's slice.
#[tactic(auto, unfolding(crate::specs::Fields::word_at))]
fn word_at(block: &[u8], octet: usize) -> u32
    requires { octet + 4 ≤ length block.now }
    ensures { result ≡ word_at block.now octet }
{
    octets::four_at(block, octet)
}

// Writes the word from an octet on.
#[tactic(auto, unfolding(crate::specs::Fields::with_word))]
fn put_word(block: &mut [u8], octet: usize, word: u32)
    requires { octet + 4 ≤ length block.old }
    ensures { block.new ≡ with_word block.old octet word }
{
    octets::put_four(block, octet, word);
}

// Raises the counter at an octet by one; it wraps from 4,294,967,295 to 0.
#[tactic(auto, unfolding(crate::specs::Events::raised))]
fn raise(block: &mut [u8], octet: usize)
    requires { octet + 4 ≤ length block.old }
    ensures { block.new ≡ raised block.old octet }
{
    put_word(block, octet, word_at(block, octet).wrapping_add(1));
}

// Whether a number has a one at the bit of a weight.
pub fn bit_of(number: u32, weight: u32) -> bool
    requires { 0 < weight }
    ensures { result ≡ bit_of number weight }
{
    number / weight % 2 == 1
}

// The weight of a bit that is one, or 0.
fn weighted(one: bool, weight: u32) -> u32
    ensures weighs { result ≡ (if one then weight else 0) }
    ensures small { result ≤ weight }
{
    if one { weight } else { 0 }
}

// A frame of a stream was accepted.
#[tactic(auto, unfolding(crate::specs::Events::accepted))]
pub fn accept(block: &mut [u8], stream: u8)
    requires { WholeBlock block.old }
    ensures { block.new ≡ accepted stream block.old }
{
    Count::Accepted.raise(block, stream);
}

// A frame of a stream was discarded. The count is raised first: the compiler then keeps it apart from that of an accepted frame, and each is one read
// and one write of four octets.
#[tactic(auto, unfolding(crate::specs::Events::discarded))]
pub fn discard(block: &mut [u8], stream: u8)
    requires { WholeBlock block.old }
    ensures { block.new ≡ discarded stream block.old }
{
    Count::Discarded.raise(block, stream);
    Flag::Discard.put(block, true);
}

// A stream was withdrawn.
#[tactic(auto, unfolding(crate::specs::Events::withdrawn))]
pub fn withdraw(block: &mut [u8], stream: u8)
    requires { WholeBlock block.old }
    ensures { block.new ≡ withdrawn stream block.old }
{
    if stream < record::STREAMS {
        Count::Accepted.clear(block, stream);
        Count::Discarded.clear(block, stream);
    }
}

// A tick has purged at least one frame. It stays beside `send_nothing`: each is what a reply does to the block, by the name of its definition.
pub fn purge(block: &mut [u8])
    requires { WholeBlock block.old }
    ensures { block.new ≡ purged block.old }
{
    Flag::Purge.put(block, true);
}

// A frame of either sort was sent.
pub fn send(block: &mut [u8])
    requires { WholeBlock block.old }
    ensures { block.new ≡ sent block.old }
{
    raise(block, SENT);
}

// A transmit had nothing to send.
pub fn send_nothing(block: &mut [u8])
    requires { WholeBlock block.old }
    ensures { block.new ≡ sent_nothing block.old }
{
    Flag::Nothing.put(block, true);
}

// Writes zeros to the whole block.
#[tactic(auto, using(crate::proofs::ZeroLaws::zeroed_is))]
pub fn clear(block: &mut [u8])
    requires { WholeBlock block.old }
    ensures { block.new ≡ zeroed block.old }
{
    block[..LENGTH].fill(0);
}

// The flags as a number.
#[tactic(auto, unfolding(crate::specs::Shown::flags_of))]
fn flags(block: &[u8]) -> u32
    requires { WholeBlock block.now }
    ensures { result ≡ flags_of block.now }
{
    Flag::Discard.shown(block) + Flag::Purge.shown(block) + Flag::Nothing.shown(block)
}

// Whether the interrupt line is up.
#[tactic(auto, unfolding(crate::specs::Shown::line_up))]
fn line_up(block: &[u8]) -> bool
    requires { WholeBlock block.now }
    ensures { result ≡ line_up block.now }
{
    Flag::Discard.shares_one(block)
        || Flag::Purge.shares_one(block)
        || Flag::Nothing.shares_one(block)
}

// The status of a port that is open or not.
#[tactic(auto, unfolding(crate::specs::Shown::status_of))]
fn status(opened: bool, block: &[u8]) -> u32
    requires { WholeBlock block.now }
    ensures { result ≡ status_of opened block.now }
{
    weighted(opened, BIT_0) + weighted(line_up(block), BIT_1)
}

// The register at an offset, of a port that is open or not.
#[tactic(auto, unfolding(crate::specs::Shown::register_at))]
pub fn register_at(opened: bool, block: &[u8], offset: u32) -> u32
    requires { WholeBlock block.now }
    ensures { result ≡ register_at opened block.now offset }
{
    match Register::try_from(offset) {
        Ok(Register::Status) => status(opened, block),
        Ok(Register::Flags) => flags(block),
        Ok(Register::Mask) => word_at(block, MASK),
        Ok(Register::Accepted) => Count::Accepted.chosen(block),
        Ok(Register::Discarded) => Count::Discarded.chosen(block),
        Ok(Register::Sent) => word_at(block, SENT),
        Ok(Register::Choice) => word_at(block, CHOICE),
        Ok(Register::Control) | Err(NoRegister) => 0,
    }
}

// Takes down each flag whose bit is one in a number.
fn clear_flags(block: &mut [u8], number: u32)
    requires { WholeBlock block.old }
    ensures { block.new ≡ flags_cleared number block.old }
{
    Flag::Discard.clear_by(block, number);
    Flag::Purge.clear_by(block, number);
    Flag::Nothing.clear_by(block, number);
}

// Writes a number to the register at an offset, but for a control write's calls.
#[tactic(auto, unfolding(crate::specs::Written::written_at))]
pub fn write_at(block: &mut [u8], offset: u32, number: u32)
    requires { WholeBlock block.old }
    ensures { block.new ≡ written_at offset number block.old }
{
    match Register::try_from(offset) {
        Ok(Register::Flags) => clear_flags(block, number),
        Ok(Register::Mask) => put_word(block, MASK, number),
        Ok(Register::Choice) => put_word(block, CHOICE, number),
        _ => {}
    }
}
