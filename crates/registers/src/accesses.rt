// The register accesses: a read and a write by offset; `Scanned` makes them with the checks of a call, `Unscanned` with those of a quick call. None asks
// anything of its caller.
ghost use Rattle.std.specs.Prelude.{◌≡◌, []};
ghost use Rattle.stream.specs.Replies.{given, answered, refusal_number};
ghost use Rattle.record.specs.Head.{open_at};
ghost use Rattle.steps.specs.Outcome.{outcome};
ghost use Rattle.port.specs.Calls.{called_by};
ghost use Rattle.register_block.specs.Layout.{control_offset};
ghost use Rattle.register_block.specs.Shown.{register_at};
ghost use Rattle.registers.specs.Lent.{WholePort, block_part, port_refusal};
ghost use Rattle.registers.specs.Accesses.{offset_refusal, named, written_by, read_by, write_by};

use port::Look;
use stream::{Numbers, Refusal};

// The refusal of an offset that is no register's, where it is none.
fn register_offset(offset: u32) -> Result<(), Refusal>
    ensures { refusal_number result ≡ offset_refusal offset }
{
    if offset % register_block::REGISTER_LENGTH != 0 {
        return Err(Refusal::OffsetRange);
    }
    if register_block::LAST_OFFSET < offset {
        return Err(Refusal::OffsetRange);
    }
    Ok(())
}

// The refusal, 18 or 19, of what is lent, where it is refused.
fn lent<L: Look>(port: &[u8], memory: &[u8]) -> Result<(), Refusal>
    ensures { refusal_number result ≡ port_refusal L.lent port.now memory.now }
{
    crate::lengths(port, memory)?;
    L::look(&port[..record::RECORD_LENGTH], memory)
}

// The register at an offset.
fn register_at(port: &[u8], offset: u32) -> u32
    requires { WholePort port.now }
    ensures { result ≡ register_at (open_at port.now) (block_part port.now) offset }
{
    let opened = record::head::is_open(port);
    register_block::register_at(opened, &port[record::RECORD_LENGTH..], offset)
}

// A read of the register at an offset.
pub fn read<L: Look>(port: &[u8], memory: &[u8], offset: u32) -> Result<Numbers, Refusal>
    ensures { outcome (answered result) port.now memory.now ≡ read_by L.lent offset port.now memory.now }
{
    register_offset(offset)?;
    lent::<L>(port, memory)?;
    Ok(Numbers::new(register_at(port, offset), 0))
}

// A write that makes no call.
fn put<L: Look>(
    port: &mut [u8],
    memory: &[u8],
    offset: u32,
    number: u32,
) -> Result<Numbers, Refusal>
    ensures { outcome (answered result) port.new memory.now ≡ written_by (called_by L.lent) L.lent offset number port.old memory.now [] }
{
    lent::<L>(port, memory)?;
    let (_, block) = port.split_at_mut(record::RECORD_LENGTH);
    register_block::write_at(block, offset, number);
    Ok(Numbers::new(0, 0))
}

// A control write: bit 0 ticks, then bit 1 transmits.
fn control<L: Look>(port: &mut [u8], memory: &[u8], number: u32) -> Result<Numbers, Refusal>
    ensures { outcome (answered result) port.new memory.now ≡ written_by (called_by L.lent) L.lent control_offset number port.old memory.now (named number) }
{
    let transmits = register_block::bit_of(number, register_block::BIT_1);
    if register_block::bit_of(number, register_block::BIT_0) {
        let ticked = crate::tick::<L>(port, memory);
        if transmits {
            return crate::transmit::<L>(port, memory);
        }
        return ticked;
    }
    if transmits {
        return crate::transmit::<L>(port, memory);
    }
    put::<L>(port, memory, register_block::CONTROL_OFFSET, number)
}

// A write to the register at an offset.
pub fn write<L: Look>(
    port: &mut [u8],
    memory: &[u8],
    offset: u32,
    number: u32,
) -> Result<Numbers, Refusal>
    ensures { outcome (answered result) port.new memory.now ≡ write_by (called_by L.lent) L.lent offset number port.old memory.now }
{
    register_offset(offset)?;
    if offset == register_block::CONTROL_OFFSET {
        return control::<L>(port, memory, number);
    }
    put::<L>(port, memory, offset, number)
}
