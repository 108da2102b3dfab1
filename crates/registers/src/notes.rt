// What a call's answer does to the register block.
ghost use Rattle.std.specs.Prelude.{◌≡◌};
ghost use Rattle.stream.specs.Replies.{refusal_number};
ghost use Rattle.register_block.specs.Layout.{WholeBlock};
ghost use Rattle.registers.specs.Notes.{arrival_noted, tick_noted, transmit_noted};

use stream::{Numbers, Refusal};

// An Arrive on a stream, by what it answers.
pub(crate) fn arrive(block: &mut [u8], stream: u8, answer: Result<Numbers, Refusal>)
    requires { WholeBlock block.old }
    ensures { block.new ≡ arrival_noted stream (refusal_number answer) block.old }
{
    match answer {
        Ok(_) => register_block::accept(block, stream),
        Err(refusal) => match refusal {
            Refusal::Discard => register_block::discard(block, stream),
            _ => (),
        },
    }
}

// A granted Tick, by the frames purged.
pub(crate) fn tick(block: &mut [u8], frames: u32)
    requires { WholeBlock block.old }
    ensures { block.new ≡ tick_noted 0 frames block.old }
{
    if frames != 0 {
        register_block::purge(block);
    }
}

// A granted Transmit, by the stream of the frame sent.
pub(crate) fn transmit(block: &mut [u8], stream: u32)
    requires { WholeBlock block.old }
    ensures { block.new ≡ transmit_noted 0 stream block.old }
{
    if stream == sending::NOTHING {
        register_block::send_nothing(block);
    } else {
        register_block::send(block);
    }
}
