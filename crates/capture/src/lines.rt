// The lines that the replay of a capture prints.
ghost use Rattle.std.specs.Prelude.{◌+◌, ◌≤◌, ◌<◌, length};
ghost use Rattle.text.specs.Pages.{Written};
ghost use Rattle.capture_file.specs.Answers.{told};
ghost use Rattle.capture.specs.Events.{event_line};
ghost use Rattle.capture.specs.Output.{refusal_text, line_bound};

use capture_file::Refused;
use stream::Reply;
use text::Page;

// No line has more octets than this.
pub const LINE_BOUND: usize = 35;

// Writes the line of a port's event.
#[tactic(auto, unfolding(crate::specs::Events::event_line), using(crate::proofs::LineLaws::length_event))]
pub(crate) fn put_reply(page: &mut Page<'_>, port: u8, event: u32, kind: u8, reply: Reply)
    requires room { page.old.end + line_bound ≤ length page.old.octets.now }
    requires numbers { (port < 10) × ((event < 10000) × (kind < 10)) }
    ensures written { Written page.old (event_line port event kind reply) page.new }
    ensures bound { page.new.end ≤ page.old.end + line_bound }
{
    let numbers = [
        port as u32,
        event,
        kind as u32,
        reply.refusal as u32,
        reply.first,
        reply.second,
    ];
    page.put_line(&numbers);
}

// Writes the line of a refused file.
#[tactic(auto, using(crate::proofs::LineLaws::refused_steps))]
pub(crate) fn put_refused(page: &mut Page<'_>, refused: Refused)
    requires { page.old.end + line_bound ≤ length page.old.octets.now }
    ensures written { Written page.old (refusal_text (told refused)) page.new }
    ensures bound { page.new.end ≤ page.old.end + line_bound }
{
    page.put_octets(b"refused ");
    let numbers = [u8::from(refused.fault) as u32, refused.index as u32];
    page.put_line(&numbers);
}
