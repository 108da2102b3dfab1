// The replay of a capture as text: the file's octets in, what document 01 prints of it out. The definitions are in specs/.
#![tactic(auto)]

mod events;
mod lines;

ghost use Rattle.std.specs.Prelude.{◌≡◌, ◌+◌, ◌*◌, ◌≤◌, ◌<◌, length};
ghost use Rattle.stream.specs.Replies.{answered};
ghost use Rattle.capture_file.specs.File.{port_count, most_events};
ghost use Rattle.capture_file.specs.Checks.{file_refusal};
ghost use Rattle.text.specs.Pages.{Written};
ghost use Rattle.capture.specs.Events.{port_text};
ghost use Rattle.capture.specs.Output.{ports_text, output, line_bound, text_length, replayed, replay_of};

use capture_file::{Header, Record};
use events::Played;
use stream::{Numbers, Refusal};
use text::Page;

// No text of a port has more octets than this.
const PORT_TEXT_BOUND: usize = (capture_file::MOST_OCTETS / capture_file::RECORD_OCTETS - 1)
    * lines::LINE_BOUND;

// The octets that the memory for the text must have.
pub const TEXT_LENGTH: usize = capture_file::PORTS as usize * PORT_TEXT_BOUND;

// Plays the events of a port on a record and a memory of its own, and writes their lines.
#[tactic(auto, using(crate::proofs::PlayLaws::port_steps))]
fn put_port(header: Header<'_>, port: u8, page: &mut Page<'_>)
    requires good_file { (file_refusal header.file.now).number ≡ 0 }
    requires room { (port < port_count) × (page.old.end + most_events header.file.now * line_bound ≤ length page.old.octets.now) }
    ensures written { Written page.old (port_text header.entry.file.now port) page.new }
    ensures bound { page.new.end ≤ page.old.end + most_events header.entry.file.now * line_bound }
{
    let first = Record::new(header.file, header.first(port));
    Played::fresh(port).put_chain(first, page);
}

// Plays every port, and writes all lines.
#[tactic(auto, unfolding(crate::specs::Output::ports_text), using(crate::proofs::PlayLaws::ports_steps))]
fn put_ports(header: Header<'_>, page: &mut Page<'_>)
    requires good_file { (file_refusal header.file.now).number ≡ 0 }
    requires room { page.old.end + text_length ≤ length page.old.octets.now }
    ensures written { Written page.old (ports_text header.entry.file.now port_count) page.new }
    ensures bound { page.new.end ≤ page.old.end + text_length }
{
    for port in 0..capture_file::PORTS {
        put_port(header, port, page);
    }
}

// Writes the output of the file.
#[tactic(auto, unfolding(crate::specs::Output::output), using(crate::proofs::PlayLaws::file_length))]
fn put_output(file: &[u8], page: &mut Page<'_>)
    requires { page.old.end + text_length ≤ length page.old.octets.now }
    ensures written { Written page.old (output file.now) page.new }
    ensures bound { page.new.end ≤ page.old.end + text_length }
{
    match capture_file::refusal(file) {
        Ok(()) => put_ports(Header::new(file), page),
        Err(refused) => lines::put_refused(page, refused),
    }
}

// Replays the file. The first number is the length of the output, which is at the front of `text` then.
#[tactic(auto, unfolding(crate::specs::Output::replay_of))]
pub fn replay(file: &[u8], text: &mut [u8]) -> Result<Numbers, Refusal>
    ensures replays { replayed (answered result) text.new ≡ replay_of file.now text.old }
    ensures within { (answered result).first ≤ length text.new }
{
    if text.len() < TEXT_LENGTH {
        return Err(Refusal::ShortMemory);
    }
    let mut page = Page {
        octets: text,
        end: 0,
    };
    put_output(file, &mut page);
    Ok(Numbers::new(page.end as u32, 0))
}
