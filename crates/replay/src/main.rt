// Replays a capture: reads it from standard input, and writes what document 01 says of it to standard output. A read or a write that fails is
// told on standard error.
#![tactic(auto)]

ghost use Rattle.std.specs.Prelude.{◌≡◌, ◌+◌, ◌≤◌, length, take};
ghost use Rattle.capture_file.specs.Checks.{most_octets};
ghost use Rattle.capture.specs.Output.{text_length, output};
ghost use Rattle.replay.specs.Input.{FitsRoom};

use anyhow::anyhow;
use std::io;
use std::io::{Read, Write};

// Room for the longest capture and one octet more, by which a longer file shows.
const FILE_LENGTH: usize = capture_file::MOST_OCTETS + 1;

// Room for a file. It stays an array beside the length that was read: nothing is allocated.
fn file_room() -> [u8; FILE_LENGTH]
    ensures { most_octets + 1 ≡ length result }
{
    [0; FILE_LENGTH]
}

// Room for the text of any file.
fn text_room() -> [u8; capture::TEXT_LENGTH]
    ensures { text_length ≡ length result }
{
    [0; capture::TEXT_LENGTH]
}

// Reads standard input until it ends, a read fails, or there is no room left.
fn read_input(rt: &HostRuntime, file: &mut [u8]) -> io::Result<usize>
    ensures { FitsRoom result file.new }
{
    let mut input = rt.stdin();
    let mut done: usize = 0;
    // Stays a `while`: each read says how many octets it gave, and `read_to_end` would need a heap.
    while done < file.len() {
        let more = input.read(&mut file[done..])?;
        if more == 0 {
            return Ok(done);
        }
        done += more;
    }
    Ok(done)
}

// Puts the output of the file at the front of the room, and returns its length. The room is long enough, so nothing is refused.
#[tactic(auto, unfolding(capture::specs::Output::replay_of), using(lists::proofs::WindowLaws::take_put))]
fn put_output(file: &[u8], text: &mut [u8]) -> usize
    requires { text_length ≤ length text.old }
    ensures { (result ≤ length text.new) × (take result text.new ≡ output file.now) }
{
    let numbers = capture::replay(file, text).unwrap();
    numbers.first as usize
}

// Writes the output of the file.
fn write_output(rt: &HostRuntime, file: &[u8]) -> anyhow::Result<()> {
    let mut text = text_room();
    let end = put_output(file, &mut text);
    io::writer(rt)
        .write_all(&text[..end])
        .map_err(|error| anyhow!("replay: standard output: {error}"))
}

fn main(rt: HostRuntime) -> anyhow::Result<()> {
    let mut file = file_room();
    let length = read_input(&rt, &mut file).map_err(|error| anyhow!(
        "replay: standard input: {error}"
    ))?;
    write_output(&rt, &file[..length])
}
