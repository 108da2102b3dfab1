// The capture file of document 01, in octets of any length and content: its fields, and what of it is refused. The definitions are in specs/.
#![tactic(auto)]

mod header;
mod kind;
mod record;
mod refused;

ghost use Rattle.std.specs.Prelude.{◌≡◌, ◌<◌};
ghost use Rattle.capture_file.specs.File.{port_count, most_events};
ghost use Rattle.capture_file.specs.Checks.{length_good, chain_refusal, port_refusal, ports_refusal, file_refusal};
ghost use Rattle.capture_file.specs.Answers.{refusal_of};

pub use header::Header;
pub use kind::{Kind, UnknownKind};
pub use record::{RECORD_OCTETS, Record};
pub use refused::{Fault, Refused};

// The ports of a file.
pub const PORTS: u8 = 4;

// The most octets of a file.
pub const MOST_OCTETS: usize = 65536;

// Whether the file's length will do.
fn length_good(file: &[u8]) -> bool
    ensures { result ≡ length_good file.now }
{
    file.len() % RECORD_OCTETS == 0 && RECORD_OCTETS <= file.len() && file.len() <= MOST_OCTETS
}

// Refuses what is refused of the chain from its front on.
#[tactic(auto, using(crate::proofs::ChainLaws::walk_steps))]
fn chain_refusal(first: Record<'_>) -> Result<(), Refused>
    ensures { refusal_of result ≡ chain_refusal first.entry.file.now (most_events first.entry.file.now) first.entry.index }
{
    let mut record = first;
    // Stays a `while`: it follows the next indices to the chain's end, and counts nothing.
    while record.index != 0 {
        record.refusal().map_err(|fault| fault.at(record.index))?;
        record = Record::new(record.file, record.next());
    }
    Ok(())
}

// Refuses a port's first index, or what is refused of its chain.
#[tactic(auto, unfolding(crate::specs::Checks::port_refusal), using(crate::proofs::FileLaws::first_has))]
fn port_refusal(header: Header<'_>, port: u8) -> Result<(), Refused>
    requires { port < port_count }
    ensures { refusal_of result ≡ port_refusal header.entry.file.now port }
{
    if !header.first_good(port) {
        return Err(Fault::Index.at(0));
    }
    chain_refusal(Record::new(header.file, header.first(port)))
}

// Refuses what is refused of the first port that is refused, in the ports' order.
#[tactic(auto, using(crate::proofs::FileLaws::ports_steps))]
fn ports_refusal(header: Header<'_>) -> Result<(), Refused>
    ensures { refusal_of result ≡ ports_refusal header.entry.file.now 0 port_count }
{
    for port in 0..PORTS {
        port_refusal(header, port)?;
    }
    Ok(())
}

// Refuses what is refused of the file.
#[tactic(auto, unfolding(crate::specs::Checks::file_refusal), using(crate::proofs::FileLaws::length_passed))]
pub fn refusal(file: &[u8]) -> Result<(), Refused>
    ensures { refusal_of result ≡ file_refusal file.now }
{
    if !length_good(file) {
        return Err(Fault::Length.at(0));
    }
    let header = Header::new(file);
    if !header.good() {
        return Err(Fault::Header.at(0));
    }
    ports_refusal(header)
}
