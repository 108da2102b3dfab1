// The records of a capture file, read where they stand. Each field stays a function of its own: its body is a line, and its contract says which field it is.
ghost use Rattle.std.specs.Prelude.{◌≡◌};
ghost use Rattle.capture_file.specs.File.{record_count, HasRecord, record_start, kind_of, stream_octet_of, next_of, number_a, number_b, end_of};
ghost use Rattle.capture_file.specs.Checks.{next_good, all_zero, fields_good, record_good, record_refusal};
ghost use Rattle.capture_file.specs.Answers.{fault_of};

use crate::kind::{Kind, UnknownKind};
use crate::refused::Fault;

// The stream octet of best effort. It stays a number: the file has it so.
const BEST_EFFORT_STREAM: u8 = 255;

// The octets of a record.
pub const RECORD_OCTETS: usize = 16;

// A record of a file: the file's octets, and the record's index.
#[derive(Clone, Copy, Drop)]
pub struct Record<'a> {
    pub file: &'a [u8],
    pub index: u16,
    ghost in_file: { HasRecord file.now index },
}

// How many whole records the file has.
pub(crate) fn count(file: &[u8]) -> usize
    ensures { result ≡ record_count file.now }
{
    file.len() / RECORD_OCTETS
}

// Where the record of this index begins.
fn start(index: u16) -> usize
    ensures { result ≡ record_start index }
{
    index as usize * RECORD_OCTETS
}

impl<'a> Record<'a> {
    // The record of this index.
    pub fn new(file: &'a [u8], index: u16) -> Record<'a>
        requires { HasRecord file.now index }
        ensures of_file { result.file.now ≡ file.now }
        ensures at_index { result.index ≡ index }
    {
        Record { file, index }
    }

    // The record's kind.
    #[tactic(auto, unfolding(crate::specs::File::kind_of))]
    pub fn kind(self) -> u8
        ensures { result ≡ kind_of self.entry.file.now self.entry.index }
    {
        let at = start(self.index);
        self.file[at]
    }

    // The record's stream octet.
    #[tactic(auto, unfolding(crate::specs::File::stream_octet_of))]
    pub fn stream(self) -> u8
        ensures { result ≡ stream_octet_of self.entry.file.now self.entry.index }
    {
        let at = start(self.index) + 1;
        self.file[at]
    }

    // The record's next index.
    #[tactic(auto, unfolding(crate::specs::File::next_of))]
    pub fn next(self) -> u16
        ensures { result ≡ next_of self.entry.file.now self.entry.index }
    {
        octets::two_at(self.file, start(self.index) + 2)
    }

    // The record's number A.
    #[tactic(auto, unfolding(crate::specs::File::number_a))]
    pub fn number_a(self) -> u32
        ensures { result ≡ number_a self.entry.file.now self.entry.index }
    {
        octets::four_at(self.file, start(self.index) + 4)
    }

    // The record's number B.
    #[tactic(auto, unfolding(crate::specs::File::number_b))]
    pub fn number_b(self) -> u32
        ensures { result ≡ number_b self.entry.file.now self.entry.index }
    {
        octets::four_at(self.file, start(self.index) + 8)
    }

    // The four octets that end the record, as a number.
    #[tactic(auto, unfolding(crate::specs::File::end_of))]
    pub(crate) fn end(self) -> u32
        ensures { result ≡ end_of self.entry.file.now self.entry.index }
    {
        octets::four_at(self.file, start(self.index) + 12)
    }

    // Whether the record is an event.
    #[tactic(auto, unfolding(crate::specs::Checks::record_good))]
    fn good(self) -> bool
        ensures { result ≡ record_good self.entry.file.now self.entry.index }
    {
        fields_good(self.kind(), self.stream(), self.number_a(), self.number_b()) && self.end() == 0
    }

    // Whether the record's next index will do.
    #[tactic(auto, unfolding(crate::specs::Checks::next_good))]
    fn next_good(self) -> bool
        ensures { result ≡ next_good self.entry.file.now self.entry.index }
    {
        let next = self.next();
        next == 0 || (self.index < next && (next as usize) < count(self.file))
    }

    // Refuses a record that is no event, and then one with a wrong next index.
    #[tactic(auto, unfolding(crate::specs::Checks::record_refusal))]
    pub(crate) fn refusal(self) -> Result<(), Fault>
        ensures { fault_of result ≡ record_refusal self.entry.file.now self.entry.index }
    {
        if !self.good() {
            return Err(Fault::Record);
        }
        if !self.next_good() {
            return Err(Fault::Index);
        }
        Ok(())
    }
}

// Whether stream octet and both numbers are as the kind of this number wants them, and there is such a kind.
fn fields_good(kind: u8, stream: u8, a: u32, b: u32) -> bool
    ensures { result ≡ fields_good kind stream a b }
{
    match Kind::try_from(kind) {
        Ok(Kind::Open) => stream == 0,
        Ok(Kind::Reserve) => b == 0,
        Ok(Kind::Arrive) => true,
        Ok(Kind::BestEffort) => stream == BEST_EFFORT_STREAM,
        Ok(Kind::Tick | Kind::Transmit) => all_zero(stream, a, b),
        Ok(Kind::Withdraw) => all_zero(0, a, b),
        Err(UnknownKind(_)) => false,
    }
}

// Whether nothing is given.
fn all_zero(stream: u8, a: u32, b: u32) -> bool
    ensures { result ≡ all_zero stream a b }
{
    stream == 0 && a == 0 && b == 0
}
