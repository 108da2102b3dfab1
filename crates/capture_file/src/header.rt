// The header of a capture file, its record 0. A port stays a number below 4: it is counted, is an index and is printed, so a struct for it would be opened
// at each use.
ghost use Rattle.std.specs.Prelude.{◌≡◌, ◌<◌, ◌≤◌, length};
ghost use Rattle.lists.specs.Equal.{octets_equal};
ghost use Rattle.capture_file.specs.File.{record_octets, port_count, letters, letters_of, first_of};
ghost use Rattle.capture_file.specs.Checks.{header_good, first_good};

use crate::record::{self, Record};

// The header of a file: the file's octets, which are enough for one.
#[derive(Clone, Copy, Drop)]
pub struct Header<'a> {
    pub file: &'a [u8],
    ghost in_file: { record_octets ≤ length file.now },
}

impl<'a> Header<'a> {
    // The header of the file.
    pub fn new(file: &'a [u8]) -> Header<'a>
        requires { record_octets ≤ length file.now }
        ensures { result.file.now ≡ file.now }
    {
        Header { file }
    }

    // The port's first index.
    #[tactic(auto, unfolding(crate::specs::File::first_of))]
    pub fn first(self, port: u8) -> u16
        requires { port < port_count }
        ensures { result ≡ first_of self.entry.file.now port }
    {
        octets::two_at(self.file, 4 + port as usize * 2)
    }

    // Whether the file begins with the capture's letters.
    #[tactic(auto, unfolding(crate::specs::File::letters_of))]
    fn has_letters(self) -> bool
        ensures { result ≡ octets_equal (letters_of self.entry.file.now) letters }
    {
        check::same(&self.file[0..4], b"EPCH")
    }

    // Whether the header has its letters and its zero octets.
    #[tactic(auto, unfolding(crate::specs::Checks::header_good))]
    pub(crate) fn good(self) -> bool
        ensures { result ≡ header_good self.entry.file.now }
    {
        self.has_letters() && Record::new(self.file, 0).end() == 0
    }

    // Whether the port's first index will do.
    #[tactic(auto, unfolding(crate::specs::Checks::first_good))]
    pub(crate) fn first_good(self, port: u8) -> bool
        requires { port < port_count }
        ensures { result ≡ first_good self.entry.file.now port }
    {
        let first = self.first(port);
        first == 0 || (first as usize) < record::count(self.file)
    }
}
