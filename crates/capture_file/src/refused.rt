// Why a file is refused.
ghost use Rattle.std.specs.Prelude.{◌≡◌};
ghost use Rattle.capture_file.specs.Answers.{number_of, told};
ghost use Rattle.capture_file.specs.Checks.{refused_at};

// What of a file is refused, each with its number in document 01.
#[derive(Clone, Copy, Debug, PartialEq, Eq, Drop)]
pub enum Fault {
    Length = 21,
    Header = 22,
    Index = 23,
    Record = 24,
}

// A refusal of a file: its fault, and the index of the record that has it, 0 for the whole file or the header.
#[derive(Clone, Copy, Debug, PartialEq, Eq, Drop)]
pub struct Refused {
    pub fault: Fault,
    pub index: u16,
}

impl Fault {
    // The refusal that names the record of this index.
    pub(crate) fn at(self, index: u16) -> Refused
        ensures { told result ≡ refused_at (number_of self) index }
    {
        Refused { fault: self, index }
    }
}

impl From<Fault> for u8 {
    ghost from_gives = { λ fault number. number ≡ number_of fault };

    // The fault's number.
    fn from(fault: Fault) -> u8 {
        fault as u8
    }
}
