// The kinds of events.
ghost use Rattle.std.specs.Prelude.{◌≡◌};
ghost use Rattle.capture_file.specs.Kinds.{Names, kind_number};

// What a record of a chain asks of its port, each kind with its number.
#[derive(Clone, Copy, Debug, PartialEq, Eq, Drop)]
pub enum Kind {
    Open = 1,
    Reserve = 2,
    Arrive = 3,
    BestEffort = 4,
    Tick = 5,
    Transmit = 6,
    Withdraw = 7,
}

// A number that no kind has.
#[derive(Clone, Copy, Debug, PartialEq, Eq, Drop)]
pub struct UnknownKind(pub u8);

impl TryFrom<u8> for Kind {
    type Error = UnknownKind;

    ghost try_from_gives = { Names };

    // The kind of this number.
    fn try_from(number: u8) -> Result<Kind, UnknownKind> {
        match number {
            1 => Ok(Kind::Open),
            2 => Ok(Kind::Reserve),
            3 => Ok(Kind::Arrive),
            4 => Ok(Kind::BestEffort),
            5 => Ok(Kind::Tick),
            6 => Ok(Kind::Transmit),
            7 => Ok(Kind::Withdraw),
            _ => Err(UnknownKind(number)),
        }
    }
}

impl From<Kind> for u8 {
    ghost from_gives = { λ kind number. number ≡ kind_number kind };

    // The kind's number.
    fn from(kind: Kind) -> u8 {
        kind as u8
    }
}
