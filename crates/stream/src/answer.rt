// What a call answers: two numbers, or why it is refused; and the reply, which has the refusal as its number.
ghost use Rattle.std.specs.Prelude.{◌≡◌};
ghost use Rattle.stream.specs.Replies.{granted, given, number_of, answered};

use crate::Reply;

// Why a call is refused, each with its number in documents 01 and 02.
#[derive(Clone, Copy, Debug, PartialEq, Eq, Drop)]
pub enum Refusal {
    Closed = 1,
    OpenAlready = 2,
    LinkRange = 3,
    DelayRange = 4,
    StreamRange = 5,
    ReservedAlready = 6,
    PermittedRange = 7,
    ShareExceeded = 8,
    VidRange = 9,
    BoundAlready = 10,
    PairBoundAlready = 11,
    NotReserved = 12,
    ChargeRange = 13,
    Discard = 14,
    BestEffortFull = 15,
    LimitExceeded = 16,
    FrameLength = 17,
    ShortMemory = 18,
    UnfitRecord = 19,
    QueueFull = 20,
    Draining = 25,
    OffsetRange = 26,
}

// The two numbers of a call that is not refused.
#[derive(Clone, Copy, Debug, PartialEq, Eq, Drop)]
pub struct Numbers {
    pub first: u32,
    pub second: u32,
}

impl Numbers {
    // The two numbers.
    pub fn new(first: u32, second: u32) -> Numbers
        ensures { given result ≡ granted first second }
    {
        Numbers { first, second }
    }
}

impl From<Refusal> for u8 {
    ghost from_gives = { λ refusal number. number ≡ number_of refusal };

    // The refusal's number.
    fn from(refusal: Refusal) -> u8 {
        refusal as u8
    }
}

impl From<Result<Numbers, Refusal>> for Reply {
    ghost from_gives = { λ answer reply. reply ≡ answered answer };

    // The reply of an answer: the refusal's number and two zeros, or 0 and the two numbers.
    fn from(answer: Result<Numbers, Refusal>) -> Reply {
        match answer {
            Ok(numbers) => Reply {
                refusal: 0,
                first: numbers.first,
                second: numbers.second,
            },
            Err(refusal) => Reply {
                refusal: u8::from(refusal),
                first: 0,
                second: 0,
            },
        }
    }
}
