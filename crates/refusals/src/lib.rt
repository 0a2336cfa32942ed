// The refusals of the documents, each once, and what C is answered by a call that was lent a buffer. Rests on nothing.
// No entry point stands here.
#![tactic(auto)]

ghost use Rattle.std.specs.Prelude.{◌≡◌};
ghost use Rattle.refusals.specs.Refusals.{number_of};
ghost use Rattle.refusals.specs.Outcomes.{answer_of};

use std::error::Error;
use std::fmt;

// Why a call is refused: a row of the documents' table each, with its number. An accepted call's number is 0.
#[derive(Clone, Copy, Debug, PartialEq, Eq)]
pub enum Refusal {
    // A setting outside 1 to 10,700.
    BadSetting = 1,
    // Relay not sound.
    UnsoundRelay = 2,
    // A code above 1023.
    BadCode = 3,
    // Enable bit 7 is 1.
    BadEnable = 4,
    // Reset mask bit 6 or 7 is 1.
    BadMask = 5,
    // A mark byte differs.
    MarkDiffers = 6,
    // Second byte is 0 or has its top bit set.
    BadSecondByte = 7,
    // Capture ends early.
    EndsEarly = 8,
    // Frame count, code or enable byte out of range.
    OutOfRange = 9,
    // Bytes after the last frame.
    BytesAfter = 10,
    // Answer does not fit.
    DoesNotFit = 11,
    // Cells no multiple of seven, or channel above 5.
    WrongShape = 12,
    // Fewer than eight frames.
    FewFrames = 13,
    // An order outside 1 to 3, or a window sample outside -512 to 511 (Paper 8).
    BadEstimate = 19,
    // A restraint level above 100 (Paper 8).
    BadRestraint = 20,
    // A run length outside 1 to 24 (Paper 9).
    BadLength = 21,
    // The numbers that a generator starts from are all even (Paper 12).
    AllEven = 24,
}

impl From<Refusal> for u8 {
    ghost from_gives = { λ refusal number. number ≡ number_of refusal };

    fn from(refusal: Refusal) -> u8 {
        refusal as u8
    }
}

// A refusal is printed as its number.
impl fmt::Display for Refusal {
    ghost use Rattle.std.specs.Prelude.{Some};
    ghost use Rattle.std.specs.Fmt.{decimal};

    ghost output = { λ refusal. Some (decimal (number_of refusal)) };

    fn fmt<W: fmt::Write>(&self, f: &mut fmt::Formatter<W>) -> fmt::Result {
        write!(f, "{}", u8::from(*self))
    }
}

impl Error for Refusal {}

// The number of an accepted call, for the structs that C is answered: an exported function cannot return a `Result`.
pub const ACCEPTED: u8 = 0;

// What C is answered by a call that was lent a buffer: the number of its refusal, 0 where it is accepted, and how many
// frames or bytes it made.
#[repr(C)]
#[derive(Clone, Copy, Debug, PartialEq, Eq)]
pub struct Answer {
    pub refusal: u8,
    pub count: usize,
}

impl From<Result<usize, Refusal>> for Answer {
    ghost from_gives = { λ made answer. answer ≡ answer_of made };

    fn from(made: Result<usize, Refusal>) -> Answer {
        match made {
            Ok(count) => Answer {
                refusal: ACCEPTED,
                count,
            },
            Err(refusal) => Answer {
                refusal: refusal.into(),
                count: 0,
            },
        }
    }
}
