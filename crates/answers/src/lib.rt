// What calls answer: why a call is refused, and for other languages one record of numbers.
#![tactic(auto)]

ghost use Rattle.std.specs.Prelude.{◌≡◌, false};
ghost use Rattle.answers.specs.Answers.{plain};
ghost use Rattle.answers.specs.Refusals.{number_of, code_of, result_plain, ask_plain};

// An answer as numbers: code 0, or the refusal's number; whether a fault was found; how many places of the buffer hold a list.
#[repr(C)]
#[derive(Clone, Copy)]
pub struct Plain {
    pub code: u8,
    pub fault: bool,
    pub length: usize,
}

// Why a call is refused: the question that its input does not pass (SPEC 3). Its number is what other languages get.
#[derive(Clone, Copy, Debug, PartialEq, Eq)]
pub enum Refusal {
    // A size outside its limits.
    Size = 1,
    // A record that does not hold together.
    Record = 2,
    // A cell, border, vertex, edge or group that does not exist.
    Missing = 3,
    // A border that is decided already.
    Decided = 4,
    // Nothing that an undo could take back.
    NothingToUndo = 5,
    // A buffer with too few places.
    ShortBuffer = 6,
    // Given walls that do not rise.
    Unsorted = 7,
    // Not one clue for each room.
    ClueCount = 8,
    // A clue above its room's size.
    LargeClue = 9,
    // Cells that no Connected borders join.
    NotJoined = 10,
    // An unsound case file.
    UnsoundFile = 11,
    // Too many undecided borders for a search.
    ManyUndecided = 12,
    // The seed 0.
    ZeroSeed = 13,
    // A border that stands twice in a stroke.
    Repeated = 14,
}

impl From<Refusal> for u8 {
    ghost from_gives = { λ refusal number. number ≡ number_of refusal };

    fn from(refusal: Refusal) -> u8 {
        refusal as u8
    }
}

// The number of the question that refuses, or 0.
pub fn code_of(checked: Result<(), Refusal>) -> u8
    ensures { result ≡ code_of checked }
{
    match checked {
        Ok(()) => 0,
        Err(refusal) => u8::from(refusal),
    }
}

// A call that lists: how many places hold the list.
impl From<Result<usize, Refusal>> for Plain {
    ghost from_gives = { λ listed plain. plain ≡ result_plain listed };

    fn from(listed: Result<usize, Refusal>) -> Plain {
        match listed {
            Ok(length) => Plain {
                code: 0,
                fault: false,
                length,
            },
            Err(refusal) => refused(refusal),
        }
    }
}

// An ask: nothing, or a fault with how many places hold its list.
impl From<Result<Option<usize>, Refusal>> for Plain {
    ghost from_gives = { λ answer plain. plain ≡ ask_plain answer };

    fn from(answer: Result<Option<usize>, Refusal>) -> Plain {
        match answer {
            Ok(found) => Plain {
                code: 0,
                fault: found.is_some(),
                length: found.unwrap_or(0),
            },
            Err(refusal) => refused(refusal),
        }
    }
}

fn refused(refusal: Refusal) -> Plain
    ensures { result ≡ plain (number_of refusal) false 0 }
{
    Plain {
        code: u8::from(refusal),
        fault: false,
        length: 0,
    }
}
