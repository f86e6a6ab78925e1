// A puzzle's answer as numbers.
ghost use Rattle.std.specs.Prelude.{◌≡◌};
ghost use Rattle.puzzle.specs.Puzzle.{answer_in};
ghost use Rattle.as_numbers.specs.Puzzles.{fault_outcome, outcome_of};

use answers::Refusal;
use puzzle::{Check, Fault};

// What an ask answered: kind 0 clear, 1 a fault of the shape check, 2 a fault of a room's count, 3 refused. A fault has its list's
// length, a room's fault the room's number, a refusal its code; all else is 0.
#[repr(C)]
#[derive(Clone, Copy, Default)]
pub struct Outcome {
    pub kind: u8,
    pub code: u8,
    pub room: usize,
    pub length: usize,
}

// A fault by the check that found it.
impl From<Fault> for Outcome {
    ghost from_gives = { λ fault outcome. outcome ≡ fault_outcome fault.check fault.len };

    fn from(fault: Fault) -> Outcome {
        match fault.check {
            Check::Shape => Outcome {
                kind: 1,
                length: fault.len,
                ..Outcome::default()
            },
            Check::Room(room) => Outcome {
                kind: 2,
                room,
                length: fault.len,
                ..Outcome::default()
            },
        }
    }
}

impl From<Result<Option<Fault>, Refusal>> for Outcome {
    ghost from_gives = { λ asked outcome. outcome ≡ outcome_of (answer_in asked) };

    fn from(asked: Result<Option<Fault>, Refusal>) -> Outcome {
        match asked {
            Ok(None) => Outcome::default(),
            Ok(Some(fault)) => Outcome::from(fault),
            Err(refusal) => Outcome {
                kind: 3,
                code: u8::from(refusal),
                ..Outcome::default()
            },
        }
    }
}
