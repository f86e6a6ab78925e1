// Why a sound file's puzzle is refused, as a sentence: what the refusal's question says (SPEC 3).
ghost use Rattle.std.specs.Prelude.{Some};
ghost use Rattle.reasons.specs.Sentences.{puzzle_text};

use crate::flawed::held;
use answers::Refusal;
use std::fmt;

// A refusal of a file's puzzle.
#[derive(Clone, Copy, Drop)]
pub(crate) struct PuzzleRefused<'a> {
    pub(crate) refusal: Refusal,
    pub(crate) file: &'a [u8],
}

impl fmt::Display for PuzzleRefused<'_> {
    ghost output = { λ s. Some (puzzle_text s.file.now s.refusal) };

    fn fmt<W: fmt::Write>(&self, f: &mut fmt::Formatter<W>) -> fmt::Result {
        match self.refusal {
            Refusal::Size => {
                let (height, width) = (held(self.file, 3), held(self.file, 4));
                write!(
                    f,
                    "a board of {height} by {width} cells is not within 1 to 32 a side"
                )
            }
            Refusal::Missing => write!(
                f,
                "a given wall names a border that the board does not have"
            ),
            Refusal::Unsorted => write!(f, "the given walls do not rise strictly"),
            Refusal::ClueCount => write!(f, "there are not as many clues as rooms"),
            Refusal::LargeClue => write!(f, "a clue is more than its room has cells"),
            other => write!(f, "question {} refuses it", u8::from(other)),
        }
    }
}
