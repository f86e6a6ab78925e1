// Why the program stops, in words: one line of standard error each (SPEC 5.9).
#![tactic(auto)]

ghost use Rattle.std.specs.Prelude.{◌≡◌, Some};
ghost use Rattle.flaws.specs.Flaws.{flaw_of};
ghost use Rattle.reasons.specs.Sentences.{why_text, refused_text};
ghost use Rattle.reasons.specs.declared.Why.TheVariants.{NotRead};

mod flawed;
mod name;
mod refused;
mod said;

use crate::flawed::Flawed;
use crate::refused::PuzzleRefused;
use answers::Refusal;
use flaws::Flaw;
pub use said::{FileReason, Misuse, NotWritten};
use std::{fmt, io};

// Why a file is refused. The bytes are the file's, which tell the numbers of the sentence.
#[derive(Clone, Copy, Drop)]
pub enum Why<'a> {
    // It is unsound.
    Unsound(Flaw, &'a [u8]),
    // It is sound, and its puzzle is refused.
    Refused(Refusal, &'a [u8]),
    Folder,
    // A pipe, a socket or a device. It is not opened, which could keep the program waiting.
    NotRegular,
    // Its name is no text, and only a text can be opened.
    NotText,
    // It can't be opened or read, for what the system says.
    NotRead(io::Error),
}

impl<'a> Why<'a> {
    // Why the bytes of a file are refused: what is wrong with the file, or else with its puzzle.
    pub fn of_refusal(file: &'a [u8], refusal: Refusal) -> Why<'a>
        ensures { why_text result ≡ Some (refused_text (flaw_of file.now) file.now refusal) }
    {
        match flaws::find(file) {
            Some(flaw) => Why::Unsound(flaw, file),
            None => Why::Refused(refusal, file),
        }
    }
}

impl From<io::Error> for Why<'_> {
    ghost from_gives = { λ error why. why ≡ NotRead error };

    fn from(error: io::Error) -> Self {
        Why::NotRead(error)
    }
}

impl fmt::Display for Why<'_> {
    ghost output = { why_text };

    fn fmt<W: fmt::Write>(&self, f: &mut fmt::Formatter<W>) -> fmt::Result {
        match *self {
            Why::Unsound(flaw, file) => write!(f, "{}", Flawed { flaw, file }),
            Why::Refused(refusal, file) => write!(f, "{}", PuzzleRefused { refusal, file }),
            Why::Folder => write!(f, "it is a folder"),
            Why::NotRegular => write!(f, "it is no regular file"),
            Why::NotText => write!(f, "its name is not UTF-8, and can't be opened here"),
            Why::NotRead(error) => write!(f, "{error}"),
        }
    }
}
