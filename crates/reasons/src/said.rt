// The lines themselves.
ghost use Rattle.std.specs.Prelude.{Some};
ghost use Rattle.reasons.specs.Sentences.{why_text, line_text, misuse_text};

use crate::Why;
use crate::name::Name;
use std::{fmt, io};

// A file that is refused, by the name that it was called by.
#[derive(Clone, Copy, Drop)]
pub struct FileReason<'a> {
    pub name: &'a [u8],
    pub why: Why<'a>,
}

impl fmt::Display for FileReason<'_> {
    ghost output = { λ reason. line_text reason.name.now (why_text reason.why) };

    fn fmt<W: fmt::Write>(&self, f: &mut fmt::Formatter<W>) -> fmt::Result {
        write!(f, "sendai: {}: {}", Name(self.name), self.why)
    }
}

// The program was started in another way than it can be (SPEC 5.7).
#[derive(Clone, Copy, Drop)]
pub enum Misuse<'a> {
    UnknownOption(&'a [u8]),
    TooMany,
    LongArgument,
}

impl fmt::Display for Misuse<'_> {
    ghost output = { λ misuse. Some (misuse_text misuse) };

    fn fmt<W: fmt::Write>(&self, f: &mut fmt::Formatter<W>) -> fmt::Result {
        match *self {
            Misuse::UnknownOption(word) => write!(
                f,
                "sendai: {} is no option: see sendai --help",
                Name(word)
            ),
            Misuse::TooMany => write!(f, "sendai: too many arguments: see sendai --help"),
            Misuse::LongArgument => write!(f, "sendai: an argument is longer than 4,096 bytes"),
        }
    }
}

// A line can't be written to standard output (SPEC 5.6).
#[derive(Clone, Copy, Drop)]
pub struct NotWritten(pub io::Error);

impl fmt::Display for NotWritten {
    fn fmt<W: fmt::Write>(&self, f: &mut fmt::Formatter<W>) -> fmt::Result {
        write!(
            f,
            "sendai: standard output can't be written, not all is out: {}",
            self.0
        )
    }
}
