// What is wrong with an unsound file, as a sentence.
ghost use Rattle.std.specs.Prelude.{◌≡◌, Some, get_or};
ghost use Rattle.reasons.specs.Sentences.{said_at, count_text, cut_word, flaw_text};

use flaws::Flaw;
use std::fmt;

// The number at a byte of the file, 0 where the file ends before it.
fn said(file: &[u8], at: usize) -> u16
    ensures { result ≡ said_at file.now at }
{
    match case_file::word(file, at) {
        Some(word) => word,
        None => 0,
    }
}

// A byte of the file, 0 where the file ends before it.
pub(crate) fn held(file: &[u8], at: usize) -> u8
    ensures { result ≡ get_or file.now at 0 }
{
    match file.get(at) {
        Some(&byte) => byte,
        None => 0,
    }
}

// Whether the file ends before the call at a byte, or in it.
fn where_cut(file: &[u8], at: usize) -> &'static str
    ensures { result.now ≡ cut_word file.now at }
{
    if file.len() <= at { "before" } else { "in" }
}

// The count at a byte of a file that has no room for the list that it counts.
#[derive(Clone, Copy, Drop)]
struct Count<'a>(&'a [u8], usize, &'a str);

impl fmt::Display for Count<'_> {
    ghost output = { λ c. Some (count_text c.0.now c.1 c.2.now) };

    fn fmt<W: fmt::Write>(&self, f: &mut fmt::Formatter<W>) -> fmt::Result {
        let Count(file, at, list) = *self;
        match case_file::word(file, at) {
            Some(count) => write!(
                f,
                "byte {at}: the count of {list}, {count}, runs past the end of the file"
            ),
            None => write!(
                f,
                "byte {at}: the count of {list} is cut off by the end of the file"
            ),
        }
    }
}

// A flaw of a file.
#[derive(Clone, Copy, Drop)]
pub(crate) struct Flawed<'a> {
    pub(crate) flaw: Flaw,
    pub(crate) file: &'a [u8],
}

impl fmt::Display for Flawed<'_> {
    ghost output = { λ s. Some (flaw_text s.file.now s.flaw) };

    fn fmt<W: fmt::Write>(&self, f: &mut fmt::Formatter<W>) -> fmt::Result {
        let file = self.file;
        match self.flaw {
            Flaw::Long => write!(f, "it is longer than 60,003 bytes"),
            Flaw::Short => write!(
                f,
                "it has {} bytes, and version, length, height and width take 5",
                file.len()
            ),
            Flaw::Version => write!(f, "byte 0: the version is {}, not 1", held(file, 0)),
            Flaw::Length => write!(
                f,
                "byte 1: the length is {}, and {} bytes follow it",
                said(file, 1),
                file.len().saturating_sub(3)
            ),
            Flaw::Walls => write!(f, "{}", Count(file, 5, "given walls")),
            Flaw::Clues(at) => write!(f, "{}", Count(file, at, "clues")),
            Flaw::Calls(at) => write!(f, "{}", Count(file, at, "calls")),
            Flaw::Cut(at) => write!(
                f,
                "byte {at}: the count of calls runs past the end of the file: it ends {} this call",
                where_cut(file, at)
            ),
            Flaw::Kind(at) => {
                let kind = held(file, at);
                write!(f, "byte {at}: the call is of kind {kind}, not 0 to 3")
            }
            Flaw::Behind(at) => write!(
                f,
                "byte {at}: the last call ends before this byte, and the file does not"
            ),
        }
    }
}
