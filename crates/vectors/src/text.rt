// Answers as text.
ghost use Rattle.std.specs.Prelude.{◌≡◌, take};

use ledger::Book;
use std::fmt;

// The first n items of a list, or all of them where it has fewer.
pub fn first<T>(list: &[T], n: usize) -> &[T]
    ensures { result.now ≡ take n list.now }
{
    list.get(..n).unwrap_or(list)
}

// The items of a list, each behind a space.
#[derive(Clone, Copy)]
pub struct Spaced<'a, T>(pub &'a [T]);

impl<T: fmt::Display> fmt::Display for Spaced<'_, T> {
    fn fmt<W: fmt::Write>(&self, f: &mut fmt::Formatter<W>) -> fmt::Result {
        for item in self.0 {
            write!(f, " {item}")?;
        }
        Ok(())
    }
}

// Digits as one word.
#[derive(Clone, Copy)]
pub struct Word<'a>(pub &'a [u8]);

impl fmt::Display for Word<'_> {
    fn fmt<W: fmt::Write>(&self, f: &mut fmt::Formatter<W>) -> fmt::Result {
        for digit in self.0 {
            write!(f, "{digit}")?;
        }
        Ok(())
    }
}

// A record: how many borders are decided, their names in turn, and the first states.
#[derive(Clone, Copy)]
pub struct Record<'a> {
    pub book: &'a Book,
    pub states: usize,
}

impl fmt::Display for Record<'_> {
    fn fmt<W: fmt::Write>(&self, f: &mut fmt::Formatter<W>) -> fmt::Result {
        let len = self.book.len;
        let names = Spaced(first(&self.book.names, len));
        let states = Spaced(first(&self.book.states, self.states));
        write!(f, "{len}{names};{states}")
    }
}
