// A name as a line can show it: what would end the line or steer a terminal is shown as `?`.
ghost use Rattle.std.specs.Prelude.{◌≡◌, Some};
ghost use Rattle.reasons.specs.Sentences.{shown_char, name_text};

use bstr::ByteSlice;
use std::fmt;

// The name of a file, or another word that the program was started with. Bytes that are no text are shown as U+FFFD.
#[derive(Clone, Copy, Drop)]
pub(crate) struct Name<'a>(pub(crate) &'a [u8]);

// A character as a line can show it.
fn shown(c: char) -> char
    ensures { result ≡ shown_char c }
{
    if c.is_control() { '?' } else { c }
}

impl fmt::Display for Name<'_> {
    ghost output = { λ name. Some (name_text name.0.now) };

    fn fmt<W: fmt::Write>(&self, f: &mut fmt::Formatter<W>) -> fmt::Result {
        for c in self.0.chars() {
            f.write_char(shown(c))?;
        }
        Ok(())
    }
}
