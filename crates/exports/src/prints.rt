// The program's lines, with the kind of a line by its number.
ghost use Rattle.std.specs.Prelude.{◌≡◌, length};
ghost use Rattle.answers.specs.Answers.{written};
ghost use Rattle.answers.specs.Refusals.{listed_plain};
ghost use Rattle.lines.specs.Line.{line_into};
ghost use Rattle.as_numbers.specs.Prints.{line_by};

use answers::Plain;
use as_numbers::prints;

#[unsafe(no_mangle)]
pub extern "C" fn sendai_line(kind: u8, number: usize, entries: &[u16], buffer: &mut [u8]) -> Plain
    ensures value { result ≡ listed_plain (line_into (line_by kind number) entries.now (length buffer.old)) }
    ensures buffer_after { buffer.new ≡ written (line_into (line_by kind number) entries.now (length buffer.old)) buffer.old }
{
    let line = prints::line_of(kind, number);
    Plain::from(lines::write_line(line, entries, buffer))
}
