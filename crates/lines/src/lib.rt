// Lines: what the program prints for each call, ended by a line feed, as bytes in a lent buffer.
#![tactic(auto)]

ghost use Rattle.std.specs.Prelude.{◌≡◌, ◌≤◌, length};
ghost use Rattle.std.proofs.lemmas.List.Edits.{sets};
ghost use Rattle.answers.specs.Answers.{written};
ghost use Rattle.answers.specs.Refusals.{Lists, number_of};
ghost use Rattle.lines.specs.Line.{line_of, needed, line_into};
ghost use Rattle.lines.specs.declared.Line.TheVariants.{Refused};

mod pen;

use answers::Refusal;
use pen::Pen;

// What a call had for an answer. A fault's entries come beside it.
#[derive(Clone, Copy, Debug, PartialEq, Eq)]
pub enum Line {
    Decided,
    Undone,
    Clear,
    Shape,
    Room(usize),
    Refused(u8),
}

// A refused call's line: it has the refusal's number.
impl From<Refusal> for Line {
    ghost from_gives = { λ refusal line. line ≡ Refused (number_of refusal) };

    fn from(refusal: Refusal) -> Line {
        Line::Refused(u8::from(refusal))
    }
}

// Writes the line to the first places of a buffer that has room for it, and answers how many.
pub fn put_line(line: Line, list: &[u16], buffer: &mut [u8]) -> usize
    requires { needed list.now ≤ length buffer.old }
    ensures value { result ≡ length (line_of line list.now) }
    ensures buffer_after { buffer.new ≡ sets buffer.old 0 (line_of line list.now) }
    ensures fits { result ≤ needed list.now }
{
    let mut pen = Pen { buffer, len: 0 };
    pen.line(line, list);
    pen.len
}

// Writes the line to the buffer's first places, and answers how many. The buffer needs 27 places and 6 for each entry (`limits::LINE`
// for the longest list).
pub fn write_line(line: Line, list: &[u16], buffer: &mut [u8]) -> Result<usize, Refusal>
    ensures value { Lists (line_into line list.now (length buffer.old)) result }
    ensures buffer_after { buffer.new ≡ written (line_into line list.now (length buffer.old)) buffer.old }
{
    if buffer.len() < 27 {
        return Err(Refusal::ShortBuffer);
    }
    if (buffer.len() - 27) / 6 < list.len() {
        return Err(Refusal::ShortBuffer);
    }
    Ok(put_line(line, list, buffer))
}
