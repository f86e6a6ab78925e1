// A buffer that is written from its front on.
ghost use Rattle.std.specs.Prelude.{◌≡◌, ◌+◌, ◌*◌, ◌≤◌, ◌<◌, length};
ghost use Rattle.std.proofs.lemmas.List.Edits.{sets};
ghost use Rattle.lines.specs.Decimal.{digits_of, decimal_of};
ghost use Rattle.lines.specs.Line.{spaced_of, line_of, needed};
ghost use Rattle.lines.specs.Pen.{Writes, words_of};

use crate::Line;

// The buffer, and how many of its bytes are written.
#[derive(Drop)]
pub struct Pen<'a> {
    pub buffer: &'a mut [u8],
    pub len: usize,
}

// Writes a number in decimal, of at most so many digits, and answers the place behind it. For speed the place is a value, not behind
// a reference, and a number's first digit has its own way out.
fn digits(n: usize, places: usize, buffer: &mut [u8], at: usize) -> usize
    requires { at + length (digits_of places n) ≤ length buffer.old }
    ensures value { result ≡ at + length (digits_of places n) }
    ensures buffer_after { buffer.new ≡ sets buffer.old at (digits_of places n) }
{
    if places == 0 {
        return at;
    }
    let digit = b'0' + (n % 10) as u8;
    if n < 10 {
        buffer[at] = digit;
        return at + 1;
    }
    let last = digits(n / 10, places - 1, buffer, at);
    buffer[last] = digit;
    last + 1
}

impl Pen<'_> {
    fn put(&mut self, bytes: &[u8])
        requires { self.old.len + length bytes.now ≤ length self.old.buffer.now }
        ensures { Writes bytes.now self.old self.new }
    {
        self.len = lists::put(bytes, self.buffer, self.len);
    }

    // A number in decimal, of at most so many digits.
    fn digits(&mut self, n: usize, places: usize)
        requires { self.old.len + length (digits_of places n) ≤ length self.old.buffer.now }
        ensures { Writes (digits_of places n) self.old self.new }
    {
        self.len = digits(n, places, self.buffer, self.len);
    }

    // A refusal's number.
    fn number(&mut self, number: u8)
        requires { self.old.len + 3 ≤ length self.old.buffer.now }
        ensures value { Writes (decimal_of number) self.old self.new }
        ensures room_left { self.new.len ≤ self.old.len + 3 }
    {
        self.digits(usize::from(number), 20);
    }

    // Entries in decimal, each after a space.
    fn entries(&mut self, list: &[u16])
        requires { self.old.len + 6 * length list.now ≤ length self.old.buffer.now }
        ensures { Writes (spaced_of list.now) self.old self.new }
    {
        for &entry in list {
            self.put(b" ");
            self.digits(usize::from(entry), 20);
        }
    }

    // A line's words, numbers and entries.
    fn words(&mut self, line: Line, list: &[u16])
        requires { self.old.len + needed list.now ≤ length self.old.buffer.now }
        ensures value { Writes (words_of line list.now) self.old self.new }
        ensures room_left { self.new.len < self.old.len + needed list.now }
    {
        match line {
            Line::Decided => self.put(b"decided"),
            Line::Undone => self.put(b"undone"),
            Line::Clear => self.put(b"clear"),
            Line::Shape => {
                self.put(b"shape:");
                self.entries(list);
            }
            Line::Room(number) => {
                self.put(b"room ");
                self.digits(number, 20);
                self.put(b":");
                self.entries(list);
            }
            Line::Refused(number) => {
                self.put(b"refused ");
                self.number(number);
            }
        }
    }

    pub fn line(&mut self, line: Line, list: &[u16])
        requires { self.old.len + needed list.now ≤ length self.old.buffer.now }
        ensures value { Writes (line_of line list.now) self.old self.new }
        ensures room_left { self.new.len ≤ self.old.len + needed list.now }
    {
        self.words(line, list);
        self.put(b"\n");
    }
}
