// A line of the program by its kind's number.
ghost use Rattle.std.specs.Prelude.{◌≡◌};
ghost use Rattle.as_numbers.specs.Prints.{line_by};

use lines::Line;

// A kind of line with its number: a room's, or a refusal's, which has 8 bits.
pub fn line_of(kind: u8, number: usize) -> Line
    ensures { result ≡ line_by kind number }
{
    match kind {
        0 => Line::Decided,
        1 => Line::Undone,
        2 => Line::Clear,
        3 => Line::Shape,
        4 => Line::Room(number),
        _ => Line::Refused((number % 256) as u8),
    }
}
