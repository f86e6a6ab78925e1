// The script on standard input: a call in 15 bytes, as `bd 00017 00002` and a line feed: the letters of the record and of the call, and two numbers
// of five digits. What stands between them is not read.
ghost use Rattle.std.specs.Prelude.{◌<◌};

use crate::{boards, cases, grids, puzzles, room_graphs, unions, waiting};
use std::io::Read;

#[derive(Clone, Copy, Debug)]
pub enum Command {
    Grid(grids::Call),
    Case(cases::Call),
    Waiting(waiting::Call),
    Board(boards::Call),
    Union(unions::Call),
    Room(room_graphs::Call),
    Puzzle(puzzles::Call),
    Unknown,
    End,
    CutShort,
}

// A digit's number; any other byte counts as 0.
fn digit(byte: u8) -> usize
    ensures { result < 10 }
{
    match byte {
        b'0'..=b'9' => usize::from(byte - b'0'),
        _ => 0,
    }
}

fn number(digits: [u8; 5]) -> usize {
    let [a, b, c, d, e] = digits;
    10000 * digit(a) + 1000 * digit(b) + 100 * digit(c) + 10 * digit(d) + digit(e)
}

impl Command {
    fn new(line: [u8; 15]) -> Command {
        let [record, call, _, a, b, c, d, e, _, f, g, h, i, j, _] = line;
        let x = number([a, b, c, d, e]);
        let y = number([f, g, h, i, j]);
        match record {
            b'g' => Command::Grid(grids::Call::new(call, x, y)),
            b'c' => Command::Case(cases::Call::new(call, x, y)),
            b'l' => Command::Waiting(waiting::Call::new(call, x)),
            b'b' => Command::Board(boards::Call::new(call, x, y)),
            b'u' => Command::Union(unions::Call::new(call, x, y)),
            b'r' => Command::Room(room_graphs::Call::new(call, x, y)),
            b'p' => Command::Puzzle(puzzles::Call::new(call, x, y)),
            b'.' => Command::End,
            0 => Command::CutShort,
            _ => Command::Unknown,
        }
    }

    // The next call of the script.
    pub fn read(input: &mut impl Read) -> Command {
        let mut line = [0; 15];
        match input.read_exact(&mut line) {
            Ok(()) => Command::new(line),
            Err(_) => Command::CutShort,
        }
    }

    pub fn is_last(self) -> bool {
        matches!(self, Command::End | Command::CutShort)
    }
}
