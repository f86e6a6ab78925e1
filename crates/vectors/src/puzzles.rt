// Calls on a puzzle: make one of a kind (given walls and clues wait in the two lists), stroke, decide, undo, ask; its board's record; its right boards.
use crate::desk::Desk;
use crate::text::{Record, Spaced, Word, first};
use crate::turns::Turn;
use enumerate::Listing;
use grid::Grid;
use puzzle::kind::Kind;
use puzzle::{Check, Fault};
use std::io;

#[derive(Clone, Copy, Debug)]
pub enum Call {
    Make { kind: Kind, grid: Grid },
    Turn(Turn),
    Ask { room: usize },
    Record { states: usize },
    Boards { most: usize, room: usize },
}

impl Call {
    // Any letter but these asks for a fault.
    pub fn new(letter: u8, x: usize, y: usize) -> Call {
        let grid = Grid {
            height: x,
            width: y,
        };
        match letter {
            b'm' => Call::Make {
                kind: Kind::Translates,
                grid,
            },
            b'i' => Call::Make {
                kind: Kind::Images,
                grid,
            },
            b'r' => Call::Record { states: x },
            b'b' => Call::Boards { most: x, room: y },
            _ => Turn::new(letter, x, y).map_or(Call::Ask { room: x }, Call::Turn),
        }
    }
}

// How many digits a board has. A size beyond the limits has none, and its puzzle is refused anyway.
fn border_count(grid: Grid) -> usize {
    if grid.is_within_limits() {
        grid.border_count()
    } else {
        0
    }
}

impl Desk {
    pub fn on_puzzle(&mut self, call: Call) -> io::Result<()> {
        let done = match call {
            Call::Make { kind, grid } => return self.make_puzzle(kind, grid),
            Call::Turn(Turn::Stroke) => self.puzzle.stroke(self.first.numbers()),
            Call::Turn(Turn::Decide { border, wall }) => self.puzzle.decide(border, wall),
            Call::Turn(Turn::Undo) => self.puzzle.undo(),
            Call::Ask { room } => return self.ask_puzzle(room),
            Call::Record { states } => return self.say(Record {
                book: &self.puzzle.board.book,
                states,
            }),
            Call::Boards { most, room } => return self.say_boards(most, room),
        };
        self.say_done(done)
    }

    fn make_puzzle(&mut self, kind: Kind, grid: Grid) -> io::Result<()> {
        let (given, clues) = (self.first.numbers(), self.second.numbers());
        let made = puzzle::make(kind, grid.height, grid.width, given, clues);
        self.puzzle = made.puzzle;
        self.say(made.code)
    }

    // An ask that is lent so many places: which check found a fault, and the fault.
    fn ask_puzzle(&self, room: usize) -> io::Result<()> {
        let mut buffer = [0u16; limits::IMAGE_ENTRIES];
        let lent = &mut buffer[..room.min(limits::IMAGE_ENTRIES)];
        let asked = self.puzzle.ask(lent);
        match asked {
            Ok(None) => self.say_done(Ok(())),
            Ok(Some(Fault { check, len })) => {
                let list = Spaced(first(&buffer, len));
                match check {
                    Check::Shape => println!(self.out; "shape 0 fault{list}"),
                    Check::Room(room) => println!(self.out; "room {room} 0 fault{list}"),
                }
            }
            Err(refusal) => self.say_refusal(refusal),
        }
    }

    // The right boards, lent so many bytes; there is room for a board of the largest size, or many small ones.
    fn say_boards(&self, most: usize, room: usize) -> io::Result<()> {
        let mut buffer = [0u8; limits::BORDERS];
        let lent = &mut buffer[..room.min(limits::BORDERS)];
        let listed = enumerate::list_right_boards(&self.puzzle, most, lent);
        match listed {
            Ok(Listing { count, more }) => {
                let more = u8::from(more);
                print!(self.out; "0 {count} {more}")?;
                self.say_words(&buffer, count)
            }
            Err(refusal) => self.say_refusal(refusal),
        }
    }

    // So many words, each with a digit for each border of the puzzle.
    fn say_words(&self, digits: &[u8], count: usize) -> io::Result<()> {
        let n = border_count(self.puzzle.board.grid);
        let mut left = digits;
        for _ in 0..count {
            let (digits, others) = left.split_at(n.min(left.len()));
            let word = Word(digits);
            print!(self.out; " {word}")?;
            left = others;
        }
        self.say("")
    }
}
