// Calls on a board: make, stroke, decide and undo; its record; groups, paths, boundary lists and the shape check.
use crate::desk::Desk;
use crate::text::{Record, Spaced, first};
use crate::turns::Turn;
use answers::Plain;
use board::{Board, Decided};
use groups::Grouping;
use std::io;

#[derive(Clone, Copy, Debug)]
pub enum Call {
    Make { height: usize, width: usize },
    Turn(Turn),
    Record { states: usize },
    Groups { cells: usize, is_potential: bool },
    Group { group: usize, is_potential: bool },
    Ask(Question),
}

// What is answered by a list.
#[derive(Clone, Copy, Debug)]
pub enum Question {
    Path { start: usize, target: usize },
    Unit(usize),
    PotentialUnit(usize),
    Fault,
}

impl Call {
    // Any letter but these asks for a fault.
    pub fn new(letter: u8, x: usize, y: usize) -> Call {
        let is_potential = y == 1;
        match letter {
            b'm' => Call::Make {
                height: x,
                width: y,
            },
            b'r' => Call::Record { states: x },
            b'g' => Call::Groups {
                cells: x,
                is_potential,
            },
            b'h' => Call::Group {
                group: x,
                is_potential,
            },
            b'p' => Call::Ask(Question::Path {
                start: x,
                target: y,
            }),
            b'v' => Call::Ask(Question::Unit(x)),
            b'w' => Call::Ask(Question::PotentialUnit(x)),
            _ => Turn::new(letter, x, y).map_or(Call::Ask(Question::Fault), Call::Turn),
        }
    }
}

impl Question {
    // The board's answer, and its list in the buffer.
    fn ask(self, board: &Board, buffer: &mut [u16]) -> Plain {
        match self {
            Question::Path { start, target } => path::reason_for_path(
                board, start, target, buffer,
            ).into(),
            Question::Unit(unit) => boundary::reason_for_unit_and_its_boundary(
                board, unit, buffer,
            ).into(),
            Question::PotentialUnit(unit) => boundary::reason_for_potential_unit_boundary(
                board, unit, buffer,
            ).into(),
            Question::Fault => shape_check::find_inconsistency(board, buffer).into(),
        }
    }
}

impl Desk {
    pub fn on_board(&mut self, call: Call) -> io::Result<()> {
        let done = match call {
            Call::Make { height, width } => return self.make_board(height, width),
            Call::Turn(Turn::Stroke) => self.board.stroke(self.first.numbers()),
            Call::Turn(Turn::Decide { border, wall }) => self.board.decide(border, wall),
            Call::Turn(Turn::Undo) => self.board.undo(),
            Call::Record { states } => return self.say(Record {
                book: &self.board.book,
                states,
            }),
            Call::Groups {
                cells,
                is_potential,
            } => return self.say_groups(cells, is_potential),
            Call::Group {
                group,
                is_potential,
            } => return self.say_group(group, is_potential),
            Call::Ask(question) => return self.ask_board(question),
        };
        self.say_done(done)
    }

    fn make_board(&mut self, height: usize, width: usize) -> io::Result<()> {
        let made = Decided::from(Board::new(height, width));
        self.board = made.board;
        self.say(made.code)
    }

    // The groups of so many cells: each cell's group, the cells in turn and the starts.
    fn say_groups(&self, cells: usize, is_potential: bool) -> io::Result<()> {
        let mut buffer = [0u16; limits::CELLS];
        let made = groups::compute_connected_components(&self.board, is_potential, &mut buffer);
        let Grouping { code, info } = made.into();
        let ids = Spaced(first(&info.ids, cells));
        let turn = Spaced(first(&buffer, cells));
        let starts = Spaced(first(&info.starts, info.count));
        println!(self.out; "{code}{ids};{turn};{starts}")
    }

    // The cells that are handed out for a group.
    fn say_group(&self, group: usize, is_potential: bool) -> io::Result<()> {
        let mut buffer = [0u16; limits::CELLS];
        let made = groups::compute_connected_components(&self.board, is_potential, &mut buffer);
        let Grouping { info, .. } = made.into();
        let part = info.group(&buffer, group);
        let len = part.len();
        let cells = Spaced(part);
        println!(self.out; "{len}{cells}")
    }

    fn ask_board(&self, question: Question) -> io::Result<()> {
        let mut buffer = [0u16; limits::ENTRIES];
        let answer = question.ask(&self.board, &mut buffer);
        self.say_plain(answer, &buffer)
    }
}
