// What the calls of a script work on: a record of each kind, a size, a seed, and two lists that wait for a call that takes them. It prints the answers.
use crate::script::Command;
use crate::text::{Spaced, first};
use crate::waiting::List;
use answers::{Plain, Refusal};
use board::Board;
use city_count::CityCountConstraint;
use grid::Grid;
use puzzle::Puzzle;
use std::fmt::Display;
use std::io;
use std::io::Stdout;
use union_find::UnionFind;

#[derive(Clone, Copy)]
pub struct Desk {
    pub out: Stdout,
    pub grid: Grid,
    pub seed: u32,
    pub board: Board,
    pub union: UnionFind,
    pub room: CityCountConstraint,
    pub puzzle: Puzzle,
    pub first: List,
    pub second: List,
}

impl Desk {
    // Records of zeros, until the script makes others.
    pub fn new(out: Stdout) -> Desk {
        Desk {
            out,
            grid: Grid::default(),
            seed: 0,
            board: Board::default(),
            union: UnionFind::default(),
            room: CityCountConstraint::default(),
            puzzle: Puzzle::default(),
            first: List::new(),
            second: List::new(),
        }
    }

    pub fn run(&mut self, command: Command) -> io::Result<()> {
        match command {
            Command::Grid(call) => self.on_grid(call),
            Command::Case(call) => self.on_case(call),
            Command::Waiting(call) => self.on_waiting(call),
            Command::Board(call) => self.on_board(call),
            Command::Union(call) => self.on_union(call),
            Command::Room(call) => self.on_room(call),
            Command::Puzzle(call) => self.on_puzzle(call),
            Command::Unknown => self.say("no such record"),
            Command::End => self.say("end"),
            Command::CutShort => self.say("the script is cut short"),
        }
    }

    pub fn say(&self, answer: impl Display + Drop) -> io::Result<()> {
        println!(self.out; "{answer}")
    }

    // A call that gives nothing: 0, or the number of its refusal.
    pub fn say_done(&self, done: Result<(), Refusal>) -> io::Result<()> {
        self.say(answers::code_of(done))
    }

    pub fn say_refusal(&self, refusal: Refusal) -> io::Result<()> {
        self.say(u8::from(refusal))
    }

    // What a call that writes a list answered, and the list.
    pub fn say_plain(&self, answer: Plain, buffer: &[u16]) -> io::Result<()> {
        let code = answer.code;
        let fault = if answer.fault { " fault" } else { "" };
        let list = Spaced(first(buffer, answer.length));
        println!(self.out; "{code}{fault}{list}")
    }
}
