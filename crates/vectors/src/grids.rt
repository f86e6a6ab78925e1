// Calls on a size: it is taken as it comes, and the neighbour of a cell is asked, with the border between them.
use crate::desk::Desk;
use grid::{Direction, Grid, Neighbour};
use std::io;

#[derive(Clone, Copy, Debug)]
pub enum Call {
    Make { height: usize, width: usize },
    Neighbour { cell: usize, direction: Direction },
}

impl Call {
    // Any letter but this asks for a neighbour. Any number from 3 on is the right.
    pub fn new(letter: u8, x: usize, y: usize) -> Call {
        match letter {
            b'm' => Call::Make {
                height: x,
                width: y,
            },
            _ => Call::Neighbour {
                cell: x,
                direction: Direction::from(u8::try_from(y).unwrap_or(u8::MAX)),
            },
        }
    }
}

impl Desk {
    pub fn on_grid(&mut self, call: Call) -> io::Result<()> {
        match call {
            Call::Make { height, width } => {
                self.grid = Grid { height, width };
                self.say_done(Ok(()))
            }
            Call::Neighbour { cell, direction } => match self.grid.neighbour(cell, direction) {
                Ok(Some(Neighbour { cell, border })) => println!(self.out; "0 {cell} {border}"),
                Ok(None) => self.say_done(Ok(())),
                Err(refusal) => self.say_refusal(refusal),
            },
        }
    }
}
