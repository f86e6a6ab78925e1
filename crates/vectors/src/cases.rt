// Case files drawn from a seed on the desk's size.
use crate::desk::Desk;
use crate::text::{Spaced, first};
use grid::Grid;
use std::io;

#[derive(Clone, Copy, Debug)]
pub enum Call {
    Seed(u32),
    File { calls: usize, room: usize },
}

// A seed by its upper and its lower 16 bits.
fn seed(high: usize, low: usize) -> u32 {
    (high % 65536 * 65536 + low % 65536) as u32
}

impl Call {
    // Any letter but this asks for a file.
    pub fn new(letter: u8, x: usize, y: usize) -> Call {
        match letter {
            b's' => Call::Seed(seed(x, y)),
            _ => Call::File { calls: x, room: y },
        }
    }
}

impl Desk {
    pub fn on_case(&mut self, call: Call) -> io::Result<()> {
        match call {
            Call::Seed(seed) => {
                self.seed = seed;
                self.say_done(Ok(()))
            }
            Call::File { calls, room } => self.say_file(calls, room),
        }
    }

    // A file of so many calls, lent so many bytes; there is room for some hundred calls.
    fn say_file(&self, calls: usize, room: usize) -> io::Result<()> {
        let mut buffer = [0u8; limits::BORDERS];
        let lent = &mut buffer[..room.min(limits::BORDERS)];
        let Grid { height, width } = self.grid;
        match generator::generate(self.seed, height, width, calls, lent) {
            Ok(length) => {
                let bytes = Spaced(first(&buffer, length));
                println!(self.out; "0{bytes}")
            }
            Err(refusal) => self.say_refusal(refusal),
        }
    }
}
