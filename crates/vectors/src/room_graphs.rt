// Calls on a room graph: make (its edges wait in the two lists), stroke, decide, undo and ask.
use crate::desk::Desk;
use crate::turns::Turn;
use std::io;

#[derive(Clone, Copy, Debug)]
pub enum Call {
    Make { vertices: usize, count: u32 },
    Turn(Turn),
    Ask,
}

impl Call {
    // Any letter but these asks for a fault. A count of more than 32 bits counts as the largest.
    pub fn new(letter: u8, x: usize, y: usize) -> Call {
        match letter {
            b'm' => Call::Make {
                vertices: x,
                count: u32::try_from(y).unwrap_or(u32::MAX),
            },
            _ => Turn::new(letter, x, y).map_or(Call::Ask, Call::Turn),
        }
    }
}

impl Desk {
    pub fn on_room(&mut self, call: Call) -> io::Result<()> {
        let done = match call {
            Call::Make { vertices, count } => return self.make_room(vertices, count),
            Call::Turn(Turn::Stroke) => self.room.stroke(self.first.numbers()),
            Call::Turn(Turn::Decide { border, wall }) => self.room.decide(border, wall),
            Call::Turn(Turn::Undo) => self.room.undo(),
            Call::Ask => return self.ask_room(),
        };
        self.say_done(done)
    }

    fn make_room(&mut self, vertices: usize, count: u32) -> io::Result<()> {
        let made = city_count::make(vertices, self.first.numbers(), self.second.numbers(), count);
        self.room = made.room;
        self.say(made.code)
    }

    fn ask_room(&self) -> io::Result<()> {
        let mut buffer = [0u16; limits::BORDERS];
        let asked = self.room.ask(&mut buffer);
        self.say_plain(asked.into(), &buffer)
    }
}
