// The two lists that wait for a call that takes them: both are emptied, or get one number more, or the first is handed over.
use crate::desk::Desk;
use crate::text::first;
use answers::Plain;
use std::io;

// As many numbers as the largest board has borders.
#[derive(Clone, Copy)]
pub struct List {
    items: [u16; limits::BORDERS],
    len: usize,
}

impl List {
    pub fn new() -> List {
        List {
            items: [0; limits::BORDERS],
            len: 0,
        }
    }

    pub fn numbers(&self) -> &[u16] {
        first(&self.items, self.len)
    }

    // A number that finds no room is dropped.
    fn push(&mut self, number: u16) {
        if self.len < limits::BORDERS {
            self.items[self.len] = number;
            self.len += 1;
        }
    }
}

#[derive(Clone, Copy, Debug)]
pub enum Call {
    Clear,
    First(u16),
    Second(u16),
    HandOver { room: usize },
}

impl Call {
    // Any letter but these hands over. A number of more than 16 bits counts as the largest.
    pub fn new(letter: u8, x: usize) -> Call {
        let number = u16::try_from(x).unwrap_or(u16::MAX);
        match letter {
            b'e' => Call::Clear,
            b'f' => Call::First(number),
            b's' => Call::Second(number),
            _ => Call::HandOver { room: x },
        }
    }
}

impl Desk {
    pub fn on_waiting(&mut self, call: Call) -> io::Result<()> {
        match call {
            Call::Clear => {
                self.first = List::new();
                self.second = List::new();
            }
            Call::First(number) => self.first.push(number),
            Call::Second(number) => self.second.push(number),
            Call::HandOver { room } => return self.hand_over(room),
        }
        self.say_done(Ok(()))
    }

    // The first list, handed over into so many places.
    fn hand_over(&self, room: usize) -> io::Result<()> {
        let mut buffer = [0u16; limits::BORDERS];
        let lent = &mut buffer[..room.min(limits::BORDERS)];
        let listed = hand_over::hand_over(self.first.numbers(), lent);
        self.say_plain(Plain::from(listed), &buffer)
    }
}
