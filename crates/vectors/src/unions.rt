// Calls on a union: make, find, unite, and its parents.
use crate::desk::Desk;
use crate::text::{Spaced, first};
use answers::Refusal;
use std::io;
use union_find::{Made, UnionFind};

#[derive(Clone, Copy, Debug)]
pub enum Call {
    Make { vertices: usize },
    Find { vertex: usize },
    Unite { one: usize, other: usize },
    Parents,
}

impl Call {
    // Any letter but these asks for the parents.
    pub fn new(letter: u8, x: usize, y: usize) -> Call {
        match letter {
            b'm' => Call::Make { vertices: x },
            b'f' => Call::Find { vertex: x },
            b'u' => Call::Unite { one: x, other: y },
            _ => Call::Parents,
        }
    }
}

impl Desk {
    pub fn on_union(&mut self, call: Call) -> io::Result<()> {
        match call {
            Call::Make { vertices } => {
                let made = Made::from(UnionFind::new(vertices));
                self.union = made.union;
                self.say(made.code)
            }
            Call::Find { vertex } => {
                let root = self.union.find(vertex);
                self.say_number(root)
            }
            Call::Unite { one, other } => {
                let united = self.union.unite(one, other);
                self.say_number(united.map(usize::from))
            }
            Call::Parents => {
                let n = self.union.n;
                let parents = Spaced(first(&self.union.parent, n));
                println!(self.out; "{n}{parents}")
            }
        }
    }

    // 0 and a number, or the number of a refusal and 0.
    fn say_number(&self, answer: Result<usize, Refusal>) -> io::Result<()> {
        let code = answer.map_or_else(u8::from, |_| 0);
        let number = answer.unwrap_or(0);
        println!(self.out; "{code} {number}")
    }
}
