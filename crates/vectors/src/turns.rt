// What boards, room graphs and puzzles have in common: borders are decided, one or all that wait, and taken back.
#[derive(Clone, Copy, Debug)]
pub enum Turn {
    Stroke,
    Decide { border: usize, wall: bool },
    Undo,
}

impl Turn {
    pub fn new(letter: u8, x: usize, y: usize) -> Option<Turn> {
        let turn = match letter {
            b's' => Turn::Stroke,
            b'd' => Turn::Decide {
                border: x,
                wall: y == 2,
            },
            b'u' => Turn::Undo,
            _ => return None,
        };
        Some(turn)
    }
}
