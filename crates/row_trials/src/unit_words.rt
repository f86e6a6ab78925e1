// What trials by words are handed.
use cell_words::Near;

// What trials by words read and write: the word of a whole row, those of the board's borders, room for the codes of a unit's cells and borders, and the
// words of the cells that are near. These stand while the next units have the same potential unit.
#[derive(Drop)]
pub struct UnitWords<'a> {
    pub full: u64,
    pub board: &'a [u64],
    pub codes: &'a mut [u16],
    pub borders: &'a mut [u16],
    pub near: Near<'a>,
}
