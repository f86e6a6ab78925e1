// The numbers that bound every record: how many cells, borders and entries there can be, and the number that stands for no clue.
#![tactic(auto)]

// Cells of a board of 32 by 32, and vertices of a room graph or a union.
pub const CELLS: usize = 1024;

// Borders of a board of 32 by 32, and edges of a room graph.
pub const BORDERS: usize = 1984;

// Entries of an ask's list: nine for each cell.
pub const ENTRIES: usize = 9216;

// The same where all eight images are tried: sixteen for each cell.
pub const IMAGE_ENTRIES: usize = 16384;

// In a clue's place: the room has none.
pub const NO_CLUE: u16 = 65535;

// Bytes of the longest line: 27, and 6 for each entry.
pub const LINE: usize = 55323;
