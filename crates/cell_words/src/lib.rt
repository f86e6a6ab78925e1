// Row words of cells: those of a unit's own cells, and those of the cells in the potential units adjacent to its own, made from the marks
// when a row is first needed and kept while the next units have the same potential unit.
#![tactic(auto)]

ghost use Rattle.std.specs.Prelude.{not, ◌+◌, ◌*◌, ◌≤◌, ◌<◌, eqb, get_or};
ghost use Rattle.shape.specs.Shape.{head_or0};
ghost use Rattle.offsets.specs.Table.{unit_in, potential_in, units_in, potentials_in};
ghost use Rattle.offsets.specs.Trial.{Unit};
ghost use Rattle.words.specs.Words.{Says};
ghost use Rattle.cell_words.specs.Cells.{Blank, Inside, Stamped, Restamped};

use grid::Grid;
use marked::Marked;
use offsets::table::CellInfo;

pub mod marked;

// For each row the word of the cells that are near, and the potential unit for which it was made, if it was.
#[derive(Drop)]
pub struct Near<'a> {
    pub words: &'a mut [u64],
    pub stamps: &'a mut [Option<u16>],
}

// Sets the bits of a unit's cells in words that are blank. The size is named for the contract alone: the table has what is read.
pub fn add_cells(_grid: Grid, table: &[CellInfo], cells: &[u16], inside: &mut [u64])
    requires unit { Unit _grid table.now cells.now }
    requires blank { Blank _grid inside.old }
    ensures { Inside _grid (units_in _grid table.now) (unit_in table.now (head_or0 cells.now)) inside.new }
{
    for &cell in cells {
        let info = table[usize::from(cell)];
        let y = usize::from(info.row);
        inside[y] = words::with_bit(inside[y], true, 32 + usize::from(info.col));
    }
}

impl Marked<'_> {
    // The word of a row's cells in marked potential units.
    fn row_word(self, y: usize) -> u64
        requires { y < self.grid.height }
        ensures { Says self.entry.grid.width (λ x. not (eqb (get_or self.entry.marks.now (potential_in self.entry.table.now (y * self.entry.grid.width + x)) 0) 0)) result }
    {
        let from = y * self.grid.width;
        words::row(self.grid.width, |x| {
            let potential = usize::from(self.table[from + x].potential);
            self.marks[potential] != 0
        })
    }
}

impl Near<'_> {
    // Makes the word of a row for a potential unit, whose adjacent ones are marked, unless it stands there.
    fn stamp_row(&mut self, marked: Marked<'_>, y: usize)
        requires stamped { Stamped marked.grid marked.states.now (potentials_in marked.grid marked.table.now) self.old }
        requires y_lt_height { y < marked.grid.height }
        ensures { Restamped marked.entry.grid marked.entry.states.now (potentials_in marked.entry.grid marked.entry.table.now) marked.entry.own y (y + 1) self.old self.new }
    {
        if self.stamps[y] == Some(marked.own) {
            return;
        }
        self.words[y] = marked.row_word(y);
        self.stamps[y] = Some(marked.own);
    }

    // Makes the words of the rows from one up to another for a potential unit, whose adjacent ones are marked, unless they stand there.
    pub fn stamp_rows(&mut self, marked: Marked<'_>, from: usize, to: usize)
        requires stamped { Stamped marked.grid marked.states.now (potentials_in marked.grid marked.table.now) self.old }
        requires from_le_to { (from ≤ to) × (to ≤ marked.grid.height) }
        ensures { Restamped marked.entry.grid marked.entry.states.now (potentials_in marked.entry.grid marked.entry.table.now) marked.entry.own from to self.old self.new }
    {
        for y in from..to {
            self.stamp_row(marked, y);
        }
    }
}
