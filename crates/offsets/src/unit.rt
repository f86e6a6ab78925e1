// A unit's cells on its board, in row order; the first of them has the unit's number in the table.
ghost use Rattle.std.specs.Prelude.{◌≡◌, ◌-◌, get_or, length};
ghost use Rattle.shape.specs.Shape.{head_or0};
ghost use Rattle.offsets.specs.Table.{blank};
ghost use Rattle.offsets.specs.Trial.{Unit};

use crate::chart::Chart;
use crate::table::CellInfo;

#[derive(Clone, Copy)]
pub struct UnitCells<'a> {
    pub chart: Chart<'a>,
    pub cells: &'a [u16],
    ghost unit: { Unit chart.borders.grid chart.table.now cells.now },
}

impl UnitCells<'_> {
    // What the table has of its first cell.
    #[inline(always)]
    pub fn first(self) -> CellInfo
        ensures { result ≡ get_or self.entry.chart.table.now (head_or0 self.entry.cells.now) blank }
    {
        self.chart.table[usize::from(self.cells[0])]
    }

    // What the table has of its last cell.
    #[inline(always)]
    pub fn last(self) -> CellInfo
        ensures { result ≡ get_or self.entry.chart.table.now (get_or self.entry.cells.now (length self.entry.cells.now - 1) 0) blank }
    {
        self.chart.table[usize::from(self.cells[self.cells.len() - 1])]
    }
}
