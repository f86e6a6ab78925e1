// The marks of the potential units that are adjacent to one.
ghost use Rattle.grid.specs.Grid.{Limits};
ghost use Rattle.offsets.specs.Table.{Table};
ghost use Rattle.cell_words.specs.Marks.{Stamping};

use grid::Grid;
use offsets::table::CellInfo;

#[derive(Clone, Copy)]
pub struct Marked<'a> {
    pub grid: Grid,
    pub states: &'a [u8],
    pub table: &'a [CellInfo],
    pub marks: &'a [u8],
    pub own: u16,
    ghost limits: { Limits grid },
    ghost table_of: { Table grid table.now },
    ghost stamping: { Stamping grid states.now table.now marks.now own },
}
