// A board's borders with the table of its cells, and which of these have a Wall or the board's edge on a side.
ghost use Rattle.offsets.specs.Table.{Table};
ghost use Rattle.offsets.specs.Sides.{Shut};

use crate::table::CellInfo;
use borders::Borders;

#[derive(Clone, Copy)]
pub struct Chart<'a> {
    pub borders: Borders<'a>,
    pub table: &'a [CellInfo],
    pub shut: &'a [u8],
    ghost table_of: { Table borders.grid table.now },
    ghost shut_of: { Shut borders.grid borders.states.now shut.now },
}

impl Chart<'_> {
    ghost use Rattle.std.specs.Prelude.{◌≡◌, false};
    ghost use Rattle.grid.specs.Grid.{Cell};
    ghost use Rattle.offsets.specs.Sides.{shut_in};

    // Whether a cell may have a Wall or the board's edge on a side.
    #[inline(always)]
    pub fn is_shut(self, cell: usize) -> bool
        requires { Cell self.borders.grid cell }
        ensures { result ≡ false → shut_in self.entry.borders.grid self.entry.borders.states.now cell ≡ false }
    {
        self.shut[cell] != 0
    }
}
