// The table that an ask makes once: for each cell its row, its column, its unit and its potential unit, so that no offset divides.
ghost use Rattle.std.specs.Prelude.{◌≡◌};
ghost use Rattle.offsets.specs.Table.{spot_of, Fillable, Filled};

use grid::Grid;
use images::Spot;

// What the table has of a cell; zeros stand where no cell is.
#[derive(Clone, Copy, Debug, Default, PartialEq, Eq)]
pub struct CellInfo {
    pub row: u16,
    pub col: u16,
    pub unit: u16,
    pub potential: u16,
}

impl CellInfo {
    // Its row and column.
    #[inline(always)]
    pub fn spot(&self) -> Spot
        ensures { result ≡ spot_of self.now }
    {
        Spot {
            row: usize::from(self.row),
            col: usize::from(self.col),
        }
    }
}

// Fills the table of a board, whose cells have these units and potential units.
pub fn fill(grid: Grid, ids: &[u16], pids: &[u16], table: &mut [CellInfo])
    requires { Fillable grid ids.now pids.now table.old }
    ensures { Filled grid ids.now pids.now table.new }
{
    for row in 0..grid.height {
        for col in 0..grid.width {
            let cell = row * grid.width + col;
            table[cell] = CellInfo {
                row: row as u16,
                col: col as u16,
                unit: ids[cell],
                potential: pids[cell],
            };
        }
    }
}
