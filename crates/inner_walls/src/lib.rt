// The first stage of the shape check: a Wall inside a unit.
#![tactic(auto)]

ghost use Rattle.std.specs.Prelude.{◌≡◌, true, ◌+◌, ◌*◌, ◌<◌, ◌≤◌, length};
ghost use Rattle.lists.specs.Lists.{first};
ghost use Rattle.grid.specs.Orders.{forward};
ghost use Rattle.grid.specs.Grid.{cells};
ghost use Rattle.shape.specs.Shape.{inner_at, inner_wall};
ghost use Rattle.answers.specs.Answers.{Finds};
ghost use Rattle.inner_walls.specs.Asked.{Asked, NoneInside, RowHasNone};

use borders::Borders;
use grid::{Direction, Grid, Neighbour};

// A board's borders, and the unit of each cell.
#[derive(Clone, Copy)]
struct Units<'a> {
    borders: Borders<'a>,
    ids: &'a [u16],
    ghost ids_long: { cells borders.grid ≤ length ids.now },
}

impl Units<'_> {
    // Whether none of so many borders that follow one another, and whose cells do, is a Wall inside a unit: the first lies between a cell and the
    // one `step` numbers further on. The loop has one exit, so the compiler takes many borders at a time.
    fn none_inside(self, border: usize, cell: usize, step: usize, count: usize) -> bool
        requires states_long { border + count ≤ length self.borders.states.now }
        requires ids_long { cell + step + count ≤ length self.ids.now }
        ensures { result ≡ true → NoneInside self.entry.borders.states.now self.entry.ids.now border cell step count }
    {
        let mut none = true;
        for i in 0..count {
            let wall = self.borders.states[border + i] == 2;
            let one_unit = self.ids[cell + i] == self.ids[cell + step + i];
            none &= !(wall & one_unit);
        }
        none
    }

    // Whether no Wall right of a row's cells or under them lies inside a unit.
    fn row_has_none(self, row: usize) -> bool
        requires { row < self.borders.grid.height }
        ensures { result ≡ true → RowHasNone self.entry.borders.grid self.entry.borders.states.now self.entry.ids.now row }
    {
        let Grid { height, width } = self.borders.grid;
        let cell = row * width;
        let right = self.none_inside(row * (width - 1), cell, 1, width - 1);
        if row + 1 == height {
            return right;
        }
        right & self.none_inside(height * (width - 1) + cell, cell, width, width)
    }

    // The Wall that the cell of a row and column has in a direction, if it lies inside a unit: the path between its cells, and then that
    // Wall.
    fn inner_at(
        self,
        row: usize,
        col: usize,
        direction: Direction,
        buffer: &mut [u16],
    ) -> Option<usize>
        requires room { 9 * cells self.borders.grid ≤ length buffer.old }
        requires cell { (row < self.borders.grid.height) × (col < self.borders.grid.width) }
        ensures { Finds (inner_at self.entry.borders.grid self.entry.borders.states.now self.entry.ids.now (row * self.entry.borders.grid.width + col) direction) buffer.old buffer.new result }
    {
        let Borders { grid, states, .. } = self.borders;
        let cell = row * grid.width + col;
        let Neighbour { cell: next, border } = grid.step_at(row, col, cell, direction)?;
        if states[border] != 2 {
            return None;
        }
        if self.ids[cell] != self.ids[next] {
            return None;
        }
        let n = path::list_joined(self.borders, cell, next, buffer);
        buffer[n] = borders::entry(border, true);
        Some(n + 1)
    }

    // A cell's Walls: down before right.
    fn inner_cell(self, row: usize, col: usize, buffer: &mut [u16]) -> Option<usize>
        requires room { 9 * cells self.borders.grid ≤ length buffer.old }
        requires cell { (row < self.borders.grid.height) × (col < self.borders.grid.width) }
        ensures { Finds (first (inner_at self.entry.borders.grid self.entry.borders.states.now self.entry.ids.now (row * self.entry.borders.grid.width + col)) forward) buffer.old buffer.new result }
    {
        for direction in grid::FORWARD {
            if let Some(n) = self.inner_at(row, col, direction, buffer) {
                return Some(n);
            }
        }
        None
    }
}

// All cells, row by row, whose rows and columns are counted: none is found by a division. In most rows no Wall lies inside a unit.
pub fn inner_wall(b: Borders<'_>, ids: &[u16], buffer: &mut [u16]) -> Option<usize>
    requires { Asked b.grid ids.now buffer.old }
    ensures { Finds (inner_wall b.entry.grid b.entry.states.now ids.now) buffer.old buffer.new result }
{
    let units = Units { borders: b, ids };
    for row in 0..b.grid.height {
        if units.row_has_none(row) {
            continue;
        }
        for col in 0..b.grid.width {
            if let Some(n) = units.inner_cell(row, col, buffer) {
                return Some(n);
            }
        }
    }
    None
}
