// Border places in doubled coordinates: a cell's are twice its row and column, and a border lies one from its cell, so that the
// places of a board's edge run from -1.
ghost use Rattle.std.specs.Prelude.{◌≡◌, ◌<◌};
ghost use Rattle.std.specs.Int.Signed.{mag};
ghost use Rattle.grid.specs.Grid.{Limits};
ghost use Rattle.offsets.specs.Places.{ahead_of, coordinate_of, border_at, land_of};

use grid::{Direction, Grid};

#[derive(Clone, Copy)]
pub struct Place {
    pub y: i32,
    pub x: i32,
}

// From a cell's place to that of its border in a direction.
pub fn ahead(direction: Direction) -> Place
    ensures { result ≡ ahead_of direction }
{
    match direction {
        Direction::Up => Place { y: -1, x: 0 },
        Direction::Down => Place { y: 1, x: 0 },
        Direction::Left => Place { y: 0, x: -1 },
        Direction::Right => Place { y: 0, x: 1 },
    }
}

// A row or column of a border's place, moved as the unit is, which takes `from` to `to`.
pub fn coordinate(at: usize, ahead: i32, from: usize, to: usize) -> i32
    requires { (at < 32) × (mag ahead < 2) × (from < 32) × (to < 32) }
    ensures { result ≡ coordinate_of at ahead from to }
{
    let place = (2 * at) as i32 + ahead;
    let offset = (2 * to) as i32 - (2 * from) as i32;
    place + offset
}

// The border at a place of the board: an odd row lies between two rows of cells, any other between two columns.
fn border_at(grid: Grid, y: usize, x: usize) -> Option<usize>
    requires { Limits grid }
    ensures { result ≡ border_at grid y x }
{
    if 2 * grid.height - 1 <= y || 2 * grid.width - 1 <= x {
        return None;
    }
    let row = y / 2;
    let col = x / 2;
    let direction = if y % 2 == 1 {
        Direction::Down
    } else {
        Direction::Right
    };
    let beyond = grid.step_at(row, col, row * grid.width + col, direction)?;
    Some(beyond.border)
}

// The border at a place, and none outside the board: a negative place is outside. One test of both signs is quicker than two conversions.
pub fn land(grid: Grid, place: Place) -> Option<usize>
    requires { Limits grid }
    ensures { result ≡ land_of grid place.y place.x }
{
    if place.y < 0 || place.x < 0 {
        return None;
    }
    border_at(grid, place.y as usize, place.x as usize)
}
