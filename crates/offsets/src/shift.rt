// Where an offset puts a unit's cells and borders.
ghost use Rattle.std.specs.Prelude.{◌≡◌, ◌<◌};
ghost use Rattle.shape.specs.Shape.{along};
ghost use Rattle.offsets.specs.Told.{told};
ghost use Rattle.offsets.specs.Reach.{InGrid, Small, moved};
ghost use Rattle.offsets.specs.Landings.{landing_of};

use crate::places::{self, Place};
use grid::{Direction, Grid};
use images::{Image, Spot};

// A unit's number and the image that is moved, and from where in the image and to where on the board its first cell goes.
#[derive(Clone, Copy)]
pub struct Shift {
    pub unit: u16,
    pub image: Image,
    pub from: Spot,
    pub to: Spot,
}

// Where a row or column goes as `from` goes to `to`; none before the first of so many, or behind the last.
fn along(count: usize, from: usize, to: usize, at: usize) -> Option<usize>
    requires { (from < 32) × (to < 32) × (at < 32) }
    ensures { result ≡ told (along count from to at) }
{
    let moved = (at + to).checked_sub(from)?;
    (moved < count).then_some(moved)
}

impl Shift {
    // The cell on which the cell of a spot falls.
    #[inline(always)]
    pub fn falls(self, grid: Grid, spot: Spot) -> Option<usize>
        requires { Small grid self × InGrid grid spot }
        ensures { result ≡ told (moved grid self spot) }
    {
        let at = self.image.spot(grid, spot);
        let y = along(grid.height, self.from.row, self.to.row, at.row)?;
        let x = along(grid.width, self.from.col, self.to.col, at.col)?;
        Some(y * grid.width + x)
    }

    // The border on which the border of that cell lands.
    pub fn lands(self, grid: Grid, spot: Spot, direction: Direction) -> Option<usize>
        requires { Small grid self × InGrid grid spot }
        ensures { result ≡ landing_of grid self spot direction }
    {
        let at = self.image.spot(grid, spot);
        let ahead = places::ahead(self.image.direction(direction));
        let y = places::coordinate(at.row, ahead.y, self.from.row, self.to.row);
        let x = places::coordinate(at.col, ahead.x, self.from.col, self.to.col);
        places::land(grid, Place { y, x })
    }
}
