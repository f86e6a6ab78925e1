// `Grid::neighbour`, with a direction by its number and the answer as numbers.
ghost use Rattle.std.specs.Prelude.{◌≡◌};
ghost use Rattle.grid.specs.Grid.{grid};
ghost use Rattle.grid.specs.Neighbours.{direction_of, neighbour_of};
ghost use Rattle.as_numbers.specs.Places.{place_of};

use as_numbers::places::Place;
use grid::{Direction, Grid};

#[unsafe(no_mangle)]
pub extern "C" fn sendai_neighbour(height: usize, width: usize, cell: usize, direction: u8) -> Place
    ensures { result ≡ place_of (neighbour_of (grid height width) (direction_of direction) cell) }
{
    let grid = Grid { height, width };
    Place::from(grid.neighbour(cell, Direction::from(direction)))
}
