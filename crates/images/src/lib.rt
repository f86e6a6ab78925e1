// The eight images of a square, of cells and of directions: quarter turns clockwise, and the same after a left-right mirror.
#![tactic(auto)]

ghost use Rattle.std.specs.Prelude.{◌≡◌, ◌<◌};
ghost use Rattle.images.specs.Images.{mirrored_to, clockwise_to, spot_in, direction_in, translates, all_images};

use grid::{Direction, Grid};

// A cell's row and column.
#[derive(Clone, Copy)]
pub struct Spot {
    pub row: usize,
    pub col: usize,
}

// An image by its number: 0 to 3 for quarter turns clockwise, 4 to 7 for the same after a left-right mirror.
#[derive(Clone, Copy, Debug, PartialEq, Eq)]
pub struct Image {
    pub number: u8,
}

// The image that only moves.
pub const TRANSLATE: Image = Image { number: 0 };

// The images of each kind of puzzle, in the order in which they are tried.
const TRANSLATES: [Image; 1] = [TRANSLATE];

const ALL: [Image; 8] = [
    Image { number: 0 },
    Image { number: 1 },
    Image { number: 2 },
    Image { number: 3 },
    Image { number: 4 },
    Image { number: 5 },
    Image { number: 6 },
    Image { number: 7 },
];

// The one image of translates.
pub fn translates() -> &'static [Image]
    ensures { result.now ≡ translates }
{
    &TRANSLATES
}

// All eight images.
#[tactic(auto, unfolding(lists::specs::Lists::range))]
pub fn all() -> &'static [Image]
    ensures { result.now ≡ all_images }
{
    &ALL
}

// What a direction becomes in a left-right mirror.
fn mirrored(direction: Direction) -> Direction
    ensures { result ≡ mirrored_to direction }
{
    match direction {
        Direction::Up => Direction::Up,
        Direction::Down => Direction::Down,
        Direction::Left => Direction::Right,
        Direction::Right => Direction::Left,
    }
}

// What it becomes by a quarter turn clockwise.
fn clockwise(direction: Direction) -> Direction
    ensures { result ≡ clockwise_to direction }
{
    match direction {
        Direction::Up => Direction::Right,
        Direction::Right => Direction::Down,
        Direction::Down => Direction::Left,
        Direction::Left => Direction::Up,
    }
}

impl Image {
    // Where the cell of a spot stands in this image of the board.
    #[inline(always)]
    pub fn spot(self, grid: Grid, spot: Spot) -> Spot
        requires { (spot.row < grid.height) × (spot.col < grid.width) }
        ensures { result ≡ spot_in grid self spot }
    {
        let row = spot.row;
        let col = if self.number < 4 {
            spot.col
        } else {
            grid.width - 1 - spot.col
        };
        match self.number % 4 {
            0 => Spot { row, col },
            1 => Spot {
                row: col,
                col: grid.height - 1 - row,
            },
            2 => Spot {
                row: grid.height - 1 - row,
                col: grid.width - 1 - col,
            },
            _ => Spot {
                row: grid.width - 1 - col,
                col: row,
            },
        }
    }

    // Where a direction goes in this image.
    #[inline(always)]
    pub fn direction(self, direction: Direction) -> Direction
        ensures { result ≡ direction_in self direction }
    {
        let mirrored = if self.number < 4 {
            direction
        } else {
            mirrored(direction)
        };
        match self.number % 4 {
            0 => mirrored,
            1 => clockwise(mirrored),
            2 => clockwise(clockwise(mirrored)),
            _ => clockwise(clockwise(clockwise(mirrored))),
        }
    }
}
