// Which cells have a Wall or the board's edge on a side, found once for an ask: no Wall is looked for around the others.
ghost use Rattle.std.specs.Prelude.{◌≡◌, ◌+◌, ◌*◌, ◌<◌, ◌≤◌, ℕ, get_or, length};
ghost use Rattle.grid.specs.Grid.{Cell, cells};
ghost use Rattle.offsets.specs.Sides.{shut_in, Shut, Inside};

use borders::Borders;
use grid::Grid;

// Whether a cell that is not at the board's edge has a Wall on a side. Its borders' numbers are told without a test, so that the compiler takes many
// cells of a row at a time.
#[inline(always)]
fn has_wall(b: Borders<'_>, row: usize, col: usize) -> bool
    requires { Inside b.grid row col }
    ensures { result ≡ shut_in b.entry.grid b.entry.states.now (row * b.entry.grid.width + col) }
{
    let Grid { height, width } = b.grid;
    let cell = row * width + col;
    let below = height * (width - 1);
    let rows = (b.states[below + (cell - width)] == 2) | (b.states[below + cell] == 2);
    rows | (b.states[cell - 1 - row] == 2) | (b.states[cell - row] == 2)
}

// Writes 1 for each cell that has one, and 0 for each other. All cells come in with 1, and those at the edge keep it.
pub fn fill(b: Borders<'_>, shut: &mut [u8])
    requires long { cells b.grid ≤ length shut.old }
    requires ones { (c : ℕ) → Cell b.grid c → get_or shut.old c 0 ≡ 1 }
    ensures { Shut b.entry.grid b.entry.states.now shut.new }
{
    for row in 1..b.grid.height - 1 {
        for col in 1..b.grid.width - 1 {
            shut[row * b.grid.width + col] = u8::from(has_wall(b, row, col));
        }
    }
}
