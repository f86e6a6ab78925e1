// The states of a board's borders, and the entries that list them.
#![tactic(auto)]

ghost use Rattle.std.specs.Prelude.{◌≡◌, ◌<◌};
ghost use Rattle.lists.specs.Choice.{pick};
ghost use Rattle.borders.specs.Entry.{entry_of};
ghost use Rattle.borders.specs.Border.{decided};
ghost use Rattle.borders.specs.Fits.{Fits};

use grid::Grid;

// A board's borders as they stand: its size, and the state of each border at its number's place.
#[derive(Clone, Copy)]
pub struct Borders<'a> {
    pub grid: Grid,
    pub states: &'a [u8],
    ghost fits: { Fits grid states.now },
}

impl Borders<'_> {
    // Whether no border of the board is undecided.
    pub fn are_decided(self) -> bool
        ensures { result ≡ decided self.entry.grid self.entry.states.now }
    {
        let states = &self.states[..self.grid.border_count()];
        states.iter().all(|&state| state != 0)
    }
}

// The entry of a border, as Wall or as Connected.
pub fn entry(border: usize, wall: bool) -> u16
    requires { border < 1984 }
    ensures { result ≡ entry_of wall border }
{
    (2 * border + usize::from(wall)) as u16
}

// The state of a border that is a Wall (2) or Connected (1).
pub fn state_of(wall: bool) -> u8
    ensures { result ≡ pick wall 2 1 }
{
    1 + u8::from(wall)
}
