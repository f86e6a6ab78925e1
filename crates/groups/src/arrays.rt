// Arrays in which a board's groups are written, for those who read them and keep none.
ghost use Rattle.std.specs.Prelude.{◌≡◌, ◌≤◌, length, replicate};
ghost use Rattle.grid.specs.Grid.{cells};
ghost use Rattle.groups.specs.Groups.{group_ids, group_count};
ghost use Rattle.groups.specs.Turn.{starts_of};

use crate::turned::Groups;
use borders::Borders;

// A place for each of N cells in each array that a grouping writes. `flat` stands next to `ids`: were they 4,096 bytes apart, reads of the
// one would wait for writes to the other.
#[derive(Drop)]
pub struct GroupArrays<const N: usize> {
    ids: [u16; N],
    flat: [u16; N],
    starts: [u16; N],
}

impl<const N: usize> GroupArrays<N> {
    // Arrays in which no groups stand.
    pub fn blank() -> GroupArrays<N>
        ensures ids_are { result.ids ≡ replicate N 0 }
        ensures starts_are { result.starts ≡ replicate N 0 }
        ensures flat_is { result.flat ≡ replicate N 0 }
    {
        GroupArrays {
            ids: [0; N],
            starts: [0; N],
            flat: [0; N],
        }
    }

    // Groups a board of at most N cells in these arrays: units, or potential units.
    pub fn group(&mut self, borders: Borders<'_>, potential: bool) -> Groups<'_>
        requires { cells borders.grid ≤ N }
        ensures grid_is { result.grid ≡ borders.entry.grid }
        ensures ids_are { result.ids.now ≡ group_ids borders.entry.grid borders.entry.states.now potential }
        ensures count_is { length result.starts.now ≡ group_count borders.entry.grid borders.entry.states.now potential }
        ensures starts_are { result.starts.now ≡ starts_of (cells borders.entry.grid) (group_ids borders.entry.grid borders.entry.states.now potential) (group_count borders.entry.grid borders.entry.states.now potential) }
    {
        let count = crate::group_cells(
            borders,
            potential,
            &mut self.ids,
            &mut self.starts,
            &mut self.flat,
        );
        Groups {
            grid: borders.grid,
            ids: &self.ids[..borders.grid.cell_count()],
            starts: &self.starts[..count],
            flat: &self.flat,
        }
    }
}
