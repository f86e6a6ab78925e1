// The rooms of a puzzle: the cells that are joined when only given walls part cells, and the count of each room over the graph of its cells.
// A count first finds which side of it fails, if any; another function writes the list.
#![tactic(auto)]

ghost use Rattle.std.specs.Prelude.{◌≤◌};
ghost use Rattle.limits.specs.Limits.{most_borders};
ghost use Rattle.grid.specs.Grid.{border_count};
ghost use Rattle.rooms.specs.Lent.{Given, Places, Roomed};

use borders::Borders;
use grid::Grid;
pub use room::Room;

mod room;

// The rooms, by an array with a place for each border. A small board has a short one, since all of it is zeroed.
fn rooms_in<const N: usize>(grid: Grid, given: &[u16], ids: &mut [u16], sizes: &mut [u16]) -> usize
    requires given { Given grid given.now }
    requires room { (border_count grid ≤ N) × (N ≤ most_borders) }
    requires places { Places grid ids.old sizes.old }
    ensures { Roomed grid given.now ids.old sizes.old ids.new sizes.new result }
{
    let mut walls = [0u8; N];
    lists::write_at(given, 2, &mut walls);
    groups::count_groups(
        Borders {
            grid,
            states: &walls,
        },
        true,
        ids,
        sizes,
    )
}

// Writes each cell's room to `ids` and each room's size to `sizes`; returns how many rooms there are. Without given walls there is one, with
// every cell.
pub fn rooms_of(g: Grid, given: &[u16], ids: &mut [u16], sizes: &mut [u16]) -> usize
    requires given { Given g given.now }
    requires places { Places g ids.old sizes.old }
    ensures { Roomed g given.now ids.old sizes.old ids.new sizes.new result }
{
    if given.is_empty() {
        let n = g.cell_count();
        ids[..n].fill(0);
        sizes[0] = n as u16;
        1
    } else if g.is_small() {
        rooms_in::<256>(g, given, ids, sizes)
    } else {
        rooms_in::<{ limits::BORDERS }>(g, given, ids, sizes)
    }
}
