// The second stage of the shape check: the first unit that fits nowhere is found, and then its list is written.
#![tactic(auto)]

ghost use Rattle.std.specs.Prelude.{◌≡◌, ◌+◌, ◌*◌, ◌≤◌, length};
ghost use Rattle.lists.specs.Lists.{In};
ghost use Rattle.grid.specs.Grid.{cells as cells_of};
ghost use Rattle.images.specs.Images.{translate};
ghost use Rattle.answers.specs.Answers.{Finds};
ghost use Rattle.unit_check.specs.Units.{unit_stage, Checked};

use adjacency::{Near, Potentials};
use borders::Borders;
use groups::Groups;
use images::Image;
use offsets::chart::Chart;
use offsets::sides;
use offsets::table::{self, CellInfo};
use stage::Stage;

mod by_words;
mod find;
mod soon;
mod stage;
mod write;

// The units of a board of at most N cells among its potential units: how long the list is of the first that fits nowhere as any of the images, if there
// is one. The arrays are no longer than N asks, since all of an array is zeroed.
pub fn check<'a, const N: usize, const STARTS: usize, const NEAR: usize, const BORDERS: usize>(
    borders: Borders<'a>,
    units: Groups<'a>,
    potentials: Groups<'a>,
    images: &'a [Image],
    buffer: &mut [u16],
) -> Option<usize>
    requires checked { Checked (length images.now) borders.grid units.grid units.ids.now (length buffer.old) }
    requires translates { In translate images.now }
    requires potentials { (potentials.grid ≡ borders.grid) × (length potentials.ids.now ≡ cells_of borders.grid) }
    requires room { (cells_of borders.grid ≤ N) × (cells_of borders.grid + 1 ≤ STARTS) × (4 * cells_of borders.grid ≤ NEAR) × (6 * cells_of borders.grid ≤ BORDERS) }
    requires arrays_small { (N ≤ 1024) × (STARTS ≤ 1025) × (NEAR ≤ 4096) × (BORDERS ≤ 6144) }
    ensures { Finds (unit_stage images.entry.now borders.entry.grid borders.entry.states.now units.entry.ids.now potentials.entry.ids.now (length potentials.entry.starts.now) (length units.entry.starts.now)) buffer.old buffer.new result }
{
    let mut table = [CellInfo::default(); N];
    table::fill(borders.grid, units.ids, potentials.ids, &mut table);
    let mut shut = [1; N];
    sides::fill(borders, &mut shut);
    let mut marks = [0; N];
    let mut near_starts = [0; STARTS];
    let mut near = [0; NEAR];
    let chart = Chart {
        borders,
        table: &table,
        shut: &shut,
    };
    let around = Potentials {
        chart,
        groups: potentials,
    };
    around.list_adjacent(&mut marks, &mut near_starts, &mut near);
    let stage = Stage {
        chart,
        units,
        potentials,
        near: Near {
            starts: &near_starts,
            list: &near,
        },
        images,
    };
    stage.list_first::<N, BORDERS>(&mut marks, buffer)
}
