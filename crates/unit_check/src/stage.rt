// A board's units, and the potential units around them.
ghost use Rattle.std.specs.Prelude.{length};
ghost use Rattle.lists.specs.Lists.{In};
ghost use Rattle.images.specs.Images.{translate};
ghost use Rattle.unit_check.specs.Stage.{Finding};

use adjacency::Near;
use groups::Groups;
use images::Image;
use offsets::chart::Chart;

// A board's units and potential units, with the lists of the adjacent ones of each potential unit, and the images as which a unit is tried.
#[derive(Clone, Copy)]
pub struct Stage<'a> {
    pub chart: Chart<'a>,
    pub units: Groups<'a>,
    pub potentials: Groups<'a>,
    pub near: Near<'a>,
    pub images: &'a [Image],
    ghost finding: { Finding chart.borders.grid chart.borders.states.now chart.table.now units.grid units.ids.now potentials.grid potentials.ids.now (length potentials.starts.now) near.starts.now near.list.now },
    ghost translates: { ∥ In translate images.now ∥₁ },
}
