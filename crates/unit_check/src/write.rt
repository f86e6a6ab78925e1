// Writing the list of the unit that fits nowhere: its failed landings, its boundary list, and those of the adjacent potential units.
ghost use Rattle.std.specs.Prelude.{◌+◌, ◌*◌, ◌<◌, ◌≤◌, length};
ghost use Rattle.grid.specs.Grid.{cells as cells_of};
ghost use Rattle.boundary.specs.Appended.{Appended};
ghost use Rattle.boundary.specs.Writes.{Writes};
ghost use Rattle.shape.specs.Shape.{entry_of};
ghost use Rattle.unit_check.specs.Find.{unit_cells, MarkedFor};
ghost use Rattle.unit_check.specs.Write.{failures_as, failures_at, near_boundaries, list_at};

use crate::find::Finder;
use crate::stage::Stage;
use boundary::{Entries, Outline};
use images::Image;
use offsets::trial::Trial;
use shape::Try;

// Writes the entry of a failed landing.
fn note(t: Try, list: &mut Entries<'_>)
    requires { list.old.len + length (entry_of t) ≤ length list.old.buffer.now }
    ensures { Writes (entry_of t) list.old list.new }
{
    if let Try::Failed(entry) = t {
        list.push(entry);
    }
}

// Writes the failed landings of all offsets of an image.
fn write_landings(trial: Trial<'_>, image: Image, list: &mut Entries<'_>)
    requires { list.old.len + length (failures_as trial.unit.chart.borders.grid trial.unit.chart.borders.states.now trial.unit.chart.table.now trial.unit.cells.now image) ≤ length list.old.buffer.now }
    ensures { Writes (failures_as trial.entry.unit.chart.borders.grid trial.entry.unit.chart.borders.states.now trial.entry.unit.chart.table.now trial.entry.unit.cells.now image) list.old list.new }
{
    for to in 0..trial.unit.chart.borders.grid.cell_count() {
        note(trial.at(image, to), list);
    }
}

// Writes those of all offsets, image by image.
fn write_images(trial: Trial<'_>, images: &[Image], list: &mut Entries<'_>)
    requires { list.old.len + length (failures_at images.now trial.unit.chart.borders.grid trial.unit.chart.borders.states.now trial.unit.chart.table.now trial.unit.cells.now) ≤ length list.old.buffer.now }
    ensures { Writes (failures_at images.now trial.entry.unit.chart.borders.grid trial.entry.unit.chart.borders.states.now trial.entry.unit.chart.table.now trial.entry.unit.cells.now) list.old list.new }
{
    for &image in images {
        write_landings(trial, image, list);
    }
}

impl Finder<'_, '_> {
    // Appends the boundary lists of all marked potential units, in rising number.
    fn append_near(&self, list: &mut Entries<'_>)
        requires { list.old.len + length (near_boundaries self.now.stage.chart.borders.grid self.now.stage.chart.borders.states.now self.now.stage.potentials.ids.now self.now.marks.now (length self.now.stage.potentials.starts.now)) ≤ length list.old.buffer.now }
        ensures { Writes (near_boundaries self.now.stage.chart.borders.grid self.now.stage.chart.borders.states.now self.now.stage.potentials.ids.now self.now.marks.now (length self.now.stage.potentials.starts.now)) list.old list.new }
    {
        let Stage {
            chart,
            potentials,
            ..
        } = self.stage;
        for (number, &mark) in self.marks[..potentials.len()].iter().enumerate() {
            if mark != 0 {
                Outline::of(chart.borders, potentials, true, number).append(list);
            }
        }
    }

    // The whole list of a unit, whose adjacent potential units are marked; returns its length.
    pub fn write_list(&self, unit: usize, buffer: &mut [u16]) -> usize
        requires unit_exists { unit < length self.now.stage.units.starts.now }
        requires marked { MarkedFor self.now.stage.chart.borders.grid self.now.stage.chart.borders.states.now self.now.stage.chart.table.now unit self.now.marks.now }
        requires enough { (length self.now.stage.images.now + 8) * cells_of self.now.stage.chart.borders.grid ≤ length buffer.old }
        ensures { Appended buffer.old 0 (list_at self.now.stage.images.now self.now.stage.chart.borders.grid self.now.stage.chart.borders.states.now self.now.stage.chart.table.now (length self.now.stage.potentials.starts.now) (unit_cells self.now.stage.chart.borders.grid self.now.stage.chart.table.now unit)) buffer.new result }
    {
        let mut list = Entries { buffer, len: 0 };
        write_images(self.trial(unit), self.stage.images, &mut list);
        let Stage { chart, units, .. } = self.stage;
        Outline::of(chart.borders, units, false, unit).append(&mut list);
        self.append_near(&mut list);
        list.len
    }
}
