// Finding: the first unit that fits nowhere, as any of the images.
ghost use Rattle.std.specs.Prelude.{◌≡◌, ◌+◌, ◌*◌, ◌<◌, ◌≤◌, eqb, length};
ghost use Rattle.lists.specs.Choice.{both};
ghost use Rattle.grid.specs.Grid.{cells as cells_of};
ghost use Rattle.adjacency.specs.Adjacency.{Unmarked};
ghost use Rattle.answers.specs.Answers.{Finds};
ghost use Rattle.unit_check.specs.Units.{first_list};
ghost use Rattle.unit_check.specs.Find.{unit_cells, own_of, fits_in, tries_all, AllFit, MarkedFor, Sought, Unfit};

use crate::stage::Stage;
use crate::{by_words, soon};
use cell_words::Near;
use offsets::trial::Trial;
use offsets::unit::UnitCells;
use row_trials::unit_words::UnitWords;

// A search among a stage's units, which sets the marks of one unit after the other. There is a mark for each potential unit.
#[derive(Drop)]
pub struct Finder<'a, 'm> {
    pub stage: Stage<'a>,
    pub marks: &'m mut [u8],
    ghost marks_long: { length stage.potentials.starts.now ≤ length marks.now },
}

impl<'a> Stage<'a> {
    // A unit's cells on the board.
    #[inline(always)]
    fn unit(self, unit: usize) -> UnitCells<'a>
        requires { unit < length self.units.starts.now }
        ensures chart_is { result.chart ≡ self.entry.chart }
        ensures cells_are { result.cells.now ≡ unit_cells self.entry.chart.borders.grid self.entry.chart.table.now unit }
    {
        UnitCells {
            chart: self.chart,
            cells: self.units.cells(unit),
        }
    }

    // A unit with its marks, to be tried.
    #[inline(always)]
    fn trial(self, unit: usize, marks: &'a [u8]) -> Trial<'a>
        requires unit_exists { unit < length self.units.starts.now }
        requires marks_long { length self.potentials.starts.now ≤ length marks.now }
        requires marked { MarkedFor self.chart.borders.grid self.chart.borders.states.now self.chart.table.now unit marks.now }
        ensures chart_is { result.unit.chart ≡ self.entry.chart }
        ensures cells_are { result.unit.cells.now ≡ unit_cells self.entry.chart.borders.grid self.entry.chart.table.now unit }
    {
        Trial {
            unit: self.unit(unit),
            marks,
        }
    }

    // The own potential unit of a unit, the one around it.
    #[inline(always)]
    fn own(self, unit: usize) -> usize
        requires { unit < length self.units.starts.now }
        ensures { result ≡ own_of self.entry.chart.borders.grid self.entry.chart.table.now unit }
    {
        usize::from(self.unit(unit).first().potential)
    }

    // Whether a unit that fits at none of the places that are tried soon fits nowhere: on a small board, among translates alone.
    fn is_told_soon(self) -> bool
        ensures { result ≡ both (eqb (length self.entry.images.now) 1) (tries_all self.entry.chart.borders.grid) }
    {
        self.images.len() == 1 && soon::tries_all(self.chart.borders)
    }

    // How long the list is of the first unit that fits nowhere, if there is one. No mark is set before, and the arrays of codes have room for
    // those of any unit.
    pub fn list_first<const N: usize, const BORDERS: usize>(
        self,
        marks: &mut [u8],
        buffer: &mut [u16],
    ) -> Option<usize>
        requires marks_long { length self.potentials.starts.now ≤ length marks.old }
        requires unmarked { Unmarked marks.old }
        requires room { (cells_of self.chart.borders.grid ≤ N) × (6 * cells_of self.chart.borders.grid ≤ BORDERS) }
        requires arrays_small { (N ≤ 1024) × (BORDERS ≤ 6144) }
        requires enough { (length self.images.now + 8) * cells_of self.chart.borders.grid ≤ length buffer.old }
        ensures { Finds (first_list self.entry.images.now self.entry.chart.borders.grid self.entry.chart.borders.states.now self.entry.chart.table.now (length self.entry.potentials.starts.now) (length self.entry.units.starts.now)) buffer.old buffer.new result }
    {
        let mut finder = Finder { stage: self, marks };
        let unit = finder.find::<N, BORDERS>()?;
        Some(finder.write_list(unit, buffer))
    }
}

impl Finder<'_, '_> {
    ghost use Rattle.unit_check.specs.Finder.{Kept};

    // A unit with the marks of the search.
    #[inline(always)]
    pub fn trial(&self, unit: usize) -> Trial<'_>
        requires unit_exists { unit < length self.now.stage.units.starts.now }
        requires marked { MarkedFor self.now.stage.chart.borders.grid self.now.stage.chart.borders.states.now self.now.stage.chart.table.now unit self.now.marks.now }
        ensures chart_is { result.unit.chart ≡ self.now.stage.chart }
        ensures cells_are { result.unit.cells.now ≡ unit_cells self.now.stage.chart.borders.grid self.now.stage.chart.table.now unit }
    {
        self.stage.trial(unit, &*self.marks)
    }

    // Marks the potential units adjacent to a unit's own one, and no others, before its offsets begin.
    #[inline(always)]
    fn mark(&mut self, unit: usize)
        requires unit_exists { unit < length self.old.stage.units.starts.now }
        requires unmarked { Unmarked self.old.marks.now }
        ensures kept { Kept self.old self.new }
        ensures marked { MarkedFor self.old.stage.chart.borders.grid self.old.stage.chart.borders.states.now self.old.stage.chart.table.now unit self.new.marks.now }
    {
        let own = self.stage.own(unit);
        self.stage.near.mark(own, self.marks);
    }

    // Takes these marks away again, before the next unit's are set.
    #[inline(always)]
    fn unmark(&mut self, unit: usize)
        requires unit_exists { unit < length self.old.stage.units.starts.now }
        requires marked { MarkedFor self.old.stage.chart.borders.grid self.old.stage.chart.borders.states.now self.old.stage.chart.table.now unit self.old.marks.now }
        ensures kept { Kept self.old self.new }
        ensures unmarked { Unmarked self.new.marks.now }
    {
        let own = self.stage.own(unit);
        self.stage.near.unmark(own, self.marks);
    }

    // The first unit from one on that fits as a translate at none of the places that are tried soon, for which the marks are left set. On a small board
    // none of its translates fits.
    fn find_soon(&mut self, from: usize) -> Option<usize>
        requires unmarked { Unmarked self.old.marks.now }
        requires all_fit { AllFit (fits_in self.old.stage.images.now self.old.stage.chart.borders.grid self.old.stage.chart.borders.states.now self.old.stage.chart.table.now) (length self.old.stage.units.starts.now) from }
        ensures kept { Kept self.old self.new }
        ensures sought { Sought self.old.stage.images.now self.old.stage.chart.borders.grid self.old.stage.chart.borders.states.now self.old.stage.chart.table.now (length self.old.stage.units.starts.now) from self.new.marks.now result }
    {
        for unit in from..self.stage.units.len() {
            self.mark(unit);
            if !soon::fits_soon(self.trial(unit)) {
                return Some(unit);
            }
            self.unmark(unit);
        }
        None
    }

    // The first unit from one on that fits nowhere, for which the marks are left set. The unit to begin with has its marks, and fits at none of
    // the places that are tried soon. The arrays of codes have room for those of any unit.
    fn find_by_words<const N: usize, const BORDERS: usize>(&mut self, from: usize) -> Option<usize>
        requires room { (cells_of self.old.stage.chart.borders.grid ≤ N) × (6 * cells_of self.old.stage.chart.borders.grid ≤ BORDERS) }
        requires arrays_small { (N ≤ 1024) × (BORDERS ≤ 6144) }
        requires from_exists { from < length self.old.stage.units.starts.now }
        requires all_fit { AllFit (fits_in self.old.stage.images.now self.old.stage.chart.borders.grid self.old.stage.chart.borders.states.now self.old.stage.chart.table.now) (length self.old.stage.units.starts.now) from }
        requires marked { MarkedFor self.old.stage.chart.borders.grid self.old.stage.chart.borders.states.now self.old.stage.chart.table.now from self.old.marks.now }
        ensures kept { Kept self.old self.new }
        ensures unfit { Unfit self.old.stage.images.now self.old.stage.chart.borders.grid self.old.stage.chart.borders.states.now self.old.stage.chart.table.now (length self.old.stage.units.starts.now) self.new.marks.now result }
    {
        let mut board = [0; 132];
        border_words::fill(self.stage.chart.borders, &mut board);
        let mut near_words = [0; 32];
        let mut stamps = [None; 32];
        let mut codes = [0; N];
        let mut borders = [0; BORDERS];
        let mut words = UnitWords {
            full: words::full_word(self.stage.chart.borders.grid.width),
            board: &board,
            codes: &mut codes,
            borders: &mut borders,
            near: Near {
                words: &mut near_words,
                stamps: &mut stamps,
            },
        };
        let mut next = Some(from);
        while let Some(unit) = next {
            let trial = self.trial(unit);
            if !by_words::fits(trial, self.stage.images, &mut words) {
                return next;
            }
            self.unmark(unit);
            next = self.find_soon(unit + 1);
        }
        None
    }

    // The first unit that fits nowhere, for which the marks are left set. A unit that is the whole board fits nowhere. Words are made only once a
    // unit fits at none of the offsets that are tried soon.
    pub fn find<const N: usize, const BORDERS: usize>(&mut self) -> Option<usize>
        requires room { (cells_of self.old.stage.chart.borders.grid ≤ N) × (6 * cells_of self.old.stage.chart.borders.grid ≤ BORDERS) }
        requires arrays_small { (N ≤ 1024) × (BORDERS ≤ 6144) }
        requires unmarked { Unmarked self.old.marks.now }
        ensures kept { Kept self.old self.new }
        ensures unfit { Unfit self.old.stage.images.now self.old.stage.chart.borders.grid self.old.stage.chart.borders.states.now self.old.stage.chart.table.now (length self.old.stage.units.starts.now) self.new.marks.now result }
    {
        if self.stage.units.len() == 1 {
            self.mark(0);
            return Some(0);
        }
        let unit = self.find_soon(0)?;
        if self.stage.is_told_soon() {
            return Some(unit);
        }
        self.find_by_words::<N, BORDERS>(unit)
    }
}
