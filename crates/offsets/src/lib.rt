// One unit at one offset of the shape check: passed over, good, or failed at a landing.
#![tactic(auto)]

ghost use Rattle.std.specs.Prelude.{◌≡◌};
ghost use Rattle.lists.specs.Lists.{all};
ghost use Rattle.grid.specs.Grid.{Cell};
ghost use Rattle.shape.specs.Shape.{head_or0, is_good};
ghost use Rattle.offsets.specs.Told.{told};
ghost use Rattle.offsets.specs.Table.{unit_in, units_in, potentials_in};
ghost use Rattle.offsets.specs.Reach.{Small, reaches_of};
ghost use Rattle.offsets.specs.Landings.{Falling, failure_of, lands_well};
ghost use Rattle.offsets.specs.Trial.{shift_of, tried_at};

use chart::Chart;
use images::Image;
use landings::Kind;
use shape::Try;
use shift::Shift;
use trial::Trial;
use unit::UnitCells;

pub mod chart;
pub mod landings;
mod places;
pub mod shift;
pub mod sides;
pub mod table;
pub mod trial;
pub mod unit;

impl UnitCells<'_> {
    // Where an image puts the cells, whose first cell goes to `to`.
    #[inline(always)]
    fn shift_to(self, image: Image, to: usize) -> Shift
        requires { Cell self.chart.borders.grid to }
        ensures { result ≡ shift_of image self.entry.chart.borders.grid (unit_in self.entry.chart.table.now (head_or0 self.entry.cells.now)) (head_or0 self.entry.cells.now) to }
    {
        let first = self.first();
        Shift {
            unit: first.unit,
            image,
            from: image.spot(self.chart.borders.grid, first.spot()),
            to: self.chart.table[to].spot(),
        }
    }

    // The entry of its first border that lands badly: inner borders first.
    #[inline(always)]
    fn failure(self, shift: Shift) -> Option<u16>
        requires { Falling self.chart.borders.grid self.cells.now shift }
        ensures { result ≡ told (failure_of self.entry.chart.borders.grid shift self.entry.chart.borders.states.now (units_in self.entry.chart.borders.grid self.entry.chart.table.now) self.entry.cells.now) }
    {
        if let Some(entry) = self.chart.first_failure(shift, Kind::Inner, self.cells) {
            return Some(entry);
        }
        self.chart.first_failure(shift, Kind::Outer, self.cells)
    }
}

impl UnitCells<'_> {
    // Whether all its borders land well, by the cells on which its own fall: whether `failure` finds none.
    #[inline(always)]
    fn lands_well(self, shift: Shift) -> bool
        requires { Falling self.chart.borders.grid self.cells.now shift }
        ensures { result ≡ all (lands_well self.entry.chart.borders.grid shift self.entry.chart.borders.states.now (units_in self.entry.chart.borders.grid self.entry.chart.table.now)) self.entry.cells.now }
    {
        let Chart { borders, table, .. } = self.chart;
        for &cell in self.cells {
            let cell = usize::from(cell);
            let Some(fallen) = shift.falls(borders.grid, table[cell].spot()) else {
                return false;
            };
            if self.chart.has_bad(shift, cell, fallen) {
                return false;
            }
        }
        true
    }
}

impl Trial<'_> {
    // An offset that is not passed over: all cells fall on the board and off the unit, and one falls in a marked potential unit.
    #[inline(always)]
    fn reaches(self, shift: Shift) -> bool
        requires { Small self.unit.chart.borders.grid shift }
        ensures { result ≡ reaches_of self.entry.unit.chart.borders.grid shift (units_in self.entry.unit.chart.borders.grid self.entry.unit.chart.table.now) (potentials_in self.entry.unit.chart.borders.grid self.entry.unit.chart.table.now) self.entry.marks.now self.entry.unit.cells.now }
    {
        let Chart { borders, table, .. } = self.unit.chart;
        let mut met = false;
        for &cell in self.unit.cells {
            let spot = table[usize::from(cell)].spot();
            let Some(fallen) = shift.falls(borders.grid, spot) else {
                return false;
            };
            let beneath = &table[fallen];
            if beneath.unit == shift.unit {
                return false;
            }
            met |= self.marks[usize::from(beneath.potential)] != 0;
        }
        met
    }

    // What comes of an image of the unit with its first cell put on `to`.
    pub fn at(self, image: Image, to: usize) -> Try
        requires { Cell self.unit.chart.borders.grid to }
        ensures { result ≡ tried_at image self.entry.unit.chart.borders.grid self.entry.unit.chart.borders.states.now self.entry.unit.chart.table.now self.entry.unit.cells.now to }
    {
        let shift = self.unit.shift_to(image, to);
        if !self.reaches(shift) {
            return Try::Passed;
        }
        match self.unit.failure(shift) {
            Some(entry) => Try::Failed(entry),
            None => Try::Good,
        }
    }

    // Whether that offset is good. The trials that need no entry are compiled into their loop.
    #[inline(always)]
    pub fn is_good_at(self, image: Image, to: usize) -> bool
        requires { Cell self.unit.chart.borders.grid to }
        ensures { result ≡ is_good (tried_at image self.entry.unit.chart.borders.grid self.entry.unit.chart.borders.states.now self.entry.unit.chart.table.now self.entry.unit.cells.now to) }
    {
        let shift = self.unit.shift_to(image, to);
        self.reaches(shift) && self.unit.lands_well(shift)
    }
}
