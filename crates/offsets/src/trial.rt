// A unit that is to be tried, and the marks of the potential units adjacent to its own.
ghost use Rattle.offsets.specs.Trial.{Placed};

use crate::unit::UnitCells;

#[derive(Clone, Copy)]
pub struct Trial<'a> {
    pub unit: UnitCells<'a>,
    pub marks: &'a [u8],
    ghost placed: { Placed unit.chart.borders.grid unit.chart.borders.states.now unit.chart.table.now marks.now unit.cells.now },
}
