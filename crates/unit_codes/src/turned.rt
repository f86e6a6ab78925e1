// An image of a unit: where its cells stand in it, and which rows they span.
ghost use Rattle.std.specs.Prelude.{◌≡◌, ◌%◌};
ghost use Rattle.grid.specs.Grid.{Cell};
ghost use Rattle.unit_codes.specs.Spans.{Stands, Spans};

use images::{Image, Spot};
use offsets::chart::Chart;
use offsets::unit::UnitCells;

// Where a cell stands in an image of the board.
#[inline(always)]
pub fn place(chart: Chart<'_>, image: Image, cell: usize) -> Spot
    requires { Cell chart.borders.grid cell }
    ensures { Stands image chart.entry.borders.grid cell result }
{
    image.spot(chart.borders.grid, chart.table[cell].spot())
}

// The rows that a unit spans in an image: a cell in the first, where that stands, and how many rows there are after the first.
#[derive(Clone, Copy)]
pub struct Rows {
    pub top: usize,
    pub from: Spot,
    pub tall: usize,
}

// In an image that keeps the rows the unit's first and last cell are in the first and the last of them.
#[inline(always)]
fn kept_rows(unit: UnitCells<'_>, image: Image) -> Rows
    requires { image.number % 4 ≡ 0 }
    ensures { Spans image unit.entry.chart.borders.grid unit.entry.cells.now result }
{
    let top = usize::from(unit.cells[0]);
    let end = usize::from(unit.cells[unit.cells.len() - 1]);
    let from = place(unit.chart, image, top);
    let last = place(unit.chart, image, end);
    Rows {
        top,
        from,
        tall: last.row - from.row,
    }
}

// In any image they are found cell by cell.
#[inline(always)]
fn sought_rows(unit: UnitCells<'_>, image: Image) -> Rows
    ensures { Spans image unit.entry.chart.borders.grid unit.entry.cells.now result }
{
    let mut top = usize::from(unit.cells[0]);
    let mut from = place(unit.chart, image, top);
    let mut last = from.row;
    for &cell in unit.cells {
        let cell = usize::from(cell);
        let at = place(unit.chart, image, cell);
        if at.row < from.row {
            top = cell;
            from = at;
        } else if last < at.row {
            last = at.row;
        }
    }
    Rows {
        top,
        from,
        tall: last - from.row,
    }
}

// The rows that a unit spans in an image.
#[inline(always)]
pub fn find_rows(unit: UnitCells<'_>, image: Image) -> Rows
    ensures { Spans image unit.entry.chart.borders.grid unit.entry.cells.now result }
{
    if image.number % 4 == 0 {
        return kept_rows(unit, image);
    }
    sought_rows(unit, image)
}

// A unit in an image.
#[derive(Clone, Copy)]
pub struct Turned<'a> {
    pub unit: UnitCells<'a>,
    pub image: Image,
    pub rows: Rows,
    ghost spans: { Spans image unit.chart.borders.grid unit.cells.now rows },
}
