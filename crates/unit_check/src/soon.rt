// The offsets at which a unit is tried as a translate before it is tried by words: on most boards one of them is good for almost every unit, since
// what is adjacent is near.
ghost use Rattle.std.specs.Prelude.{◌≡◌, true, ◌+◌, ◌-◌, ◌≤◌, ltb};
ghost use Rattle.lists.specs.Choice.{both};
ghost use Rattle.grid.specs.Grid.{cells as cells_of};
ghost use Rattle.shape.specs.Shape.{is_good};
ghost use Rattle.images.specs.Images.{translate};
ghost use Rattle.offsets.specs.Trial.{tried_at, fits_as};
ghost use Rattle.unit_check.specs.Find.{tries_all};

use borders::Borders;
use images::TRANSLATE;
use offsets::trial::Trial;
use offsets::unit::UnitCells;

// Whether the offset that puts the unit's first cell on `to` is good; where there is no such cell, it is not.
fn is_good_at(trial: Trial<'_>, to: usize) -> bool
    ensures { result ≡ both (ltb to (cells_of trial.entry.unit.chart.borders.grid)) (is_good (tried_at translate trial.entry.unit.chart.borders.grid trial.entry.unit.chart.borders.states.now trial.entry.unit.chart.table.now trial.entry.unit.cells.now to)) }
{
    to < trial.unit.chart.borders.grid.cell_count() && trial.is_good_at(TRANSLATE, to)
}

// How many cells the unit's longest run has, of cells whose numbers follow one another. Where these are in one row, the unit would fall on
// itself if it were moved to the side by fewer columns.
fn longest_run(unit: UnitCells<'_>) -> usize
    ensures { result ≤ 1024 }
{
    let mut longest = 1;
    let mut run = 1;
    for &[before, cell] in unit.cells.array_windows::<2>() {
        let follows = usize::from(before) + 1 == usize::from(cell);
        run = if follows { run + 1 } else { 1 };
        longest = longest.max(run);
    }
    longest
}

// The cell beside the unit to the right of its first cell, where its longest run has so many cells.
fn right_of(unit: UnitCells<'_>, run: usize) -> usize
    requires { run ≤ 1024 }
{
    usize::from(unit.cells[0]) + run
}

// The cell beside the unit to the left of its first cell; the board's first cell where there is none.
fn left_of(unit: UnitCells<'_>, run: usize) -> usize {
    usize::from(unit.cells[0]).saturating_sub(run)
}

// The cell under the unit's last row, in the column of its first cell.
fn under(unit: UnitCells<'_>) -> usize {
    let first = unit.first();
    let last = unit.last();
    (usize::from(last.row) + 1) * unit.chart.borders.grid.width + usize::from(first.col)
}

// Whether the board is so small that all offsets of a translate are tried one by one, and so none of a translate by words.
pub fn tries_all(borders: Borders<'_>) -> bool
    ensures { result ≡ tries_all borders.entry.grid }
{
    borders.grid.cell_count() <= 25
}

// In how many turns a place beside the unit is tried; on a small board the place left of it soon has its turn anyway.
fn turns_beside(borders: Borders<'_>) -> usize
    ensures { result ≤ 3 }
{
    if tries_all(borders) { 2 } else { 3 }
}

// How many turns there are: after those beside the unit all places on a small board, or else the first one.
fn turns(borders: Borders<'_>, beside: usize) -> usize
    requires { beside ≤ 3 }
    ensures upper_bound { result ≤ 28 }
    ensures value { tries_all borders.entry.grid ≡ true → result ≡ beside + cells_of borders.entry.grid }
{
    if tries_all(borders) {
        return beside + borders.grid.cell_count();
    }
    beside + 1
}

// The place that is tried in turn `i`: right of the unit, under it, left of it, and behind the turns beside it all places from the first on.
fn place(unit: UnitCells<'_>, run: usize, beside: usize, i: usize) -> usize
    requires { run ≤ 1024 }
    ensures { beside ≤ i → result ≡ i - beside }
{
    if beside <= i {
        return i - beside;
    }
    match i {
        0 => right_of(unit, run),
        1 => under(unit),
        _ => left_of(unit, run),
    }
}

// Whether a translate fits at one of the places that are tried soon; on a small board, whether one fits somewhere. One loop has all turns, so that
// a trial is compiled into it.
pub fn fits_soon(trial: Trial<'_>) -> bool
    ensures cells_value { result ≡ true → fits_as trial.entry.unit.chart.borders.grid trial.entry.unit.chart.borders.states.now trial.entry.unit.chart.table.now trial.entry.unit.cells.now translate ≡ true }
    ensures value { tries_all trial.entry.unit.chart.borders.grid ≡ true → result ≡ fits_as trial.entry.unit.chart.borders.grid trial.entry.unit.chart.borders.states.now trial.entry.unit.chart.table.now trial.entry.unit.cells.now translate }
{
    let borders = trial.unit.chart.borders;
    let run = longest_run(trial.unit);
    let beside = turns_beside(borders);
    for i in 0..turns(borders, beside) {
        if is_good_at(trial, place(trial.unit, run, beside, i)) {
            return true;
        }
    }
    false
}
