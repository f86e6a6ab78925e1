// Whether an image of a unit fits somewhere, decided a row of offsets at a time: bit x of a word speaks of the offset that puts a cell of the
// image's first row on column x of a row.
#![tactic(auto)]

ghost use Rattle.std.specs.Prelude.{◌≡◌, ◌-◌, ◌≤◌, ◌<◌, length};
ghost use Rattle.offsets.specs.Table.{potentials_in};
ghost use Rattle.offsets.specs.Trial.{fits_as};
ghost use Rattle.words.specs.Words.{Readable};
ghost use Rattle.cell_words.specs.Cells.{Stamped};
ghost use Rattle.row_trials.specs.Coded.{Asking};
ghost use Rattle.row_trials.specs.Rows.{rows_good, left_at, Found, Held};
ghost use Rattle.row_trials.specs.Words.{Left};

use cell_words::Near;
use cell_words::marked::Marked;
use coded::Coded;
use images::{Image, TRANSLATE};
use offsets::chart::Chart;
use offsets::trial::Trial;
use unit_codes::turned::{Turned, find_rows};
use unit_words::UnitWords;

mod coded;
pub mod unit_words;

impl Coded<'_> {
    // Whether the image fits with its first row in row `t`: of the offsets at which it reaches a cell that is near, one puts no cell on the unit
    // itself and lands no border badly.
    fn row_fits(&self, near: &Near<'_>, t: usize) -> bool
        requires readable { Readable near.now.words.now self.now.codes.now t }
        requires readable_2 { Readable self.now.inside.now self.now.codes.now t }
        requires readable_3 { Readable self.now.words.now self.now.borders.now t }
        ensures { Found (left_at self.now.on near.now.words.now self.now.inside.now self.now.words.now self.now.codes.now self.now.borders.now t) result }
    {
        let good = self.on & words::gathered(&*near.words, self.codes, t);
        if good == 0 {
            return false;
        }
        let over = words::gathered(self.inside, self.codes, t);
        let worse = words::gathered(self.words, self.borders, t);
        good & (over | worse) != good
    }

    // Whether the image fits with its first row in a row from one up to another.
    fn fits_between(&self, from: usize, to: usize, near: &mut Near<'_>) -> bool
        requires stamped { Stamped self.now.trial.unit.chart.borders.grid self.now.trial.unit.chart.borders.states.now (potentials_in self.now.trial.unit.chart.borders.grid self.now.trial.unit.chart.table.now) near.old }
        requires from_le_to { (from ≤ to) × (to ≤ self.now.trial.unit.chart.borders.grid.height - self.now.rows.tall) }
        ensures value { result ≡ rows_good self.now.image self.now.trial.unit.chart.borders.grid self.now.trial.unit.chart.borders.states.now self.now.trial.unit.chart.table.now self.now.trial.unit.cells.now self.now.rows.top from to }
        ensures held { Held self.now.trial.unit.chart.borders.grid self.now.trial.unit.chart.borders.states.now (potentials_in self.now.trial.unit.chart.borders.grid self.now.trial.unit.chart.table.now) near.old near.new }
    {
        let unit = self.trial.unit;
        let marked = Marked {
            grid: unit.chart.borders.grid,
            states: unit.chart.borders.states,
            table: unit.chart.table,
            marks: self.trial.marks,
            own: unit.first().potential,
        };
        for t in from..to {
            near.stamp_rows(marked, t, t + self.rows.tall + 1);
            if self.row_fits(near, t) {
                return true;
            }
        }
        false
    }

    // Whether the image fits somewhere: from just above the unit's own rows on, and then before them, since what is adjacent is near. An image that
    // is taller than the board fits nowhere.
    fn fits_somewhere(&self, row: usize, near: &mut Near<'_>) -> bool
        requires stamped { Stamped self.now.trial.unit.chart.borders.grid self.now.trial.unit.chart.borders.states.now (potentials_in self.now.trial.unit.chart.borders.grid self.now.trial.unit.chart.table.now) near.old }
        requires row_in { row < self.now.trial.unit.chart.borders.grid.height }
        ensures value { result ≡ fits_as self.now.trial.unit.chart.borders.grid self.now.trial.unit.chart.borders.states.now self.now.trial.unit.chart.table.now self.now.trial.unit.cells.now self.now.image }
        ensures held { Held self.now.trial.unit.chart.borders.grid self.now.trial.unit.chart.borders.states.now (potentials_in self.now.trial.unit.chart.borders.grid self.now.trial.unit.chart.table.now) near.old near.new }
    {
        let tall = self.rows.tall;
        let end = self
            .trial
            .unit
            .chart
            .borders
            .grid
            .height
            .saturating_sub(tall);
        let low = row.saturating_sub(tall + 1);
        self.fits_between(low, end, near) || self.fits_between(0, low, near)
    }
}

// Whether an image of a unit fits somewhere. Inlined, so that nothing is turned where the image is known to be a translate.
#[inline(always)]
fn fits_turned(
    trial: Trial<'_>,
    image: Image,
    full: u64,
    words: &[u64],
    codes: &mut [u16],
    borders: &mut [u16],
    near: &mut Near<'_>,
) -> bool
    requires asking { Asking trial.unit.chart.borders.grid trial.unit.chart.borders.states.now trial.unit.cells.now full words.now (length codes.old) (length borders.old) }
    requires stamped { Stamped trial.unit.chart.borders.grid trial.unit.chart.borders.states.now (potentials_in trial.unit.chart.borders.grid trial.unit.chart.table.now) near.old }
    ensures value { result ≡ fits_as trial.entry.unit.chart.borders.grid trial.entry.unit.chart.borders.states.now trial.entry.unit.chart.table.now trial.entry.unit.cells.now image }
    ensures held { Held trial.entry.unit.chart.borders.grid trial.entry.unit.chart.borders.states.now (potentials_in trial.entry.unit.chart.borders.grid trial.entry.unit.chart.table.now) near.old near.new }
{
    let unit = trial.unit;
    let rows = find_rows(unit, image);
    let turned = Turned { unit, image, rows };
    let count = unit_codes::write_cells(turned, codes);
    let more = unit_codes::write_borders(turned, borders);
    let mut inside = [0; 32];
    let Chart {
        borders: board,
        table,
        ..
    } = unit.chart;
    cell_words::add_cells(board.grid, table, unit.cells, &mut inside);
    let codes = &codes[..count];
    let coded = Coded {
        trial,
        image,
        rows,
        codes,
        borders: &borders[..more],
        full,
        words,
        inside: &inside,
        on: words::common(full, codes),
    };
    coded.fits_somewhere(usize::from(unit.first().row), near)
}

// Whether an image of a unit fits somewhere, whose adjacent potential units are marked. A translate has a branch of its own, which turns nothing:
// one for all images took up to a fifth longer.
pub fn fits(trial: Trial<'_>, image: Image, words: &mut UnitWords<'_>) -> bool
    requires asking { Asking trial.unit.chart.borders.grid trial.unit.chart.borders.states.now trial.unit.cells.now words.old.full words.old.board.now (length words.old.codes.now) (length words.old.borders.now) }
    requires stamped { Stamped trial.unit.chart.borders.grid trial.unit.chart.borders.states.now (potentials_in trial.unit.chart.borders.grid trial.unit.chart.table.now) words.old.near }
    ensures value { result ≡ fits_as trial.entry.unit.chart.borders.grid trial.entry.unit.chart.borders.states.now trial.entry.unit.chart.table.now trial.entry.unit.cells.now image }
    ensures left { Left trial.entry.unit.chart.borders.grid trial.entry.unit.chart.borders.states.now trial.entry.unit.chart.table.now words.old words.new }
{
    if image == TRANSLATE {
        return fits_turned(
            trial,
            TRANSLATE,
            words.full,
            words.board,
            words.codes,
            words.borders,
            &mut words.near,
        );
    }
    fits_turned(
        trial,
        image,
        words.full,
        words.board,
        words.codes,
        words.borders,
        &mut words.near,
    )
}
