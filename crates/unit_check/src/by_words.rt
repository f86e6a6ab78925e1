// Whether a unit fits as one of several images, each tried by words.
ghost use Rattle.std.specs.Prelude.{◌≡◌};
ghost use Rattle.offsets.specs.Trial.{fits_at};
ghost use Rattle.row_trials.specs.Words.{Prepared};

use images::Image;
use offsets::trial::Trial;
use row_trials::unit_words::UnitWords;

// Whether a unit fits as one of these images, whose adjacent potential units are marked.
pub fn fits(trial: Trial<'_>, images: &[Image], words: &mut UnitWords<'_>) -> bool
    requires { Prepared trial.unit.chart.borders.grid trial.unit.chart.borders.states.now trial.unit.chart.table.now words.old }
    ensures value { result ≡ fits_at images.now trial.entry.unit.chart.borders.grid trial.entry.unit.chart.borders.states.now trial.entry.unit.chart.table.now trial.entry.unit.cells.now }
    ensures prepared { Prepared trial.entry.unit.chart.borders.grid trial.entry.unit.chart.borders.states.now trial.entry.unit.chart.table.now words.new }
{
    for &image in images {
        if row_trials::fits(trial, image, words) {
            return true;
        }
    }
    false
}
