// An image of a unit that is to be tried a row of offsets at a time.
ghost use Rattle.row_trials.specs.Coded.{CodedUnit};

use images::Image;
use offsets::trial::Trial;
use unit_codes::turned::Rows;

// A unit's trial, the image and the rows that the unit spans there, its codes, the word of a whole row, the words of the board's borders and of the
// unit's own cells; and the offsets at which all cells of the image stay in their rows.
#[derive(Clone, Copy)]
pub struct Coded<'a> {
    pub trial: Trial<'a>,
    pub image: Image,
    pub rows: Rows,
    pub codes: &'a [u16],
    pub borders: &'a [u16],
    pub full: u64,
    pub words: &'a [u64],
    pub inside: &'a [u64],
    pub on: u64,
    ghost coded: { CodedUnit image trial.unit.chart.borders.grid trial.unit.chart.borders.states.now trial.unit.chart.table.now trial.unit.cells.now rows codes.now borders.now full words.now inside.now on },
}
