// All right boards that extend a started puzzle.
#![tactic(auto)]

ghost use Rattle.std.specs.Prelude.{◌≡◌, eqb, position};
ghost use Rattle.answers.specs.Refusals.{code_of};
ghost use Rattle.lists.specs.Lists.{count};
ghost use Rattle.enumerate.specs.Boards.{places_code, boards_of, answer_in};

use answers::Refusal;
use puzzle::Puzzle;
use search::Rules;

mod search;

// More undecided borders are refused: a search may have to look at 2 to their number boards.
const UNDECIDED: usize = 24;

// What is answered: how many boards were written, and whether there are more.
#[derive(Clone, Copy)]
pub struct Listing {
    pub count: usize,
    pub more: bool,
}

// How many borders are undecided.
fn count_undecided(states: &[u8]) -> usize
    ensures { result ≡ count 0 states.now }
{
    states.iter().filter(|&&state| state == 0).count()
}

// The first undecided border.
fn first_undecided(states: &[u8]) -> Option<usize>
    ensures { result ≡ position (λ s. eqb s 0) states.now }
{
    states.iter().position(|&state| state == 0)
}

// Questions 12 and 6. The product of cap and borders may be too large for a number, so the places are divided instead.
fn check_places(states: &[u8], cap: usize, places: usize) -> Result<(), Refusal>
    ensures { code_of result ≡ places_code states.now cap places }
{
    if UNDECIDED < count_undecided(states) {
        return Err(Refusal::ManyUndecided);
    }
    if states.is_empty() {
        return Ok(());
    }
    if places / states.len() < cap {
        return Err(Refusal::ShortBuffer);
    }
    Ok(())
}

// Writes the right full boards on which the puzzle's decided borders stand, in rising order and as many as the cap, a byte for each border,
// and tells how many it wrote and whether there are more.
pub fn list_right_boards(p: &Puzzle, cap: usize, buffer: &mut [u8]) -> Result<Listing, Refusal>
    ensures value { answer_in result ≡ (boards_of p.now cap buffer.old).answer }
    ensures buffer_after { buffer.new ≡ (boards_of p.now cap buffer.old).buffer }
{
    p.check()?;
    let board = p.clued_board();
    let grid = board.borders.grid;
    let mut states = p.board.book.states;
    let states = &mut states[..grid.border_count()];
    check_places(states, cap, buffer.len())?;
    let rules = Rules {
        kind: p.kind,
        grid,
        given: board.given,
        clues: board.clues,
    };
    Ok(rules.search(states, cap, buffer))
}
