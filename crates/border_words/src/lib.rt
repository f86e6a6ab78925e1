// Row words of a board's borders: where Walls stand, and where Connected borders, so that the borders of a unit are tried on a row of
// offsets at once.
#![tactic(auto)]

ghost use Rattle.std.specs.Prelude.{ℕ, ◌≡◌, ◌*◌, ◌≤◌, ◌<◌, eqb, get_or, length};
ghost use Rattle.words.specs.Words.{Only};
ghost use Rattle.border_words.specs.Sides.{BorderWords};
ghost use Rattle.border_words.specs.Filled.{SideWord, Unfilled};

use borders::Borders;
use grid::Grid;

// The word of a row of borders.
fn side_word(states: &[u8], state: u8) -> u64
    requires { length states.now ≤ 32 }
    ensures { Only (length states.now) (λ x. eqb (get_or states.now x 0) state) result }
{
    words::row(states.len(), |x| states[x] == state)
}

// The words of rows of borders, each `len` long, one behind the other.
fn fill_side(states: &[u8], len: usize, state: u8, words: &mut [u64])
    requires narrow { len ≤ 32 }
    requires states_long { length words.old * len ≤ length states.now }
    ensures long { length words.new ≡ length words.old }
    ensures rows { (y : ℕ) → y < length words.old → SideWord (y * len) len states.now state (get_or words.new y 0) }
{
    for (y, word) in words.iter_mut().enumerate() {
        let from = y * len;
        *word = side_word(&states[from..from + len], state);
    }
}

// All words of a board's borders, into a table that is blank: those of the borders under the cells of each row but the last, and of those
// right of them.
pub fn fill(borders: Borders<'_>, words: &mut [u64])
    requires words_long { 132 ≤ length words.old }
    requires unfilled { Unfilled words.old }
    ensures { BorderWords borders.entry.grid borders.entry.states.now words.new }
{
    let Grid { height, width } = borders.grid;
    let (right, down) = borders.states.split_at(height * (width - 1));
    fill_side(down, width, 2, &mut words[1..height]);
    fill_side(right, width - 1, 2, &mut words[33..33 + height]);
    fill_side(down, width, 1, &mut words[67..66 + height]);
    fill_side(right, width - 1, 1, &mut words[99..99 + height]);
}
