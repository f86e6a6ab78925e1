// What a puzzle's making asks of its lists, the given walls and the clues: questions 3, 7, 8 and 9.
#![tactic(auto)]

ghost use Rattle.std.specs.Prelude.{◌≡◌, ◌≤◌, ltb, length};
ghost use Rattle.limits.specs.Limits.{most_cells};
ghost use Rattle.lists.specs.Lists.{all};
ghost use Rattle.answers.specs.Refusals.{code_of};
ghost use Rattle.grid.specs.Grid.{Limits, cells};
ghost use Rattle.rooms.specs.Lent.{Given};
ghost use Rattle.clues.specs.Clues.{rises, all_fit, rooms_code, lists_code};

use answers::Refusal;
use grid::Grid;

// Question 3: each given wall is below n. A list that is longer than any that rises is read up to its first number that is too large, and no further.
fn exist(given: &[u16], n: usize) -> bool
    ensures { result ≡ all (λ e. ltb e n) given.now }
{
    if limits::BORDERS < given.len() {
        return given.iter().all(|&wall| usize::from(wall) < n);
    }
    lists::all_below(given, n)
}

// Question 7: the given walls rise strictly.
fn rise(given: &[u16]) -> bool
    ensures { result ≡ rises given.now }
{
    given.is_sorted_by(|a, b| a < b)
}

// Question 9: each room's clue is 65535 or at most its size.
fn clues_fit(clues: &[u16], sizes: &[u16]) -> bool
    requires { length clues.now ≤ length sizes.now }
    ensures { result ≡ all_fit sizes.now clues.now }
{
    clues
        .iter()
        .zip(sizes)
        .all(|(&clue, &size)| clue == limits::NO_CLUE || clue <= size)
}

// Questions 8 and 9 of given walls and clues, by arrays with a place for each cell. Never inlined, so that lists that an earlier question refuses
// cost no stack for the arrays.
#[inline(never)]
fn check_rooms<const N: usize>(grid: Grid, given: &[u16], clues: &[u16]) -> Result<(), Refusal>
    requires given { Given grid given.now }
    requires room { (cells grid ≤ N) × (N ≤ most_cells) }
    ensures { code_of result ≡ rooms_code grid given.now clues.now }
{
    let mut ids = [0u16; N];
    let mut sizes = [0u16; N];
    let count = rooms::rooms_of(grid, given, &mut ids, &mut sizes);
    if clues.len() != count {
        return Err(Refusal::ClueCount);
    }
    if !clues_fit(clues, &sizes) {
        return Err(Refusal::LargeClue);
    }
    Ok(())
}

// Questions 3, 7, 8 and 9 of given walls and clues. A small board has short arrays, since all of an array is zeroed.
pub fn check_lists(grid: Grid, given: &[u16], clues: &[u16]) -> Result<(), Refusal>
    requires { Limits grid }
    ensures { code_of result ≡ lists_code grid given.now clues.now }
{
    if !exist(given, grid.border_count()) {
        return Err(Refusal::Missing);
    }
    if !rise(given) {
        return Err(Refusal::Unsorted);
    }
    if grid.is_small() {
        check_rooms::<128>(grid, given, clues)
    } else {
        check_rooms::<{ limits::CELLS }>(grid, given, clues)
    }
}
