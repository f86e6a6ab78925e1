// Path lists (`reason_for_path`): the borders by which a first-in first-out search joins two cells.
#![tactic(auto)]

ghost use Rattle.std.specs.Prelude.{◌≡◌, List, ℕ, ◌*◌, ◌≤◌, length};
ghost use Rattle.std.proofs.lemmas.List.Edits.{sets};
ghost use Rattle.grid.specs.Grid.{Cell};
ghost use Rattle.path.specs.Path.{look as look_of, look_all, search as search_of, path_of, path_list};
ghost use Rattle.answers.specs.Answers.{written};
ghost use Rattle.answers.specs.Refusals.{Lists};
ghost use Rattle.path.specs.Answer.{joined, path_outcome};
ghost use Rattle.path.specs.Trace.{Traced, LooksFrom, Follows, Fresh, Back, Walks};

use answers::Refusal;
use board::Board;
use borders::Borders;
use grid::{Direction, Neighbour};
use limits::CELLS;

// The cell that found another, and the entry of the border between.
#[derive(Clone, Copy)]
struct FoundBy {
    finder: u16,
    entry: u16,
}

// What is kept of a search: how each found cell was found, and the found cells, `tail` of them, as they come into the queue.
#[derive(Drop)]
struct Trace<'a> {
    borders: Borders<'a>,
    found: &'a mut [Option<FoundBy>; CELLS],
    queue: &'a mut [u16; CELLS],
    tail: usize,
}

impl Trace<'_> {
    // A cell looks in a direction: a new cell over a Connected border is marked with its finder and entry, and put at the queue's end.
    fn look(&mut self, cell: usize, direction: Direction)
        requires { LooksFrom self.old.borders.grid self.old.borders.states.now cell self.old.found.now self.old.queue.now self.old.tail }
        ensures same { self.new.borders ≡ self.old.borders }
        ensures follows { Follows self.old.borders.grid cell (λ p s. look_of self.old.borders.grid self.old.borders.states.now cell p direction s) self.old.found.now self.old.queue.now self.old.tail self.new.found.now self.new.queue.now self.new.tail }
    {
        let Borders { grid, states, .. } = self.borders;
        let Some(Neighbour { cell: next, border }) = grid.step(cell, direction) else {
            return;
        };
        if states[border] != 1 {
            return;
        }
        if self.found[next].is_some() {
            return;
        }
        self.found[next] = Some(FoundBy {
            finder: cell as u16,
            entry: borders::entry(border, false),
        });
        self.queue[self.tail] = next as u16;
        self.tail += 1;
    }

    // A cell, taken out of the queue, looks up, down, left and right.
    fn look_round(&mut self, cell: usize)
        requires { LooksFrom self.old.borders.grid self.old.borders.states.now cell self.old.found.now self.old.queue.now self.old.tail }
        ensures same { self.new.borders ≡ self.old.borders }
        ensures follows { Follows self.old.borders.grid cell (λ p s. look_all self.old.borders.grid self.old.borders.states.now cell p s) self.old.found.now self.old.queue.now self.old.tail self.new.found.now self.new.queue.now self.new.tail }
    {
        for direction in grid::AROUND {
            self.look(cell, direction);
        }
    }

    // Searches from `start` until the target is taken out or nothing waits.
    fn search_from(&mut self, start: usize, target: usize)
        requires cells { Cell self.old.borders.grid start × Cell self.old.borders.grid target }
        requires fresh { Fresh self.old.found.now self.old.queue.now }
        ensures { Traced self.old.borders.grid (search_of self.old.borders.grid self.old.borders.states.now start target) self.new.found.now }
    {
        self.found[start] = Some(FoundBy {
            finder: start as u16,
            entry: 0,
        });
        self.queue[0] = start as u16;
        self.tail = 1;
        let mut head = 0;
        while head < self.tail {
            let cell = usize::from(self.queue[head]);
            if cell == target {
                return;
            }
            head += 1;
            self.look_round(cell);
        }
    }

    // Writes the entries from the target back to the start, and returns how many they are. Each cell on the way is found.
    fn walk_back(self, start: usize, target: usize, buffer: &mut [u16]) -> usize
        requires { Walks start target self.found.now buffer.old }
        ensures { (p : List ℕ) → Back start self.entry.found.now target p → (result ≡ length p) × (buffer.new ≡ sets buffer.old 0 p) }
    {
        let mut n = 0;
        let mut cell = target;
        while cell != start {
            let Some(FoundBy { finder, entry }) = self.found[cell] else {
                return n;
            };
            buffer[n] = entry;
            n += 1;
            cell = usize::from(finder);
        }
        n
    }
}

// The path list of two cells, written to the buffer's first places; refused where no Connected borders join them.
fn list(b: Borders<'_>, start: usize, target: usize, buffer: &mut [u16]) -> Result<usize, Refusal>
    requires cells { Cell b.grid start × Cell b.grid target }
    requires width_in_bounds { b.grid.height * b.grid.width ≤ length buffer.old }
    ensures value { Lists (joined (path_of b.entry.grid b.entry.states.now start target)) result }
    ensures buffer_after { buffer.new ≡ written (joined (path_of b.entry.grid b.entry.states.now start target)) buffer.old }
{
    let mut found = [None; CELLS];
    let mut queue = [0; CELLS];
    let mut trace = Trace {
        borders: b,
        found: &mut found,
        queue: &mut queue,
        tail: 0,
    };
    trace.search_from(start, target);
    if trace.found[target].is_none() {
        return Err(Refusal::NotJoined);
    }
    Ok(trace.walk_back(start, target, buffer))
}

// The same for cells that are known to be joined: the list's length. It is empty where they are not.
pub fn list_joined(b: Borders<'_>, start: usize, target: usize, buffer: &mut [u16]) -> usize
    requires cells { Cell b.grid start × Cell b.grid target }
    requires width_in_bounds { b.grid.height * b.grid.width ≤ length buffer.old }
    ensures value { result ≡ length (path_list b.entry.grid b.entry.states.now start target) }
    ensures buffer_after { buffer.new ≡ sets buffer.old 0 (path_list b.entry.grid b.entry.states.now start target) }
{
    list(b, start, target, buffer).unwrap_or(0)
}

// The path list of two cells of a board: the entries from the target back to the start.
#[tactic(auto, unfolding(crate::specs::Answer::path_outcome))]
pub fn reason_for_path(
    b: &Board,
    start: usize,
    target: usize,
    buffer: &mut [u16],
) -> Result<usize, Refusal>
    ensures value { Lists (path_outcome b.now start target (length buffer.old)) result }
    ensures buffer_after { buffer.new ≡ written (path_outcome b.now start target (length buffer.old)) buffer.old }
{
    b.check()?;
    let cells = b.grid.cell_count();
    if cells <= start {
        return Err(Refusal::Missing);
    }
    if cells <= target {
        return Err(Refusal::Missing);
    }
    if buffer.len() < 9 * cells {
        return Err(Refusal::ShortBuffer);
    }
    list(b.borders(), start, target, buffer)
}
