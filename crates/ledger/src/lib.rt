// The standing ledger, for boards, puzzles and room graphs alike: what a record keeps of its strokes, whether that holds together (question 2), which
// question refuses a stroke or an undo, and how a stroke is placed and taken back. A book is changed where it stands.
#![tactic(auto)]

ghost use Rattle.std.specs.Prelude.{◌≡◌, true, ◌%◌, ◌+◌, ◌-◌, ◌≤◌, length, map, drop, replicate, eqb, ltb};
ghost use Rattle.limits.specs.Limits.{most_borders};
ghost use Rattle.lists.specs.Choice.{pick};
ghost use Rattle.lists.specs.Lists.{all};
ghost use Rattle.answers.specs.Refusals.{code_of};
ghost use Rattle.ledger.specs.Ledger.{decisions, state_for, borders, all_exist, none_twice, all_free, stroke_code, undo_code};
ghost use Rattle.ledger.specs.Books.{book, half, clear_all, state_at, book_holds, name_of, start_of};
ghost use Rattle.ledger.specs.Marks.{fits_of, Marked, LentBook, fit_all, given_in, Named, Entry};

use answers::Refusal;

// What a record keeps of its ledger: a state for each border, and the first `len` names of decided borders in order. A name is twice its border,
// and one more where a stroke starts with it.
#[repr(C)]
#[derive(Clone, Copy)]
pub struct Book {
    pub states: [u8; limits::BORDERS],
    pub names: [u16; limits::BORDERS],
    pub len: usize,
}

impl Book {
    ghost use Rattle.std.proofs.lemmas.List.Edits.{sets};
    ghost use Rattle.ledger.specs.Moves.{Held, HeldBook, GivenMarks, left};
    ghost use Rattle.ledger.specs.Books.{zeros, fresh_book, none_given, names_in, names_of, state_all, placed, taken};

    // A book without a decision.
    #[tactic(auto, unfolding(crate::specs::Books::zeros))]
    pub fn new() -> Book
        ensures { result ≡ fresh_book zeros }
    {
        Book {
            states: [0; limits::BORDERS],
            names: [0; limits::BORDERS],
            len: 0,
        }
    }

    // Question 2 over n borders: `marks` comes in with 1 at each given wall and 0 elsewhere.
    pub fn holds(&self, n: usize, marks: &mut [u8]) -> bool
        requires { GivenMarks n marks.old }
        ensures { result ≡ book_holds n (given_in marks.old) self.now }
    {
        book_holds(&self.states, &self.names, self.len, n, marks)
    }

    // Question 2 over n borders of which none is given: of lone boards and room graphs.
    pub fn check(&self, n: usize) -> Result<(), Refusal>
        requires { n ≤ most_borders }
        ensures { code_of result ≡ pick (book_holds n none_given self.now) 0 2 }
    {
        let mut marks = [0u8; limits::BORDERS];
        if !self.holds(n, &mut marks) {
            return Err(Refusal::Record);
        }
        Ok(())
    }

    // Gives the borders of a stroke their states.
    pub fn place_states(&mut self, entries: &[u16])
        requires { all_exist most_borders (decisions entries.now) ≡ true }
        ensures { self.new ≡ book (state_all self.old.states (decisions entries.now)) self.old.names self.old.len }
    {
        for &entry in entries {
            self.states[border_of(entry)] = state_of(entry);
        }
    }

    // Names the borders of a stroke behind the names that stand.
    pub fn place_names(&mut self, entries: &[u16])
        requires { self.old.len + length entries.now ≤ most_borders }
        ensures { self.new ≡ book self.old.states (sets self.old.names self.old.len (names_of (decisions entries.now))) (self.old.len + length entries.now) }
    {
        for (i, &entry) in entries.iter().enumerate() {
            self.names[self.len + i] = name_of(entry, i);
        }
        self.len += entries.len();
    }

    // Decides the borders of a stroke over n borders, all or none.
    pub fn stroke(&mut self, entries: &[u16], n: usize) -> Result<(), Refusal>
        requires { Held n self.old }
        ensures code { code_of result ≡ stroke_code n (state_at self.old.states) (decisions entries.now) }
        ensures book { self.new ≡ left (stroke_code n (state_at self.old.states) (decisions entries.now)) self.old (placed self.old (decisions entries.now)) }
    {
        check_stroke(&self.states, entries, n)?;
        self.place_states(entries);
        self.place_names(entries);
        Ok(())
    }

    // Where the last stroke starts.
    pub fn last_start(&self) -> usize
        requires { self.now.len ≤ most_borders }
        ensures { result ≡ start_of self.now.names self.now.len }
    {
        start_of(&self.names[..self.len])
    }

    // The borders named from place `from` on are undecided again.
    pub fn clear_states(&mut self, from: usize)
        requires { Named self.old.names from self.old.len }
        ensures { self.new ≡ book (clear_all self.old.states (drop from (names_in self.old))) self.old.names self.old.len }
    {
        clear_states(&mut self.states, &self.names[..self.len][from..]);
    }

    // The places of the names from place `from` on are free again.
    pub fn clear_names(&mut self, from: usize)
        requires { (from ≤ self.old.len) × (self.old.len ≤ most_borders) }
        ensures { self.new ≡ book self.old.states (sets self.old.names from (replicate (self.old.len - from) 0)) from }
    {
        self.names[from..self.len].fill(0);
        self.len = from;
    }

    // Takes the whole last stroke back.
    pub fn undo(&mut self) -> Result<(), Refusal>
        requires { HeldBook self.old }
        ensures code { code_of result ≡ undo_code self.old.len }
        ensures book { self.new ≡ left (undo_code self.old.len) self.old (taken self.old) }
    {
        check_undo(self.len)?;
        let from = self.last_start();
        self.clear_states(from);
        self.clear_names(from);
        Ok(())
    }
}

// Question 2 of a book over n borders, by its slices: `marks` comes in with 1 at each given wall and 0 elsewhere.
pub fn book_holds(states: &[u8], names: &[u16], len: usize, n: usize, marks: &mut [u8]) -> bool
    requires { LentBook n states.now names.now marks.old }
    ensures { result ≡ book_holds n (given_in marks.old) (book states.now names.now len) }
{
    if n < len {
        return false;
    }
    let names = &names[..len];
    let starts = len == 0 || names[0] % 2 == 1;
    starts && mark_names(names, n, marks) && all_fit(&states[..n], marks)
}

// Where the last stroke of these names starts.
pub fn start_of(names: &[u16]) -> usize
    ensures { result ≡ start_of names.now (length names.now) }
{
    names.iter().rposition(|&name| name % 2 == 1).unwrap_or(0)
}

// The borders of these names are undecided again.
pub fn clear_states(states: &mut [u8], names: &[u16])
    requires { all (λ x. ltb (half x) (length states.old)) names.now ≡ true }
    ensures { states.new ≡ clear_all states.old (map half names.now) }
{
    for &name in names {
        states[border_of(name)] = 0;
    }
}

// Which question refuses a stroke over n borders, 3, 14 or 4: each is put to the whole stroke before the next.
pub fn check_stroke(states: &[u8], entries: &[u16], n: usize) -> Result<(), Refusal>
    requires { (n ≤ length states.now) × (n ≤ most_borders) }
    ensures { code_of result ≡ stroke_code n (state_at states.now) (decisions entries.now) }
{
    if !all_exist(entries, n) {
        return Err(Refusal::Missing);
    }
    if !none_twice(entries) {
        return Err(Refusal::Repeated);
    }
    if !all_free(states, entries) {
        return Err(Refusal::Decided);
    }
    Ok(())
}

// Whether question 5 refuses an undo of so many decisions: there is none.
pub fn check_undo(len: usize) -> Result<(), Refusal>
    ensures { code_of result ≡ undo_code len }
{
    if len == 0 {
        return Err(Refusal::NothingToUndo);
    }
    Ok(())
}

// Marks what the ledger names. False where a name is no border or is marked already.
fn mark_names(names: &[u16], n: usize, marks: &mut [u8]) -> bool
    requires { (n ≤ length marks.old) × (n ≤ most_borders) }
    ensures { Marked n marks.old (map half names.now) result marks.new }
{
    lists::all_below(names, 2 * n) && mark_each(names, marks)
}

// Marks the border of each name or entry. False where one is marked already when it is come to.
fn mark_each(xs: &[u16], marks: &mut [u8]) -> bool
    requires { all (λ x. ltb (half x) (length marks.old)) xs.now ≡ true }
    ensures { Marked (length marks.old) marks.old (map half xs.now) result marks.new }
{
    let mut new = true;
    for &x in xs {
        let e = border_of(x);
        new &= marks[e] == 0;
        marks[e] = 2;
    }
    new
}

// Whether each state goes with its mark. The loop has one exit, so the compiler takes many elements at a time.
fn all_fit(states: &[u8], marks: &[u8]) -> bool
    requires { length states.now ≤ length marks.now }
    ensures { result ≡ fit_all (length states.now) states.now marks.now }
{
    let mut good = true;
    for (e, &state) in states.iter().enumerate() {
        good &= fits(state, marks[e]);
    }
    good
}

// Whether each border of a stroke exists.
fn all_exist(entries: &[u16], n: usize) -> bool
    ensures { result ≡ all_exist n (decisions entries.now) }
{
    entries.iter().all(|&entry| border_of(entry) < n)
}

// Whether no border stands twice in a stroke. A stroke of one needs no marks. One of more entries than there are borders names one twice, which
// its front tells: the rest is not read.
fn none_twice(entries: &[u16]) -> bool
    requires { all_exist most_borders (decisions entries.now) ≡ true }
    ensures { result ≡ none_twice (borders (decisions entries.now)) }
{
    if entries.len() < 2 {
        return true;
    }
    let mut marks = [0u8; limits::BORDERS];
    let front = entries.len().min(limits::BORDERS + 1);
    mark_each(&entries[..front], &mut marks) && mark_each(&entries[front..], &mut marks)
}

// Whether each border of a stroke is undecided.
fn all_free(states: &[u8], entries: &[u16]) -> bool
    requires { all_exist (length states.now) (decisions entries.now) ≡ true }
    ensures { result ≡ all_free (state_at states.now) (decisions entries.now) }
{
    entries.iter().all(|&entry| states[border_of(entry)] == 0)
}

// Whether a state goes with a mark: 0 for undecided, 1 for a given wall, 2 for a border that the ledger names.
fn fits(state: u8, mark: u8) -> bool
    ensures { result ≡ fits_of state mark }
{
    match (mark, state) {
        (0, s) => s == 0,
        (_, 2) => true,
        (1, _) => false,
        (_, s) => s == 1,
    }
}

// The border that a name or an entry names.
fn border_of(x: u16) -> usize
    ensures { result ≡ half x }
{
    usize::from(x) / 2
}

// The entry of a border and its value. A border that no record has becomes one that no entry of a record's border is.
pub fn entry_of(border: usize, wall: bool) -> u16
    ensures { Entry border wall result }
{
    if limits::BORDERS <= border {
        return 65535;
    }
    borders::entry(border, wall)
}

// The state that an entry gives its border.
fn state_of(entry: u16) -> u8
    ensures { result ≡ state_for (eqb (entry % 2) 1) }
{
    borders::state_of(entry % 2 == 1)
}

// The name of an entry's border at place i of its stroke: the first starts it.
fn name_of(entry: u16, i: usize) -> u16
    ensures { result ≡ name_of (half entry) i }
{
    let twice = entry - entry % 2;
    if i == 0 {
        return twice + 1;
    }
    twice
}
