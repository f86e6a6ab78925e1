// The puzzle: a board with given walls and a clue for each room, which joins the shape check to a count for each clued room.
#![tactic(auto)]

ghost use Rattle.std.specs.Prelude.{◌≡◌, ◌+◌, ◌*◌, ◌≤◌, length};
ghost use Rattle.limits.specs.Limits.{most_borders, most_cells};
ghost use Rattle.lists.specs.Lists.{In};
ghost use Rattle.lists.specs.Writes.{Below};
ghost use Rattle.ledger.specs.Ledger.{decisions};
ghost use Rattle.ledger.specs.Books.{book_holds};
ghost use Rattle.grid.specs.Grid.{Limits, cells};
ghost use Rattle.images.specs.Images.{translate};
ghost use Rattle.rooms.specs.Rooms.{is_given};
ghost use Rattle.rooms.specs.Lent.{Given};
ghost use Rattle.answers.specs.Refusals.{code_of};
ghost use Rattle.puzzle.specs.Kind.{images_of};
ghost use Rattle.puzzle.specs.Fault.{fault_of};
ghost use Rattle.puzzle.specs.Puzzle.{fresh_puzzle, zero_puzzle, answer, made, make_of, together, puzzle_code, grid_of, given_of, clues_of, borders_of, book_of, stroke_of, decide_of, undo_of, told, answer_in, writes, ask_of};

use answers::Refusal;
use board::Board;
use borders::Borders;
use grid::Grid;
use images::Image;
use kind::Kind;
use room_checks::CluedBoard;

pub mod kind;

// The board has the given walls as Wall; its ledger names none of them. The first `given_len` places of `given` are the given walls,
// the first `clues_len` of `clues` the clues. `kind` is the number of the puzzle's kind.
#[repr(C)]
#[derive(Clone, Copy)]
pub struct Puzzle {
    pub board: Board,
    pub given: [u16; limits::BORDERS],
    pub given_len: usize,
    pub clues: [u16; limits::CELLS],
    pub clues_len: usize,
    pub kind: u8,
}

// A record of zeros, which a refused making returns.
impl Default for Puzzle {
    ghost is_default = { λ puzzle. puzzle ≡ zero_puzzle };

    fn default() -> Puzzle {
        Puzzle {
            board: Board::default(),
            given: [0; limits::BORDERS],
            given_len: 0,
            clues: [0; limits::CELLS],
            clues_len: 0,
            kind: 0,
        }
    }
}

// A puzzle with a question's number: 0 where the making or call was accepted.
#[repr(C)]
#[derive(Clone, Copy)]
pub struct Made {
    pub code: u8,
    pub puzzle: Puzzle,
}

// Which check found a fault: the shape check, or the count of a room with its number.
#[derive(Clone, Copy)]
pub enum Check {
    Shape,
    Room(usize),
}

// What an ask finds: the check that fails, and how many places of the buffer its list fills.
#[derive(Clone, Copy)]
pub struct Fault {
    pub check: Check,
    pub len: usize,
}

impl Puzzle {
    // Makes a fresh puzzle of a record of zeros: its given walls are Wall, and nothing else is decided.
    fn start(&mut self, kind: Kind, grid: Grid, given: &[u16], clues: &[u16])
        requires zeros { self.old ≡ zero_puzzle }
        requires below { Below most_borders given.now }
        requires given_len_bound { (length given.now ≤ most_borders) × (length clues.now ≤ most_cells) }
        ensures { self.new ≡ fresh_puzzle kind grid given.now clues.now }
    {
        self.board.grid = grid;
        lists::write_at(given, 2, &mut self.board.book.states);
        self.given[..given.len()].copy_from_slice(given);
        self.given_len = given.len();
        self.clues[..clues.len()].copy_from_slice(clues);
        self.clues_len = clues.len();
        self.kind = kind.number();
    }

    // The same where questions 1, 3, 7, 8 and 9 accept the size and the lists; a refusal leaves the zeros.
    fn begin(&mut self, kind: Kind, grid: Grid, given: &[u16], clues: &[u16]) -> Result<(), Refusal>
        requires { self.old ≡ zero_puzzle }
        ensures { answer (code_of result) self.new ≡ make_of kind grid.height grid.width given.now clues.now }
    {
        if !grid.is_within_limits() {
            return Err(Refusal::Size);
        }
        clues::check_lists(grid, given, clues)?;
        self.start(kind, grid, given, clues);
        Ok(())
    }

    // A fresh puzzle of a kind, a size, given walls and clues.
    pub fn new(
        kind: Kind,
        height: usize,
        width: usize,
        given: &[u16],
        clues: &[u16],
    ) -> Result<Puzzle, Refusal>
        ensures { made result ≡ make_of kind height width given.now clues.now }
    {
        let mut puzzle = Puzzle::default();
        puzzle.begin(kind, Grid { height, width }, given, clues)?;
        Ok(puzzle)
    }

    // The given walls.
    pub fn given(&self) -> &[u16]
        requires { self.now.given_len ≤ most_borders }
        ensures { result.now ≡ given_of self.now }
    {
        &self.given[..self.given_len]
    }

    // The clues, one for each room.
    pub fn clues(&self) -> &[u16]
        requires { self.now.clues_len ≤ most_cells }
        ensures { result.now ≡ clues_of self.now }
    {
        &self.clues[..self.clues_len]
    }

    // The images that its checks try.
    pub fn images(&self) -> &'static [Image]
        ensures { result.now ≡ images_of self.now.kind }
    {
        kind::images_of(self.kind)
    }

    // Question 2 of the ledger, by an array with a place for each border. Never inlined, so that no frame has the arrays of all sizes.
    #[inline(never)]
    fn ledger_holds_in<const N: usize>(&self) -> bool
        requires room { (borders_of self.now ≤ N) × (N ≤ most_borders) }
        requires fits { self.now.given_len ≤ most_borders }
        requires given { Given (grid_of self.now) (given_of self.now) }
        ensures { result ≡ book_holds (borders_of self.now) (is_given (given_of self.now)) (book_of self.now) }
    {
        let mut marks = [0u8; N];
        lists::write_at(self.given(), 1, &mut marks);
        self.board
            .book
            .holds(self.board.grid.border_count(), &mut marks)
    }

    // Question 2 of the ledger. Boards of three sizes, the second up to 20 by 20, have arrays of their own, since all of an array is zeroed.
    fn ledger_holds(&self) -> bool
        requires fits { self.now.given_len ≤ most_borders }
        requires given { Given (grid_of self.now) (given_of self.now) }
        ensures { result ≡ book_holds (borders_of self.now) (is_given (given_of self.now)) (book_of self.now) }
    {
        let borders = self.board.grid.border_count();
        if borders <= 256 {
            return self.ledger_holds_in::<256>();
        }
        if borders <= 760 {
            return self.ledger_holds_in::<760>();
        }
        self.ledger_holds_in::<{ limits::BORDERS }>()
    }

    // Question 2: the arrays hold the lists, the kind is one, a making would accept the lists, and the ledger holds.
    #[tactic(auto, unfolding(crate::specs::Puzzle::together))]
    fn holds_together(&self) -> bool
        requires { Limits (grid_of self.now) }
        ensures { result ≡ together self.now }
    {
        if limits::BORDERS < self.given_len || limits::CELLS < self.clues_len || 1 < self.kind {
            return false;
        }
        let lists = clues::check_lists(self.board.grid, self.given(), self.clues());
        lists.is_ok() && self.ledger_holds()
    }

    // Questions 1 and 2: whether a record holds together.
    pub fn check(&self) -> Result<(), Refusal>
        ensures { code_of result ≡ puzzle_code self.now }
    {
        if !self.board.grid.is_within_limits() {
            return Err(Refusal::Size);
        }
        if !self.holds_together() {
            return Err(Refusal::Record);
        }
        Ok(())
    }

    // The borders as they stand.
    pub fn borders(&self) -> Borders<'_>
        requires { puzzle_code self.now ≡ 0 }
        ensures grid { result.grid ≡ grid_of self.now }
        ensures states { result.states.now ≡ (book_of self.now).states }
    {
        self.board.borders()
    }

    // The board as it stands, with its given walls and clues.
    pub fn clued_board(&self) -> CluedBoard<'_, '_>
        requires { puzzle_code self.now ≡ 0 }
        ensures borders { (result.borders.grid ≡ grid_of self.now) × (result.borders.states.now ≡ (book_of self.now).states) }
        ensures lists { (result.given.now ≡ given_of self.now) × (result.clues.now ≡ clues_of self.now) }
    {
        CluedBoard {
            borders: self.borders(),
            given: self.given(),
            clues: self.clues(),
        }
    }

    // Decides the borders of a stroke, all or none: a refusal leaves the puzzle as it was.
    pub fn stroke(&mut self, entries: &[u16]) -> Result<(), Refusal>
        ensures { answer (code_of result) self.new ≡ stroke_of self.old (decisions entries.now) }
    {
        self.check()?;
        let n = self.board.grid.border_count();
        self.board.book.stroke(entries, n)
    }

    // Decides a border as Wall or Connected: a stroke of one.
    pub fn decide(&mut self, border: usize, wall: bool) -> Result<(), Refusal>
        ensures { answer (code_of result) self.new ≡ decide_of self.old border wall }
    {
        self.stroke(&[ledger::entry_of(border, wall)])
    }

    // Takes the whole last stroke back: of a puzzle that calls have made, the very record before it is there again.
    pub fn undo(&mut self) -> Result<(), Refusal>
        ensures { answer (code_of result) self.new ≡ undo_of self.old }
    {
        self.check()?;
        self.board.book.undo()
    }

    // What stands wrong: the shape check, then the clued rooms in order, up to the first fault, whose list goes to the buffer's front.
    pub fn ask(&self, buffer: &mut [u16]) -> Result<Option<Fault>, Refusal>
        ensures value { answer_in result ≡ (ask_of self.now buffer.old).answer }
        ensures buffer_after { buffer.new ≡ (ask_of self.now buffer.old).buffer }
    {
        self.check()?;
        let images = self.images();
        if buffer.len() < (images.len() + 8) * self.board.grid.cell_count() {
            return Err(Refusal::ShortBuffer);
        }
        let found = fault_of(self.clued_board(), images, buffer);
        Ok(found)
    }
}

// The shape check over a kind's images, and then the counts of the clued rooms, on a board as it stands: what an ask finds. The rooms are found
// only where the shape check is clear and a room has a clue.
pub fn fault_of(board: CluedBoard<'_, '_>, images: &[Image], buffer: &mut [u16]) -> Option<Fault>
    requires translate { In translate images.now }
    requires room { (length images.now + 8) * cells board.borders.grid ≤ length buffer.old }
    ensures value { result ≡ told (fault_of images.now board.entry.borders.grid board.entry.given.now board.entry.clues.now board.entry.borders.states.now) }
    ensures buffer_after { buffer.new ≡ writes 0 (fault_of images.now board.entry.borders.grid board.entry.given.now board.entry.clues.now board.entry.borders.states.now) buffer.old }
{
    if let Some(len) = shape_check::shape_fault(board.borders, images, buffer) {
        return Some(Fault {
            check: Check::Shape,
            len,
        });
    }
    let fault = board.count_rooms(buffer)?;
    Some(Fault {
        check: Check::Room(fault.room),
        len: fault.len,
    })
}

// A making as a record: of zeros where it is refused. The record is made where it stands, and not copied.
pub fn make(kind: Kind, height: usize, width: usize, given: &[u16], clues: &[u16]) -> Made
    ensures { result ≡ make_of kind height width given.now clues.now }
{
    let mut out = Made {
        code: 0,
        puzzle: Puzzle::default(),
    };
    out.code = answers::code_of(out.puzzle.begin(kind, Grid { height, width }, given, clues));
    out
}
