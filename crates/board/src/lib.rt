// The board (`BoardManager`): a size around a book, which is made, tested, and changed where it stands.
#![tactic(auto)]

ghost use Rattle.std.specs.Prelude.{◌≡◌};
ghost use Rattle.answers.specs.Refusals.{code_of};
ghost use Rattle.grid.specs.Grid.{Limits};
ghost use Rattle.ledger.specs.Ledger.{decisions};
ghost use Rattle.board.specs.Board.{fresh_board, answer, made, make_of, board_code, stroke_of, decide_of, undo_of};

use answers::Refusal;
use borders::Borders;
use grid::Grid;
use ledger::Book;

// A size, and the states and ledger of its borders.
#[repr(C)]
#[derive(Clone, Copy)]
pub struct Board {
    pub grid: Grid,
    pub book: Book,
}

// A record of zeros, which a refused making returns.
impl Default for Board {
    ghost use Rattle.board.specs.Board.{zero_board};

    ghost is_default = { λ board. board ≡ zero_board };

    fn default() -> Board {
        Board::empty(Grid::default())
    }
}

// A board with the number of the question that refuses: 0 where the call was accepted.
#[repr(C)]
#[derive(Clone, Copy)]
pub struct Decided {
    pub code: u8,
    pub board: Board,
}

impl Board {
    // A board with all borders undecided.
    fn empty(grid: Grid) -> Board
        ensures { result ≡ fresh_board grid }
    {
        Board {
            grid,
            book: Book::new(),
        }
    }

    // A fresh board of the size.
    pub fn new(height: usize, width: usize) -> Result<Board, Refusal>
        ensures { made result ≡ make_of height width }
    {
        let grid = Grid { height, width };
        if grid.is_within_limits() {
            Ok(Board::empty(grid))
        } else {
            Err(Refusal::Size)
        }
    }

    // Questions 1 and 2: whether a record holds together.
    pub fn check(&self) -> Result<(), Refusal>
        ensures { code_of result ≡ board_code self.now }
    {
        if !self.grid.is_within_limits() {
            return Err(Refusal::Size);
        }
        self.book.check(self.grid.border_count())
    }

    // The borders as they stand.
    pub fn borders(&self) -> Borders<'_>
        requires { Limits self.now.grid }
        ensures grid { result.grid ≡ self.now.grid }
        ensures states { result.states.now ≡ self.now.book.states }
    {
        Borders {
            grid: self.grid,
            states: &self.book.states,
        }
    }

    // Decides the borders of a stroke, all or none: a refusal leaves the board as it was.
    pub fn stroke(&mut self, entries: &[u16]) -> Result<(), Refusal>
        ensures { answer (code_of result) self.new ≡ stroke_of self.old (decisions entries.now) }
    {
        self.check()?;
        self.book.stroke(entries, self.grid.border_count())
    }

    // Decides a border as Wall or Connected: a stroke of one.
    pub fn decide(&mut self, border: usize, wall: bool) -> Result<(), Refusal>
        ensures { answer (code_of result) self.new ≡ decide_of self.old border wall }
    {
        self.stroke(&[ledger::entry_of(border, wall)])
    }

    // Takes the whole last stroke back: of a board that calls have made, the very record before it is there again.
    pub fn undo(&mut self) -> Result<(), Refusal>
        ensures { answer (code_of result) self.new ≡ undo_of self.old }
    {
        self.check()?;
        self.book.undo()
    }
}

// A making as a record: of zeros where it is refused.
impl From<Result<Board, Refusal>> for Decided {
    ghost from_gives = { λ making decided. decided ≡ made making };

    fn from(making: Result<Board, Refusal>) -> Decided {
        match making {
            Ok(board) => Decided { code: 0, board },
            Err(refusal) => Decided {
                code: u8::from(refusal),
                board: Board::default(),
            },
        }
    }
}
