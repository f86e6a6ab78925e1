// The board's calls.
ghost use Rattle.std.specs.Prelude.{◌≡◌};
ghost use Rattle.ledger.specs.Ledger.{decisions};
ghost use Rattle.board.specs.Board.{make_of, board_code, stroke_of, decide_of, undo_of};

use board::{Board, Decided};

#[unsafe(no_mangle)]
pub extern "C" fn sendai_board_make(height: usize, width: usize) -> Decided
    ensures { result ≡ make_of height width }
{
    Decided::from(Board::new(height, width))
}

#[unsafe(no_mangle)]
pub extern "C" fn sendai_board_check(b: Board) -> u8
    ensures { result ≡ board_code b }
{
    answers::code_of(b.check())
}

#[unsafe(no_mangle)]
pub extern "C" fn sendai_board_stroke(b: Board, entries: &[u16]) -> Decided
    ensures { result ≡ stroke_of b (decisions entries.now) }
{
    let mut out = Decided { code: 0, board: b };
    out.code = answers::code_of(out.board.stroke(entries));
    out
}

#[unsafe(no_mangle)]
pub extern "C" fn sendai_board_decide(b: Board, border: usize, wall: bool) -> Decided
    ensures { result ≡ decide_of b border wall }
{
    let mut out = Decided { code: 0, board: b };
    out.code = answers::code_of(out.board.decide(border, wall));
    out
}

#[unsafe(no_mangle)]
pub extern "C" fn sendai_board_undo(b: Board) -> Decided
    ensures { result ≡ undo_of b }
{
    let mut out = Decided { code: 0, board: b };
    out.code = answers::code_of(out.board.undo());
    out
}
