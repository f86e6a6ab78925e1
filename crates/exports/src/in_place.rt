// The calls on a lent board or puzzle, which is a pointer in C: it is changed where it is, and an ask reads it there.
ghost use Rattle.std.specs.Prelude.{◌≡◌, length};
ghost use Rattle.ledger.specs.Ledger.{decisions};
ghost use Rattle.board.specs.Board.{answer, stroke_of, decide_of, undo_of};
ghost use Rattle.answers.specs.Answers.{written};
ghost use Rattle.answers.specs.Refusals.{answer_plain};
ghost use Rattle.shape_check.specs.Answer.{shape_outcome};
ghost use Rattle.puzzle.specs.Puzzle.{answer as puzzle_answer, stroke_of as puzzle_stroke, decide_of as puzzle_decide, undo_of as puzzle_undo, ask_of};
ghost use Rattle.as_numbers.specs.Puzzles.{outcome_of};

use answers::Plain;
use as_numbers::puzzles::Outcome;
use board::Board;
use puzzle::Puzzle;

#[unsafe(no_mangle)]
pub extern "C" fn sendai_board_stroke_in_place(b: &mut Board, entries: &[u16]) -> u8
    ensures { answer result b.new ≡ stroke_of b.old (decisions entries.now) }
{
    answers::code_of(b.stroke(entries))
}

#[unsafe(no_mangle)]
pub extern "C" fn sendai_board_decide_in_place(b: &mut Board, border: usize, wall: bool) -> u8
    ensures { answer result b.new ≡ decide_of b.old border wall }
{
    answers::code_of(b.decide(border, wall))
}

#[unsafe(no_mangle)]
pub extern "C" fn sendai_board_undo_in_place(b: &mut Board) -> u8
    ensures { answer result b.new ≡ undo_of b.old }
{
    answers::code_of(b.undo())
}

#[unsafe(no_mangle)]
pub extern "C" fn sendai_board_ask_in_place(b: &Board, buffer: &mut [u16]) -> Plain
    ensures value { result ≡ answer_plain (shape_outcome b.now (length buffer.old)) }
    ensures buffer_after { buffer.new ≡ written (shape_outcome b.now (length buffer.old)) buffer.old }
{
    Plain::from(shape_check::find_inconsistency(b, buffer))
}

#[unsafe(no_mangle)]
pub extern "C" fn sendai_puzzle_stroke_in_place(p: &mut Puzzle, entries: &[u16]) -> u8
    ensures { puzzle_answer result p.new ≡ puzzle_stroke p.old (decisions entries.now) }
{
    answers::code_of(p.stroke(entries))
}

#[unsafe(no_mangle)]
pub extern "C" fn sendai_puzzle_decide_in_place(p: &mut Puzzle, border: usize, wall: bool) -> u8
    ensures { puzzle_answer result p.new ≡ puzzle_decide p.old border wall }
{
    answers::code_of(p.decide(border, wall))
}

#[unsafe(no_mangle)]
pub extern "C" fn sendai_puzzle_undo_in_place(p: &mut Puzzle) -> u8
    ensures { puzzle_answer result p.new ≡ puzzle_undo p.old }
{
    answers::code_of(p.undo())
}

#[unsafe(no_mangle)]
pub extern "C" fn sendai_puzzle_ask_in_place(p: &Puzzle, buffer: &mut [u16]) -> Outcome
    ensures value { result ≡ outcome_of (ask_of p.now buffer.old).answer }
    ensures buffer_after { buffer.new ≡ (ask_of p.now buffer.old).buffer }
{
    Outcome::from(p.ask(buffer))
}
