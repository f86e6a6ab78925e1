// The puzzle's calls.
ghost use Rattle.std.specs.Prelude.{◌≡◌};
ghost use Rattle.ledger.specs.Ledger.{decisions};
ghost use Rattle.puzzle.specs.declared.kind.Kind.TheVariants.{Translates, Images};
ghost use Rattle.puzzle.specs.Puzzle.{make_of, puzzle_code, stroke_of, decide_of, undo_of, ask_of};
ghost use Rattle.enumerate.specs.Boards.{boards_of};
ghost use Rattle.as_numbers.specs.Boards.{listing_of};
ghost use Rattle.as_numbers.specs.Puzzles.{outcome_of};

use as_numbers::boards::Listing;
use as_numbers::puzzles::Outcome;
use puzzle::kind::Kind;
use puzzle::{Made, Puzzle};

#[unsafe(no_mangle)]
pub extern "C" fn sendai_puzzle_make<'a>(
    height: usize,
    width: usize,
    given: &'a [u16],
    clues: &'a [u16],
) -> Made
    ensures { result ≡ make_of Translates height width given.now clues.now }
{
    puzzle::make(Kind::Translates, height, width, given, clues)
}

#[unsafe(no_mangle)]
pub extern "C" fn sendai_puzzle_make_images<'a>(
    height: usize,
    width: usize,
    given: &'a [u16],
    clues: &'a [u16],
) -> Made
    ensures { result ≡ make_of Images height width given.now clues.now }
{
    puzzle::make(Kind::Images, height, width, given, clues)
}

#[unsafe(no_mangle)]
pub extern "C" fn sendai_puzzle_check(p: Puzzle) -> u8
    ensures { result ≡ puzzle_code p }
{
    answers::code_of(p.check())
}

#[unsafe(no_mangle)]
pub extern "C" fn sendai_puzzle_stroke(p: Puzzle, entries: &[u16]) -> Made
    ensures { result ≡ stroke_of p (decisions entries.now) }
{
    let mut out = Made { code: 0, puzzle: p };
    out.code = answers::code_of(out.puzzle.stroke(entries));
    out
}

#[unsafe(no_mangle)]
pub extern "C" fn sendai_puzzle_decide(p: Puzzle, border: usize, wall: bool) -> Made
    ensures { result ≡ decide_of p border wall }
{
    let mut out = Made { code: 0, puzzle: p };
    out.code = answers::code_of(out.puzzle.decide(border, wall));
    out
}

#[unsafe(no_mangle)]
pub extern "C" fn sendai_puzzle_undo(p: Puzzle) -> Made
    ensures { result ≡ undo_of p }
{
    let mut out = Made { code: 0, puzzle: p };
    out.code = answers::code_of(out.puzzle.undo());
    out
}

#[unsafe(no_mangle)]
pub extern "C" fn sendai_puzzle_ask(p: Puzzle, buffer: &mut [u16]) -> Outcome
    ensures value { result ≡ outcome_of (ask_of p buffer.old).answer }
    ensures buffer_after { buffer.new ≡ (ask_of p buffer.old).buffer }
{
    Outcome::from(p.ask(buffer))
}

#[unsafe(no_mangle)]
pub extern "C" fn sendai_puzzle_right_boards(p: Puzzle, cap: usize, buffer: &mut [u8]) -> Listing
    ensures value { result ≡ listing_of (boards_of p cap buffer.old).answer }
    ensures buffer_after { buffer.new ≡ (boards_of p cap buffer.old).buffer }
{
    Listing::from(enumerate::list_right_boards(&p, cap, buffer))
}
