// The shape check: a board's ask.
ghost use Rattle.std.specs.Prelude.{◌≡◌, length};
ghost use Rattle.answers.specs.Answers.{written};
ghost use Rattle.answers.specs.Refusals.{answer_plain};
ghost use Rattle.shape_check.specs.Answer.{shape_outcome};

use answers::Plain;
use board::Board;

#[unsafe(no_mangle)]
pub extern "C" fn sendai_board_ask(b: Board, buffer: &mut [u16]) -> Plain
    ensures value { result ≡ answer_plain (shape_outcome b (length buffer.old)) }
    ensures buffer_after { buffer.new ≡ written (shape_outcome b (length buffer.old)) buffer.old }
{
    Plain::from(shape_check::find_inconsistency(&b, buffer))
}
