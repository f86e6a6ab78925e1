// The path list.
ghost use Rattle.std.specs.Prelude.{◌≡◌, length};
ghost use Rattle.answers.specs.Answers.{written};
ghost use Rattle.answers.specs.Refusals.{listed_plain};
ghost use Rattle.path.specs.Answer.{path_outcome};

use answers::Plain;
use board::Board;

#[unsafe(no_mangle)]
pub extern "C" fn sendai_path(b: Board, start: usize, target: usize, buffer: &mut [u16]) -> Plain
    ensures value { result ≡ listed_plain (path_outcome b start target (length buffer.old)) }
    ensures buffer_after { buffer.new ≡ written (path_outcome b start target (length buffer.old)) buffer.old }
{
    Plain::from(path::reason_for_path(&b, start, target, buffer))
}
