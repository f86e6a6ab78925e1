// The two boundary lists.
ghost use Rattle.std.specs.Prelude.{◌≡◌, true, false, length};
ghost use Rattle.answers.specs.Answers.{written};
ghost use Rattle.answers.specs.Refusals.{listed_plain};
ghost use Rattle.boundary.specs.Answer.{boundary_outcome};

use answers::Plain;
use board::Board;

#[unsafe(no_mangle)]
pub extern "C" fn sendai_unit_boundary(b: Board, unit: usize, buffer: &mut [u16]) -> Plain
    ensures value { result ≡ listed_plain (boundary_outcome b false unit (length buffer.old)) }
    ensures buffer_after { buffer.new ≡ written (boundary_outcome b false unit (length buffer.old)) buffer.old }
{
    Plain::from(boundary::reason_for_unit_and_its_boundary(&b, unit, buffer))
}

#[unsafe(no_mangle)]
pub extern "C" fn sendai_potential_unit_boundary(b: Board, unit: usize, buffer: &mut [u16]) -> Plain
    ensures value { result ≡ listed_plain (boundary_outcome b true unit (length buffer.old)) }
    ensures buffer_after { buffer.new ≡ written (boundary_outcome b true unit (length buffer.old)) buffer.old }
{
    Plain::from(boundary::reason_for_potential_unit_boundary(&b, unit, buffer))
}
