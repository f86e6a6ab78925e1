// The shape check (`SendaiShapeConstraint::find_inconsistency`): a board's ask.
#![tactic(auto)]

ghost use Rattle.std.specs.Prelude.{◌≡◌, ◌+◌, ◌*◌, ◌≤◌, length};
ghost use Rattle.lists.specs.Lists.{In};
ghost use Rattle.grid.specs.Grid.{cells};
ghost use Rattle.images.specs.Images.{translate};
ghost use Rattle.shape.specs.Shape.{shape_fault};
ghost use Rattle.answers.specs.Answers.{Finds, written};
ghost use Rattle.answers.specs.Refusals.{Answers};
ghost use Rattle.shape_check.specs.Answer.{shape_outcome};

use answers::Refusal;
use board::Board;
use borders::Borders;
use groups::GroupArrays;
use images::Image;
use limits::CELLS;

// The check of borders on a board of at most N cells: inner Walls, and else the units in order. The arrays are no longer than N asks, since all of
// an array is zeroed. Where no border is undecided the potential units are the units.
fn fault_in<const N: usize, const STARTS: usize, const NEAR: usize, const BORDERS: usize>(
    b: Borders<'_>,
    images: &[Image],
    buffer: &mut [u16],
) -> Option<usize>
    requires translates { In translate images.now }
    requires enough { (length images.now + 8) * cells b.grid ≤ length buffer.old }
    requires room { (cells b.grid ≤ N) × (cells b.grid + 1 ≤ STARTS) × (4 * cells b.grid ≤ NEAR) × (6 * cells b.grid ≤ BORDERS) }
    requires arrays_small { (N ≤ 1024) × (STARTS ≤ 1025) × (NEAR ≤ 4096) × (BORDERS ≤ 6144) }
    ensures { Finds (shape_fault images.now b.entry.grid b.entry.states.now) buffer.old buffer.new result }
{
    let mut arrays = GroupArrays::<N>::blank();
    let units = arrays.group(b, false);
    if let Some(len) = inner_walls::inner_wall(b, units.ids, buffer) {
        return Some(len);
    }
    let mut others = GroupArrays::<N>::blank();
    let potentials = if b.are_decided() {
        units
    } else {
        others.group(b, true)
    };
    unit_check::check::<N, STARTS, NEAR, BORDERS>(b, units, potentials, images, buffer)
}

// The check of borders over a list of images: inner Walls, and else the units in order.
pub fn shape_fault(b: Borders<'_>, images: &[Image], buffer: &mut [u16]) -> Option<usize>
    requires translates { In translate images.now }
    requires enough { (length images.now + 8) * (b.grid.height * b.grid.width) ≤ length buffer.old }
    ensures { Finds (shape_fault images.now b.entry.grid b.entry.states.now) buffer.old buffer.new result }
{
    let cells = b.grid.cell_count();
    if cells <= 64 {
        return fault_in::<64, 65, 256, 384>(b, images, buffer);
    }
    if cells <= 400 {
        return fault_in::<400, 401, 1600, 2400>(b, images, buffer);
    }
    fault_in::<CELLS, 1025, 4096, 6144>(b, images, buffer)
}

// A board's ask: whether its standing borders contradict the laws that concern shape, and by which, where partners are translates.
pub fn find_inconsistency(b: &Board, buffer: &mut [u16]) -> Result<Option<usize>, Refusal>
    ensures value { Answers (shape_outcome b.now (length buffer.old)) result }
    ensures buffer_after { buffer.new ≡ written (shape_outcome b.now (length buffer.old)) buffer.old }
{
    b.check()?;
    let borders = b.borders();
    if buffer.len() < 9 * borders.grid.cell_count() {
        return Err(Refusal::ShortBuffer);
    }
    Ok(shape_fault(borders, images::translates(), buffer))
}
