// The groups' calls. The part of the buffer that a group's hand-out is cannot be returned here: it is copied to a second one.
ghost use Rattle.std.specs.Prelude.{◌≡◌, ◌≤◌, length};
ghost use Rattle.std.proofs.lemmas.List.Edits.{sets};
ghost use Rattle.groups.specs.Info.{grouping_of, buffer_of, hand_out_of};
ghost use Rattle.exports.specs.Groups.{copied_of};

use board::Board;
use groups::{GroupInfo, Grouping};

// Copies a part to the front of `out`. A loop, as the compiler would leave copy_from_slice a memmove, which the archive needs nowhere else.
fn copy(part: &[u16], out: &mut [u16])
    requires { length part.now ≤ length out.old }
    ensures { out.new ≡ sets out.old 0 part.now }
{
    for (i, &cell) in part.iter().enumerate() {
        out[i] = cell;
    }
}

#[unsafe(no_mangle)]
pub extern "C" fn sendai_groups(b: Board, is_potential: bool, buffer: &mut [u16]) -> Grouping
    ensures value { result ≡ grouping_of b is_potential (length buffer.old) }
    ensures buffer_after { buffer.new ≡ buffer_of b is_potential buffer.old }
{
    Grouping::from(groups::compute_connected_components(&b, is_potential, buffer))
}

// How many cells the group has; they are copied to the front of `out`. 0, and nothing is copied, where the hand-out is refused or `out`
// has fewer places.
#[unsafe(no_mangle)]
pub extern "C" fn sendai_group(i: GroupInfo, buffer: &[u16], k: usize, out: &mut [u16]) -> usize
    ensures value { result ≡ length (copied_of (hand_out_of i buffer.now k) (length out.old)) }
    ensures out_after { out.new ≡ sets out.old 0 (copied_of (hand_out_of i buffer.now k) (length out.old)) }
{
    let part = i.group(buffer, k);
    if out.len() < part.len() {
        return 0;
    }
    copy(part, out);
    part.len()
}
