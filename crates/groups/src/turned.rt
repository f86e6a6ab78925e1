// The groups of a board in turn, as those read them who hold the slices in which they were written.
ghost use Rattle.std.specs.Prelude.{◌≡◌, ◌<◌, get_or, length};
ghost use Rattle.groups.specs.Groups.{cells_of};
ghost use Rattle.groups.specs.Info.{address_of};
ghost use Rattle.groups.specs.Lent.{InTurn};

use grid::Grid;

// The groups of a board: each cell's group, where each group's cells begin in `flat`, and there the cells of all groups in turn.
#[derive(Clone, Copy)]
pub struct Groups<'a> {
    pub grid: Grid,
    pub ids: &'a [u16],
    pub starts: &'a [u16],
    pub flat: &'a [u16],
    ghost turns: { InTurn grid ids.now (length starts.now) starts.now flat.now },
}

impl<'a> Groups<'a> {
    // How many groups there are.
    pub fn len(self) -> usize
        ensures { result ≡ length self.entry.starts.now }
    {
        self.starts.len()
    }

    // The cells of a group, in row order.
    pub fn cells(self, group: usize) -> &'a [u16]
        requires { group < length self.starts.now }
        ensures cells_are { result.now ≡ cells_of self.entry.grid self.entry.ids.now group }
        ensures address_is { result.ref_ptr ≡ address_of self.entry.flat.ref_ptr (get_or self.entry.starts.now group 0) }
    {
        crate::cells_of(self.grid, self.starts, self.flat, group)
    }
}
