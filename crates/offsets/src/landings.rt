// Where a unit's borders land: its inner borders must not land on a Wall, its Walls and board edges not on a Connected border.
ghost use Rattle.std.specs.Prelude.{◌≡◌};
ghost use Rattle.grid.specs.Grid.{Cell};
ghost use Rattle.offsets.specs.Told.{told};
ghost use Rattle.offsets.specs.Table.{units_in};
ghost use Rattle.offsets.specs.Landings.{Turning, Falling, is_inner, directions_of, bad_of, kept_of, lands_badly, has_bad, fail_at, fail_cell, first_fail};

use crate::chart::Chart;
use crate::shift::Shift;
use grid::Direction;
use images::Spot;

// Which of a unit's borders are looked at: those between its cells, or else its Walls and the board's edges.
#[derive(Clone, Copy, Debug, PartialEq, Eq)]
pub enum Kind {
    Inner,
    Outer,
}

impl Kind {
    pub fn is_inner(self) -> bool
        ensures { result ≡ is_inner self }
    {
        self == Kind::Inner
    }

    // In which directions a cell's are looked at: those between two cells from the upper or left one.
    pub fn directions(self) -> &'static [Direction]
        ensures { result.now ≡ directions_of (is_inner self) }
    {
        match self {
            Kind::Inner => &grid::FORWARD,
            Kind::Outer => &grid::AROUND,
        }
    }

    // A Wall, for an inner border; else a Connected border.
    fn is_bad(self, state: u8) -> bool
        ensures { result ≡ bad_of (is_inner self) state }
    {
        match self {
            Kind::Inner => state == 2,
            Kind::Outer => state == 1,
        }
    }
}

impl Chart<'_> {
    // Whether the border of a cell must land well: one between cells of the unit, or else a Wall or the board's edge.
    #[inline(always)]
    pub fn keeps(self, unit: u16, kind: Kind, cell: usize, direction: Direction) -> bool
        requires { Cell self.borders.grid cell }
        ensures { result ≡ kept_of self.entry.borders.grid self.entry.borders.states.now (units_in self.entry.borders.grid self.entry.table.now) (is_inner kind) unit cell direction }
    {
        let Spot { row, col } = self.table[cell].spot();
        let beyond = self.borders.grid.step_at(row, col, cell, direction);
        let Some(neighbour) = beyond else {
            return !kind.is_inner();
        };
        match kind {
            Kind::Inner => self.table[neighbour.cell].unit == unit,
            Kind::Outer => self.borders.states[neighbour.border] == 2,
        }
    }

    // Whether the border of a cell in a direction lands badly, where the cell falls on `fallen`: it lands there, which is sooner told than the
    // place that an entry wants.
    #[inline(always)]
    fn lands_badly(
        self,
        shift: Shift,
        kind: Kind,
        cell: usize,
        fallen: usize,
        direction: Direction,
    ) -> bool
        requires { Cell self.borders.grid cell × Cell self.borders.grid fallen }
        ensures { result ≡ lands_badly self.entry.borders.grid shift self.entry.borders.states.now (units_in self.entry.borders.grid self.entry.table.now) (is_inner kind) cell fallen direction }
    {
        if !self.keeps(shift.unit, kind, cell, direction) {
            return false;
        }
        let Spot { row, col } = self.table[fallen].spot();
        let lands = shift.image.direction(direction);
        match self.borders.grid.step_at(row, col, fallen, lands) {
            Some(beyond) => kind.is_bad(self.borders.states[beyond.border]),
            None => false,
        }
    }

    // Whether one of the borders of a cell that falls on `fallen` lands badly. Around a cell without a Wall or an edge on a side only inner borders
    // must land well. The directions are written out as in `cell_failure`.
    #[inline(always)]
    pub fn has_bad(self, shift: Shift, cell: usize, fallen: usize) -> bool
        requires { Cell self.borders.grid cell × Cell self.borders.grid fallen }
        ensures { result ≡ has_bad self.entry.borders.grid shift self.entry.borders.states.now (units_in self.entry.borders.grid self.entry.table.now) cell fallen }
    {
        if self.lands_badly(shift, Kind::Inner, cell, fallen, Direction::Down) {
            return true;
        }
        if self.lands_badly(shift, Kind::Inner, cell, fallen, Direction::Right) {
            return true;
        }
        if !self.is_shut(cell) {
            return false;
        }
        if self.lands_badly(shift, Kind::Outer, cell, fallen, Direction::Up) {
            return true;
        }
        if self.lands_badly(shift, Kind::Outer, cell, fallen, Direction::Down) {
            return true;
        }
        if self.lands_badly(shift, Kind::Outer, cell, fallen, Direction::Left) {
            return true;
        }
        self.lands_badly(shift, Kind::Outer, cell, fallen, Direction::Right)
    }

    // The entry of a cell's border in a direction, where it lands badly.
    #[inline(always)]
    fn failure(self, shift: Shift, kind: Kind, cell: usize, direction: Direction) -> Option<u16>
        requires { Turning self.borders.grid shift cell }
        ensures { result ≡ told (fail_at self.entry.borders.grid shift self.entry.borders.states.now (units_in self.entry.borders.grid self.entry.table.now) (is_inner kind) cell direction) }
    {
        if !self.keeps(shift.unit, kind, cell, direction) {
            return None;
        }
        let spot = self.table[cell].spot();
        let border = shift.lands(self.borders.grid, spot, direction)?;
        let entry = borders::entry(border, kind.is_inner());
        kind.is_bad(self.borders.states[border]).then_some(entry)
    }

    // The entry of a cell's first border that lands badly. The directions of `Kind::directions` are written out, since a step is compiled for
    // each: a loop over them took half as long again.
    #[inline(always)]
    pub fn cell_failure(self, shift: Shift, kind: Kind, cell: usize) -> Option<u16>
        requires { Turning self.borders.grid shift cell }
        ensures { result ≡ told (fail_cell self.entry.borders.grid shift self.entry.borders.states.now (units_in self.entry.borders.grid self.entry.table.now) (is_inner kind) cell) }
    {
        match kind {
            Kind::Inner => {
                if let Some(entry) = self.failure(shift, Kind::Inner, cell, Direction::Down) {
                    return Some(entry);
                }
                self.failure(shift, Kind::Inner, cell, Direction::Right)
            }
            Kind::Outer => {
                if let Some(entry) = self.failure(shift, Kind::Outer, cell, Direction::Up) {
                    return Some(entry);
                }
                if let Some(entry) = self.failure(shift, Kind::Outer, cell, Direction::Down) {
                    return Some(entry);
                }
                if let Some(entry) = self.failure(shift, Kind::Outer, cell, Direction::Left) {
                    return Some(entry);
                }
                self.failure(shift, Kind::Outer, cell, Direction::Right)
            }
        }
    }

    // The entry of the first border of a kind that lands badly, of cells in turn.
    #[inline(always)]
    pub fn first_failure(self, shift: Shift, kind: Kind, cells: &[u16]) -> Option<u16>
        requires { Falling self.borders.grid cells.now shift }
        ensures { result ≡ told (first_fail self.entry.borders.grid shift self.entry.borders.states.now (units_in self.entry.borders.grid self.entry.table.now) (is_inner kind) cells.now) }
    {
        for &cell in cells {
            if let Some(entry) = self.cell_failure(shift, kind, usize::from(cell)) {
                return Some(entry);
            }
        }
        None
    }
}
