// An image of a unit as lists of codes, of its cells and of its borders that must land well: each reads a row's word so that one bit of it
// speaks of one offset.
#![tactic(auto)]

ghost use Rattle.std.specs.Prelude.{◌≡◌, ◌+◌, ◌-◌, ◌*◌, ◌≤◌, length};
ghost use Rattle.boundary.specs.Appended.{Appended};
ghost use Rattle.boundary.specs.Writes.{Writes};
ghost use Rattle.words.specs.Layout.{base_of, side_at, back_of};
ghost use Rattle.offsets.specs.Landings.{is_inner};
ghost use Rattle.unit_codes.specs.Codes.{code_at, codes_of, part_codes, cell_codes, border_codes};
ghost use Rattle.unit_codes.specs.Spans.{Spaced};

use boundary::Entries;
use grid::Direction;
use images::Spot;
use member::Member;
use offsets::landings::Kind;
use turned::Turned;

mod member;
pub mod turned;

// The place of row 0's word for the Walls in a direction.
fn base_of(direction: Direction) -> u16
    ensures { result ≡ base_of direction }
{
    match direction {
        Direction::Up => 0,
        Direction::Down => 1,
        Direction::Left => 33,
        Direction::Right => 33,
    }
}

// The same for Walls, on which inner borders must not land, or else for Connected borders.
fn side_at(kind: Kind, direction: Direction) -> u16
    ensures { result ≡ side_at (is_inner kind) direction }
{
    match kind {
        Kind::Inner => base_of(direction),
        Kind::Outer => 66 + base_of(direction),
    }
}

// The border left of a cell is the one right of the cell before it.
fn back_of(direction: Direction) -> u16
    ensures { result ≡ back_of direction }
{
    u16::from(direction == Direction::Left)
}

// The code of a cell: it reads so many rows further on as the cell is behind the image's first row, moved by its columns and 32 more.
fn cell_code(at: Spot, from: Spot) -> u16
    requires { Spaced at from }
    ensures { result ≡ 64 * (at.row - from.row) + (32 + at.col - from.col) }
{
    (64 * (at.row - from.row) + (32 + at.col - from.col)) as u16
}

// The code of its border in a direction of the image.
fn border_code(kind: Kind, direction: Direction, at: Spot, from: Spot) -> u16
    requires { Spaced at from }
    ensures { result ≡ 64 * (side_at (is_inner kind) direction + (at.row - from.row)) + (32 + at.col - back_of direction - from.col) }
{
    let rows = usize::from(side_at(kind, direction)) + (at.row - from.row);
    let back = usize::from(back_of(direction));
    (64 * rows + (32 + at.col - back - from.col)) as u16
}

// Writes the codes of a unit's cells, and returns how many. Inlined, so that nothing is turned where the image is known to be a translate.
#[inline(always)]
pub fn write_cells(turned: Turned<'_>, codes: &mut [u16]) -> usize
    requires { length turned.unit.cells.now ≤ length codes.old }
    ensures { Appended codes.old 0 (cell_codes turned.entry.image turned.entry.unit.chart.borders.grid turned.entry.rows.top turned.entry.unit.cells.now) codes.new result }
{
    let cells = turned.unit.cells;
    for (i, &cell) in cells.iter().enumerate() {
        let at = turned::place(turned.unit.chart, turned.image, usize::from(cell));
        codes[i] = cell_code(at, turned.rows.from);
    }
    cells.len()
}

impl Member<'_> {
    // Writes the code of the cell's border in a direction of the board, if it must land well.
    #[inline(always)]
    fn note(self, direction: Direction, list: &mut Entries<'_>)
        requires { list.old.len + length (code_at self.turned.image self.turned.unit.chart.borders.grid self.turned.unit.chart.borders.states.now self.turned.unit.chart.table.now self.turned.unit.cells.now self.turned.rows.top (is_inner self.kind) self.cell direction) ≤ length list.old.buffer.now }
        ensures { Writes (code_at self.entry.turned.image self.entry.turned.unit.chart.borders.grid self.entry.turned.unit.chart.borders.states.now self.entry.turned.unit.chart.table.now self.entry.turned.unit.cells.now self.entry.turned.rows.top (is_inner self.entry.kind) self.entry.cell direction) list.old list.new }
    {
        let Turned {
            unit,
            image,
            rows,
            ..
        } = self.turned;
        let number = unit.first().unit;
        if unit.chart.keeps(number, self.kind, self.cell, direction) {
            let lands = image.direction(direction);
            list.push(border_code(self.kind, lands, self.at, rows.from));
        }
    }

    // Writes the codes of all its borders that must land well.
    #[inline(always)]
    fn note_all(self, list: &mut Entries<'_>)
        requires { list.old.len + length (codes_of self.turned.image self.turned.unit.chart.borders.grid self.turned.unit.chart.borders.states.now self.turned.unit.chart.table.now self.turned.unit.cells.now self.turned.rows.top (is_inner self.kind) self.cell) ≤ length list.old.buffer.now }
        ensures { Writes (codes_of self.entry.turned.image self.entry.turned.unit.chart.borders.grid self.entry.turned.unit.chart.borders.states.now self.entry.turned.unit.chart.table.now self.entry.turned.unit.cells.now self.entry.turned.rows.top (is_inner self.entry.kind) self.entry.cell) list.old list.new }
    {
        for &direction in self.kind.directions() {
            self.note(direction, list);
        }
    }
}

// The same for all cells of the unit. Inlined down to the entry, the list is a local one, whose length stays in a register.
#[inline(always)]
fn note_cells(turned: Turned<'_>, kind: Kind, list: &mut Entries<'_>)
    requires { list.old.len + length (part_codes turned.image turned.unit.chart.borders.grid turned.unit.chart.borders.states.now turned.unit.chart.table.now turned.unit.cells.now turned.rows.top (is_inner kind)) ≤ length list.old.buffer.now }
    ensures { Writes (part_codes turned.entry.image turned.entry.unit.chart.borders.grid turned.entry.unit.chart.borders.states.now turned.entry.unit.chart.table.now turned.entry.unit.cells.now turned.entry.rows.top (is_inner kind)) list.old list.new }
{
    for &cell in turned.unit.cells {
        let cell = usize::from(cell);
        let member = Member {
            turned,
            cell,
            at: turned::place(turned.unit.chart, turned.image, cell),
            kind,
        };
        member.note_all(list);
    }
}

// Writes the codes of the unit's borders that must land well, at most six for each cell, and returns how many.
#[inline(always)]
pub fn write_borders(turned: Turned<'_>, codes: &mut [u16]) -> usize
    requires { 6 * length turned.unit.cells.now ≤ length codes.old }
    ensures { Appended codes.old 0 (border_codes turned.entry.image turned.entry.unit.chart.borders.grid turned.entry.unit.chart.borders.states.now turned.entry.unit.chart.table.now turned.entry.rows.top turned.entry.unit.cells.now) codes.new result }
{
    let mut list = Entries {
        buffer: codes,
        len: 0,
    };
    note_cells(turned, Kind::Inner, &mut list);
    note_cells(turned, Kind::Outer, &mut list);
    list.len
}
