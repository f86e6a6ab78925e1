// The counts of a puzzle's clued rooms, in their order: the first that fails, and its list.
#![tactic(auto)]

ghost use Rattle.std.specs.Prelude.{◌≡◌, length};
ghost use Rattle.rooms.specs.Rooms.{room_count};
ghost use Rattle.rooms.specs.Lent.{Given};
ghost use Rattle.room_checks.specs.RoomChecks.{none_clued};

use borders::Borders;
use groups::Groups;
use in_turn::Rooms;

mod in_turn;

// A room whose count fails, and its list's length.
#[derive(Clone, Copy, Debug, PartialEq, Eq)]
pub struct RoomFault {
    pub room: usize,
    pub len: usize,
}

// A board as it stands, with its given walls and a clue for each of its rooms. The borders have a lifetime of their own: a search writes them
// between its asks.
#[derive(Clone, Copy)]
pub struct CluedBoard<'b, 'a> {
    pub borders: Borders<'b>,
    pub given: &'a [u16],
    pub clues: &'a [u16],
    ghost walls: { Given borders.grid given.now },
    ghost one_each: { length clues.now ≡ room_count borders.grid given.now },
}

// Whether no room has a clue: then there is nothing to count.
fn none_clued(clues: &[u16]) -> bool
    ensures { result ≡ none_clued clues.now }
{
    clues.iter().all(|&clue| clue == limits::NO_CLUE)
}

impl CluedBoard<'_, '_> {
    ghost use Rattle.std.specs.Prelude.{◌*◌, ◌≤◌};
    ghost use Rattle.limits.specs.Limits.{most_cells};
    ghost use Rattle.grid.specs.Grid.{cells};
    ghost use Rattle.room_checks.specs.RoomChecks.{rooms_in, counted_of, leaves};

    // The counts of the clued rooms, by arrays with a place for each cell.
    fn count_in<const N: usize>(self, buffer: &mut [u16]) -> Option<RoomFault>
        requires buffer { 9 * cells self.borders.grid ≤ length buffer.old }
        requires room { (cells self.borders.grid ≤ N) × (N ≤ most_cells) }
        ensures value { result ≡ counted_of (rooms_in self.entry.borders.grid self.entry.given.now self.entry.clues.now self.entry.borders.states.now) }
        ensures buffer_after { buffer.new ≡ leaves (rooms_in self.entry.borders.grid self.entry.given.now self.entry.clues.now self.entry.borders.states.now) buffer.old }
    {
        let grid = self.borders.grid;
        let n = grid.cell_count();
        let mut ids = [0u16; N];
        let mut sizes = [0u16; N];
        let count = rooms::rooms_of(grid, self.given, &mut ids, &mut sizes);
        let mut starts = [0u16; N];
        let mut flat = [0u16; N];
        groups::put_in_turn(&ids[..n], &mut sizes[..count], &mut starts, &mut flat);
        let mut marks = [0u8; limits::BORDERS];
        lists::write_at(self.given, 1, &mut marks);
        let groups = Groups {
            grid,
            ids: &ids[..n],
            starts: &starts[..count],
            flat: &flat,
        };
        let rooms = Rooms {
            borders: self.borders,
            marks: &marks,
            groups,
        };
        rooms.count(self.clues, buffer)
    }

    // The counts of the clued rooms: the first that fails is listed. Where no room has a clue the rooms are not found. A small board has
    // short arrays, since all of an array is zeroed.
    pub fn count_rooms(self, buffer: &mut [u16]) -> Option<RoomFault>
        requires { 9 * cells self.borders.grid ≤ length buffer.old }
        ensures value { result ≡ counted_of (rooms_in self.entry.borders.grid self.entry.given.now self.entry.clues.now self.entry.borders.states.now) }
        ensures buffer_after { buffer.new ≡ leaves (rooms_in self.entry.borders.grid self.entry.given.now self.entry.clues.now self.entry.borders.states.now) buffer.old }
    {
        if none_clued(self.clues) {
            None
        } else if self.borders.grid.is_small() {
            self.count_in::<128>(buffer)
        } else {
            self.count_in::<{ limits::CELLS }>(buffer)
        }
    }
}
