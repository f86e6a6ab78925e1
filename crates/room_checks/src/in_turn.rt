// The rooms of a board, one after the other.

ghost use Rattle.std.specs.Prelude.{◌≡◌, ◌≤◌, length};
ghost use Rattle.grid.specs.Grid.{border_count};

use crate::RoomFault;
use borders::Borders;
use groups::Groups;
use rooms::Room;

// The rooms of a board with marks at its given walls: the cells of each stand in turn.
#[derive(Clone, Copy)]
pub struct Rooms<'b, 'a> {
    pub borders: Borders<'b>,
    pub marks: &'a [u8],
    pub groups: Groups<'a>,
    ghost one_board: { groups.grid ≡ borders.grid },
    ghost marked: { border_count borders.grid ≤ length marks.now },
}

// The room whose count fails, and whether its list has its Walls or its Connected borders.
#[derive(Clone, Copy)]
struct Failing {
    room: usize,
    wall: bool,
}

impl<'b, 'a> Rooms<'b, 'a> {
    ghost use Rattle.std.specs.Prelude.{◌<◌, ◌*◌};
    ghost use Rattle.grid.specs.Grid.{cells};
    ghost use Rattle.borders.specs.Border.{state_of};
    ghost use Rattle.groups.specs.Groups.{cells_of};
    ghost use Rattle.rooms.specs.RoomGraph.{side_list};
    ghost use Rattle.rooms.specs.Lent.{marked_in};
    ghost use Rattle.room_checks.specs.RoomChecks.{clue_list, rooms_fault, counted_of, leaves, Checks};

    // A room with its borders.
    fn room(self, room: usize) -> Room<'b, 'a>
        requires { room < length self.groups.starts.now }
        ensures board { (result.borders.grid ≡ self.entry.borders.grid) × (result.borders.states.now ≡ self.entry.borders.states.now) }
        ensures marks { result.marks.now ≡ self.entry.marks.now }
        ensures cells { result.cells.now ≡ cells_of self.entry.borders.grid self.entry.groups.ids.now room }
    {
        Room {
            borders: self.borders,
            marks: self.marks,
            cells: self.groups.cells(room),
        }
    }

    // Which side of a room's count fails, where the room has a clue.
    fn check(self, room: usize, clue: u16) -> Option<bool>
        requires { room < length self.groups.starts.now }
        ensures { side_list self.entry.borders.grid (marked_in self.entry.marks.now) (cells_of self.entry.borders.grid self.entry.groups.ids.now room) (state_of self.entry.borders.states.now) result
            ≡ clue_list self.entry.borders.grid (marked_in self.entry.marks.now) (cells_of self.entry.borders.grid self.entry.groups.ids.now room) clue (state_of self.entry.borders.states.now) }
    {
        if clue == limits::NO_CLUE {
            return None;
        }
        self.room(room).find(usize::from(clue))
    }

    // The first of the clued rooms whose count fails.
    fn first(self, clues: &[u16]) -> Option<Failing>
        requires { length clues.now ≡ length self.groups.starts.now }
        ensures { Checks self.entry.borders.grid (marked_in self.entry.marks.now) (cells_of self.entry.borders.grid self.entry.groups.ids.now) clues.now (state_of self.entry.borders.states.now) result }
    {
        for (room, &clue) in clues.iter().enumerate() {
            if let Some(wall) = self.check(room, clue) {
                return Some(Failing { room, wall });
            }
        }
        None
    }

    // The counts of the clued rooms: the first that fails is listed.
    pub fn count(self, clues: &[u16], buffer: &mut [u16]) -> Option<RoomFault>
        requires clues { length clues.now ≡ length self.groups.starts.now }
        requires buffer { 9 * cells self.borders.grid ≤ length buffer.old }
        ensures value { result ≡ counted_of (rooms_fault self.entry.borders.grid (marked_in self.entry.marks.now) (cells_of self.entry.borders.grid self.entry.groups.ids.now) clues.now (state_of self.entry.borders.states.now)) }
        ensures buffer_after { buffer.new ≡ leaves (rooms_fault self.entry.borders.grid (marked_in self.entry.marks.now) (cells_of self.entry.borders.grid self.entry.groups.ids.now) clues.now (state_of self.entry.borders.states.now)) buffer.old }
    {
        let Failing { room, wall } = self.first(clues)?;
        let len = self.room(room).write(wall, buffer);
        Some(RoomFault { room, len })
    }
}
