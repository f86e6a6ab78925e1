// The search: it chooses the next border and tries its two values. A branch ends only where an ask finds a fault.

ghost use Rattle.std.specs.Prelude.{◌≡◌, ◌+◌, ◌≤◌, length};
ghost use Rattle.std.proofs.lemmas.List.Edits.{sets};
ghost use Rattle.rooms.specs.Rooms.{room_count};
ghost use Rattle.rooms.specs.Lent.{Given};
ghost use Rattle.puzzle.specs.Kind.{images_of};

use crate::{Listing, first_undecided};
use borders::Borders;
use grid::Grid;
use puzzle::kind;
use room_checks::CluedBoard;

// What a board is right by: its puzzle's kind, by its number, its size, its given walls, and a clue for each of its rooms.
#[derive(Clone, Copy)]
pub struct Rules<'a> {
    pub kind: u8,
    pub grid: Grid,
    pub given: &'a [u16],
    pub clues: &'a [u16],
    ghost walls: { Given grid given.now },
    ghost one_each: { length clues.now ≡ room_count grid given.now },
}

// A search under way: the lists of its asks and the boards that it finds, as many as the cap, go to slices that are lent.
#[derive(Drop)]
struct Search<'r, 'a> {
    rules: Rules<'r>,
    list: &'a mut [u16],
    boards: &'a mut [u8],
    cap: usize,
    listing: Listing,
}

// Writes a board from a place on. A loop, as the compiler would leave copy_from_slice a memmove, which the archive for C needs nowhere else.
fn write_board(board: &[u8], boards: &mut [u8], at: usize)
    requires { at + length board.now ≤ length boards.old }
    ensures { boards.new ≡ sets boards.old at board.now }
{
    for (i, &state) in board.iter().enumerate() {
        boards[at + i] = state;
    }
}

impl Search<'_, '_> {
    ghost use Rattle.enumerate.specs.Search.{Fits, written_in, add, Searching, Trying, searched, Kept};

    // Writes a board behind those that are written, or notes that there is one more than the cap.
    fn keep(&mut self, board: &[u8])
        requires { Fits (length board.now) (written_in self.old) }
        ensures kept { Kept self.old self.new }
        ensures boards_after { written_in self.new ≡ add (written_in self.old) board.now }
    {
        if self.listing.count < self.cap {
            write_board(board, self.boards, self.listing.count * board.len());
            self.listing.count += 1;
            return;
        }
        self.listing.more = true;
    }

    // Goes on from a board as it stands: nothing more is written once there is one more than the cap or where an ask finds a fault, a full
    // board is kept, and else the first undecided border is tried.
    #[cycle(choose_border_try_values)]
    fn choose_border(&mut self, states: &mut [u8])
        requires { Searching (images_of self.old.rules.kind) self.old.rules.grid states.old self.old.list.now (written_in self.old) }
        ensures kept { Kept self.old self.new }
        ensures states_unchanged { states.new ≡ states.old }
        ensures boards_after { written_in self.new ≡ searched (images_of self.old.rules.kind) self.old.rules.grid self.old.rules.given.now self.old.rules.clues.now states.old (written_in self.old) }
    {
        if self.listing.more {
            return;
        }
        let borders = Borders {
            grid: self.rules.grid,
            states,
        };
        let board = CluedBoard {
            borders,
            given: self.rules.given,
            clues: self.rules.clues,
        };
        let images = kind::images_of(self.rules.kind);
        if puzzle::fault_of(board, images, self.list).is_some() {
            return;
        }
        match first_undecided(states) {
            None => self.keep(states),
            Some(border) => self.try_values(border, states),
        }
    }

    // Tries the two values of the first undecided border, Connected and then Wall, and leaves it undecided again.
    #[cycle(choose_border_try_values)]
    fn try_values(&mut self, border: usize, states: &mut [u8])
        requires trying { Trying border states.old }
        requires searching { Searching (images_of self.old.rules.kind) self.old.rules.grid states.old self.old.list.now (written_in self.old) }
        ensures kept { Kept self.old self.new }
        ensures states_unchanged { states.new ≡ states.old }
        ensures boards_after { written_in self.new ≡ searched (images_of self.old.rules.kind) self.old.rules.grid self.old.rules.given.now self.old.rules.clues.now states.old (written_in self.old) }
    {
        states[border] = 1;
        self.choose_border(states);
        states[border] = 2;
        self.choose_border(states);
        states[border] = 0;
    }
}

impl Rules<'_> {
    ghost use Rattle.std.specs.Prelude.{◌≤◌};
    ghost use Rattle.limits.specs.Limits.{most_image_entries};
    ghost use Rattle.puzzle.specs.Kind.{ask_room};
    ghost use Rattle.enumerate.specs.Boards.{listing, said, rights};
    ghost use Rattle.enumerate.specs.Search.{Started};

    // The right boards over these states, by a search from the start. The lists of its asks have an array of their own, of N places. Never inlined,
    // so that no frame has the arrays of both kinds.
    #[inline(never)]
    fn search_in<const N: usize>(self, states: &mut [u8], cap: usize, boards: &mut [u8]) -> Listing
        requires room { (ask_room self.kind self.grid ≤ N) × (N ≤ most_image_entries) }
        requires started { Started self.grid states.old cap boards.old }
        ensures value { said result ≡ (listing (rights (images_of self.entry.kind) self.entry.grid self.entry.given.now self.entry.clues.now states.old) cap boards.old).answer }
        ensures boards_after { boards.new ≡ (listing (rights (images_of self.entry.kind) self.entry.grid self.entry.given.now self.entry.clues.now states.old) cap boards.old).buffer }
    {
        let mut list = [0u16; N];
        let mut search = Search {
            rules: self,
            list: &mut list,
            boards,
            cap,
            listing: Listing {
                count: 0,
                more: false,
            },
        };
        search.choose_border(states);
        search.listing
    }

    // The same by an array that is no longer than the kind asks, since all of an array is zeroed.
    pub fn search(self, states: &mut [u8], cap: usize, boards: &mut [u8]) -> Listing
        requires { Started self.grid states.old cap boards.old }
        ensures value { said result ≡ (listing (rights (images_of self.entry.kind) self.entry.grid self.entry.given.now self.entry.clues.now states.old) cap boards.old).answer }
        ensures boards_after { boards.new ≡ (listing (rights (images_of self.entry.kind) self.entry.grid self.entry.given.now self.entry.clues.now states.old) cap boards.old).buffer }
    {
        if self.kind == 0 {
            self.search_in::<{ limits::ENTRIES }>(states, cap, boards)
        } else {
            self.search_in::<{ limits::IMAGE_ENTRIES }>(states, cap, boards)
        }
    }
}
