// The public calls for programs in Rust and C, each a thin wrapper with its call's contract. A record goes in and comes back
// by value, laid out as in C; a slice is a pointer and a length, a lent board or puzzle a pointer. An enum does not cross: it
// is handed over as numbers.
#![tactic(auto)]

mod boards;
mod boundaries;
mod cases;
mod edges;
mod files;
mod groupings;
mod hands;
mod in_place;
mod paths;
mod places;
mod prints;
mod puzzles;
mod room_graphs;
mod shapes;
mod unions;
mod versions;

pub use boards::{
    sendai_board_check, sendai_board_decide, sendai_board_make, sendai_board_stroke,
    sendai_board_undo,
};
pub use boundaries::{sendai_potential_unit_boundary, sendai_unit_boundary};
pub use cases::{sendai_case_generate, sendai_case_open, sendai_case_run};
pub use edges::sendai_room_make_of_edges;
pub use files::{sendai_file_call, sendai_file_decode, sendai_file_number, sendai_file_numbers};
pub use groupings::{sendai_group, sendai_groups};
pub use hands::sendai_hand_over;
pub use in_place::{
    sendai_board_ask_in_place, sendai_board_decide_in_place, sendai_board_stroke_in_place,
    sendai_board_undo_in_place, sendai_puzzle_ask_in_place, sendai_puzzle_decide_in_place,
    sendai_puzzle_stroke_in_place, sendai_puzzle_undo_in_place,
};
pub use paths::sendai_path;
pub use places::sendai_neighbour;
pub use prints::sendai_line;
pub use puzzles::{
    sendai_puzzle_ask, sendai_puzzle_check, sendai_puzzle_decide, sendai_puzzle_make,
    sendai_puzzle_make_images, sendai_puzzle_right_boards, sendai_puzzle_stroke,
    sendai_puzzle_undo,
};
pub use room_graphs::{
    sendai_room_ask, sendai_room_check, sendai_room_decide, sendai_room_make, sendai_room_stroke,
    sendai_room_undo,
};
pub use shapes::sendai_board_ask;
pub use unions::{sendai_union_find, sendai_union_new, sendai_union_unite};
pub use versions::sendai_version;
