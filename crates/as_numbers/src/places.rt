// What lies beyond a cell as numbers.
ghost use Rattle.std.specs.Prelude.{◌≡◌};
ghost use Rattle.as_numbers.specs.Places.{place_of};

use answers::Refusal;
use grid::Neighbour;

// What lies beyond a cell: code 0 with the neighbour and the border, or with `ends` where the board ends; else refused.
#[repr(C)]
#[derive(Clone, Copy, Default)]
pub struct Place {
    pub code: u8,
    pub ends: bool,
    pub cell: usize,
    pub border: usize,
}

impl From<Result<Option<Neighbour>, Refusal>> for Place {
    ghost from_gives = { λ beyond place. place ≡ place_of beyond };

    fn from(beyond: Result<Option<Neighbour>, Refusal>) -> Place {
        match beyond {
            Ok(Some(Neighbour { cell, border })) => Place {
                code: 0,
                ends: false,
                cell,
                border,
            },
            Ok(None) => Place {
                ends: true,
                ..Place::default()
            },
            Err(refusal) => Place {
                code: u8::from(refusal),
                ..Place::default()
            },
        }
    }
}
