// The answer about a puzzle's right boards as numbers.
ghost use Rattle.std.specs.Prelude.{◌≡◌};
ghost use Rattle.enumerate.specs.Boards.{answer_in};
ghost use Rattle.as_numbers.specs.Boards.{listing_of};

use answers::Refusal;

// How many boards were written and whether there are more; or a refusal's code with all else 0.
#[repr(C)]
#[derive(Clone, Copy, Default)]
pub struct Listing {
    pub code: u8,
    pub more: bool,
    pub count: usize,
}

impl From<Result<enumerate::Listing, Refusal>> for Listing {
    ghost from_gives = { λ listed listing. listing ≡ listing_of (answer_in listed) };

    fn from(listed: Result<enumerate::Listing, Refusal>) -> Listing {
        match listed {
            Ok(boards) => Listing {
                code: 0,
                more: boards.more,
                count: boards.count,
            },
            Err(refusal) => Listing {
                code: u8::from(refusal),
                ..Listing::default()
            },
        }
    }
}
