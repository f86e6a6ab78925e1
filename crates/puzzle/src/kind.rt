// The kind of a puzzle: which images of a unit may be its partner.

ghost use Rattle.std.specs.Prelude.{◌≡◌};
ghost use Rattle.puzzle.specs.Kind.{kind_number, images_of};

use images::Image;

// Translates only move. Images are turned and mirrored too.
#[derive(Clone, Copy, Debug, PartialEq, Eq)]
pub enum Kind {
    Translates,
    Images,
}

impl Kind {
    // The kind's number in a record.
    pub fn number(self) -> u8
        ensures { result ≡ kind_number self }
    {
        match self {
            Kind::Translates => 0,
            Kind::Images => 1,
        }
    }
}

// The images that a kind's puzzles try, by the kind's number.
pub fn images_of(kind: u8) -> &'static [Image]
    ensures { result.now ≡ images_of kind }
{
    if kind == 0 {
        images::translates()
    } else {
        images::all()
    }
}
