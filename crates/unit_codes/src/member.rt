// A cell of a unit, whose borders are looked at.
ghost use Rattle.unit_codes.specs.Spans.{MemberAt};

use crate::turned::Turned;
use images::Spot;
use offsets::landings::Kind;

// A cell of a unit, where it stands in the image, and which of its borders are looked at.
#[derive(Clone, Copy)]
pub struct Member<'a> {
    pub turned: Turned<'a>,
    pub cell: usize,
    pub at: Spot,
    pub kind: Kind,
    ghost member: { MemberAt turned.image turned.unit.chart.borders.grid turned.unit.cells.now cell at },
}
