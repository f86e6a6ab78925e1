// The room graph's calls.
ghost use Rattle.std.specs.Prelude.{◌≡◌, length};
ghost use Rattle.answers.specs.Answers.{written};
ghost use Rattle.answers.specs.Refusals.{answer_plain};
ghost use Rattle.ledger.specs.Ledger.{decisions};
ghost use Rattle.city_count.specs.Room.{make_of, room_code, stroke_of, decide_of, undo_of, ask_of};

use answers::Plain;
use city_count::{CityCountConstraint, Decided};

#[unsafe(no_mangle)]
pub extern "C" fn sendai_room_make<'a>(
    n: usize,
    us: &'a [u16],
    vs: &'a [u16],
    count: u32,
) -> Decided
    ensures { result ≡ make_of n us.now vs.now count }
{
    city_count::make(n, us, vs, count)
}

#[unsafe(no_mangle)]
pub extern "C" fn sendai_room_check(r: CityCountConstraint) -> u8
    ensures { result ≡ room_code r }
{
    answers::code_of(r.check())
}

#[unsafe(no_mangle)]
pub extern "C" fn sendai_room_stroke(r: CityCountConstraint, entries: &[u16]) -> Decided
    ensures { result ≡ stroke_of r (decisions entries.now) }
{
    let mut out = Decided { code: 0, room: r };
    out.code = answers::code_of(out.room.stroke(entries));
    out
}

#[unsafe(no_mangle)]
pub extern "C" fn sendai_room_decide(r: CityCountConstraint, edge: usize, wall: bool) -> Decided
    ensures { result ≡ decide_of r edge wall }
{
    let mut out = Decided { code: 0, room: r };
    out.code = answers::code_of(out.room.decide(edge, wall));
    out
}

#[unsafe(no_mangle)]
pub extern "C" fn sendai_room_undo(r: CityCountConstraint) -> Decided
    ensures { result ≡ undo_of r }
{
    let mut out = Decided { code: 0, room: r };
    out.code = answers::code_of(out.room.undo());
    out
}

#[unsafe(no_mangle)]
pub extern "C" fn sendai_room_ask(r: CityCountConstraint, buffer: &mut [u16]) -> Plain
    ensures value { result ≡ answer_plain (ask_of r (length buffer.old)) }
    ensures buffer_after { buffer.new ≡ written (ask_of r (length buffer.old)) buffer.old }
{
    Plain::from(r.ask(buffer))
}
