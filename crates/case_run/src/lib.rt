// Case runs: a case file's puzzle, its calls on that puzzle, and the lines that they print, as bytes in a lent buffer.
#![tactic(auto)]

ghost use Rattle.std.specs.Prelude.{◌≡◌, [], ◌≤◌, length, drop};
ghost use Rattle.std.proofs.lemmas.List.Edits.{sets};
ghost use Rattle.limits.specs.Limits.{most_image_entries, longest_line};
ghost use Rattle.case_file.specs.Sound.{decode_of};
ghost use Rattle.case_file.specs.declared.Call.TheVariants.{Ask};
ghost use Rattle.answers.specs.Refusals.{code_of};
ghost use Rattle.lines.specs.Line.{line_of};
ghost use Rattle.case_run.specs.CaseRun.{opened_of, opened_in, ran_in, length_in, check_line, code_line, line_by, printed_by, code_in, done_in, ran_of, Enough, Tells, Turned};

use answers::Refusal;
use case_file::Call;
use lines::Line;
use puzzle::kind::Kind;
use puzzle::{Check, Fault, Puzzle};

// A file's puzzle, and the calls that remain to be run on it: the first one's byte, and how many they are.
#[derive(Clone, Copy)]
pub struct Remaining {
    pub puzzle: Puzzle,
    pub at: usize,
    pub count: usize,
}

// How far calls came: the byte behind the last one that was done, how many were done, and how many bytes their lines have.
#[derive(Clone, Copy)]
pub struct Progress {
    pub at: usize,
    pub done: usize,
    pub len: usize,
}

// A `Remaining` as C gets it: code 0; or zeros, and the number that refuses the file (11) or its puzzle.
#[repr(C)]
#[derive(Clone, Copy)]
pub struct Opened {
    pub code: u8,
    pub puzzle: Puzzle,
    pub at: usize,
    pub count: usize,
}

// A `Progress` as C gets it, with the puzzle; code 6 where the buffer is too short for the lines.
#[repr(C)]
#[derive(Clone, Copy)]
pub struct Ran {
    pub code: u8,
    pub puzzle: Puzzle,
    pub at: usize,
    pub done: usize,
    pub len: usize,
}

impl From<Result<Remaining, Refusal>> for Opened {
    ghost from_gives = { λ answer opened. opened ≡ opened_in answer };

    fn from(answer: Result<Remaining, Refusal>) -> Opened {
        match answer {
            Ok(Remaining { puzzle, at, count }) => Opened {
                code: 0,
                puzzle,
                at,
                count,
            },
            Err(refusal) => Opened {
                code: u8::from(refusal),
                puzzle: Puzzle::default(),
                at: 0,
                count: 0,
            },
        }
    }
}

impl Ran {
    // What a run answered that began at a byte, and the puzzle that it left.
    pub fn new(answer: Result<Progress, Refusal>, at: usize, puzzle: Puzzle) -> Ran
        ensures { result ≡ ran_in answer at puzzle }
    {
        match answer {
            Ok(Progress { at, done, len }) => Ran {
                code: 0,
                puzzle,
                at,
                done,
                len,
            },
            Err(refusal) => Ran {
                code: u8::from(refusal),
                puzzle,
                at,
                done: 0,
                len: 0,
            },
        }
    }
}

// The puzzle of translates that a file's size, given walls and clues make. An unsound file is refused (11), and so is what makes no puzzle.
pub fn open(file: &[u8]) -> Result<Remaining, Refusal>
    ensures { opened_in result ≡ opened_of (decode_of file.now) }
{
    let layout = case_file::decode(file)?;
    // A list of a sound file has at most 30,000 numbers.
    let mut walls = [0u16; 30000];
    let wall_count = case_file::numbers(file, layout.walls, &mut walls)?;
    let mut clues = [0u16; 30000];
    let clue_count = case_file::numbers(file, layout.clues, &mut clues)?;
    let puzzle = Puzzle::new(
        Kind::Translates,
        layout.height,
        layout.width,
        &walls[..wall_count],
        &clues[..clue_count],
    )?;
    Ok(Remaining {
        puzzle,
        at: layout.calls.at,
        count: layout.calls.count,
    })
}

// The line of a decide or an undo, or of why it is refused: it has no entries.
fn done_line(well: Line, done: Result<(), Refusal>) -> Line
    ensures { line_of result [] ≡ code_line well (code_of done) }
{
    match done {
        Ok(()) => well,
        Err(refusal) => Line::from(refusal),
    }
}

// The kind of line that tells which check found a fault.
fn check_line(check: Check) -> Line
    ensures { result ≡ check_line check }
{
    match check {
        Check::Shape => Line::Shape,
        Check::Room(room) => Line::Room(room),
    }
}

// The line of an ask, and how many entries it has: the ask lists in `found`, and its list is handed over to the front of `list`.
fn ask_line(puzzle: &Puzzle, found: &mut [u16], list: &mut [u16]) -> (Line, usize)
    requires enough { Enough puzzle.now (length found.old) }
    requires room { length found.old ≤ length list.old }
    ensures { Tells result.0 result.1 list.new (line_by puzzle.now Ask) }
{
    match puzzle.ask(found) {
        Ok(Some(Fault { check, len })) => {
            let n = hand_over::hand_over(&found[..len], list).unwrap_or(0);
            (check_line(check), n)
        }
        Ok(None) => (Line::Clear, 0),
        Err(refusal) => (Line::from(refusal), 0),
    }
}

// An ask, by arrays of N places for its list, and its line: it answers how many bytes this has. Never inlined, so that no frame has the arrays of
// both kinds.
#[inline(never)]
fn do_ask_in<const N: usize>(puzzle: &Puzzle, out: &mut [u8]) -> usize
    requires enough { Enough puzzle.now N × (N ≤ most_image_entries) }
    requires room { longest_line ≤ length out.old }
    ensures told { (result ≡ length (line_by puzzle.now Ask)) × (result ≤ longest_line) }
    ensures out_after { out.new ≡ sets out.old 0 (line_by puzzle.now Ask) }
{
    let mut found = [0; N];
    let mut list = [0; N];
    let (line, n) = ask_line(puzzle, &mut found, &mut list);
    lines::put_line(line, &list[..n], out)
}

// The same by arrays that are no longer than the kind asks, since all of an array is zeroed.
fn do_ask(puzzle: &Puzzle, out: &mut [u8]) -> usize
    requires { longest_line ≤ length out.old }
    ensures told { (result ≡ length (line_by puzzle.now Ask)) × (result ≤ longest_line) }
    ensures out_after { out.new ≡ sets out.old 0 (line_by puzzle.now Ask) }
{
    if puzzle.kind == 0 {
        do_ask_in::<{ limits::ENTRIES }>(puzzle, out)
    } else {
        do_ask_in::<{ limits::IMAGE_ENTRIES }>(puzzle, out)
    }
}

// One call on a puzzle, and its line: it answers how many bytes this has.
fn do_call(puzzle: &mut Puzzle, call: Call, out: &mut [u8]) -> usize
    requires { longest_line ≤ length out.old }
    ensures turned { Turned result puzzle.new puzzle.old call }
    ensures out_after { out.new ≡ sets out.old 0 (line_by puzzle.old call) }
{
    let line = match call {
        Call::Undo => done_line(Line::Undone, puzzle.undo()),
        Call::Decide(border, wall) => done_line(Line::Decided, puzzle.decide(border, wall)),
        Call::Ask => return do_ask(puzzle, out),
    };
    lines::put_line(line, &[], out)
}

// Runs so many calls of the file, from a byte on, and writes their lines to the buffer's front. It ends early at a call that is
// unsound, and is refused where the buffer has fewer than `limits::LINE` places for each call.
pub fn run_calls(
    file: &[u8],
    at: usize,
    count: usize,
    puzzle: &mut Puzzle,
    out: &mut [u8],
) -> Result<Progress, Refusal>
    ensures value { ran_in result at puzzle.new ≡ ran_of (code_in count (length out.old)) puzzle.old at (done_in count (drop at file.now) (length out.old)) }
    ensures out_after { out.new ≡ sets out.old 0 (printed_by puzzle.old (done_in count (drop at file.now) (length out.old))) }
    ensures len_in_bounds { length_in result ≤ length out.old }
{
    if out.len() / limits::LINE < count {
        return Err(Refusal::ShortBuffer);
    }
    let mut next = at;
    let mut len = 0;
    for done in 0..count {
        let Some((call, behind)) = case_file::call_at(file, next) else {
            return Ok(Progress {
                at: next,
                done,
                len,
            });
        };
        len += do_call(puzzle, call, &mut out[len..]);
        next = behind;
    }
    Ok(Progress {
        at: next,
        done: count,
        len,
    })
}
