// Case files drawn from a seed, so that a run can be made again: calls that a generator of 32 bits picks, on a puzzle without given walls
// and with one room without a clue.
#![tactic(auto)]

ghost use Rattle.std.specs.Prelude.{◌≡◌, ◌+◌, ◌≤◌, length};
ghost use Rattle.std.proofs.lemmas.List.Edits.{sets};
ghost use Rattle.lists.specs.Lists.{gather};
ghost use Rattle.answers.specs.Answers.{written};
ghost use Rattle.answers.specs.Refusals.{Lists};
ghost use Rattle.case_file.specs.Encode.{call as bytes_of};
ghost use Rattle.generator.specs.Generator.{next_state, drawn, draw_from, calls_from, BorderBelow, generated};
ghost use Rattle.generator.specs.Writing.{calls_length, head, Heading};

use answers::Refusal;
use case_file::Call;
use grid::Grid;

// The bytes in front of the calls, and the longest file's bytes behind them: 60,000 behind the length, of which 10 are no calls'.
const HEAD: usize = 13;

const CALLS: usize = 59990;

// What replaces a state: Marsaglia's xorshift with 13, 17 and 5. A shift to the left drops the bits beyond 32.
fn next_state(s: u32) -> u32
    ensures { result ≡ next_state s }
{
    let a = s ^ (s << 13);
    let b = a ^ (a >> 17);
    b ^ (b << 5)
}

// How many bytes a call has in a file.
fn call_length(call: Call) -> usize
    ensures { result ≡ length (bytes_of call) }
{
    match call {
        Call::Undo => 1,
        Call::Decide(_, _) => 3,
        Call::Ask => 1,
    }
}

// Writes a call from a byte on, and answers the byte behind it.
fn write_call(call: Call, file: &mut [u8], at: usize) -> usize
    requires { BorderBelow 65536 call × (at + length (bytes_of call) ≤ length file.old) }
    ensures value { result ≡ at + length (bytes_of call) }
    ensures file_after { file.new ≡ sets file.old at (bytes_of call) }
{
    match call {
        Call::Undo => lists::put(&[0], file, at),
        Call::Decide(border, wall) => {
            let kind = 1 + u8::from(wall);
            let [high, low] = (border as u16).to_be_bytes();
            lists::put(&[kind, high, low], file, at)
        }
        Call::Ask => lists::put(&[3], file, at),
    }
}

// What draws the calls: its state, and how many borders the board has.
#[derive(Clone, Copy)]
struct Draws {
    state: u32,
    borders: usize,
}

impl Draws {
    // The next call.
    fn next(&mut self) -> Call
        ensures drawn { drawn result self.new.state ≡ draw_from self.old.borders self.old.state }
        ensures borders { self.new.borders ≡ self.old.borders }
    {
        let s = next_state(self.state);
        let kind = s % 4;
        self.state = s;
        match kind {
            0 => Call::Undo,
            3 => Call::Ask,
            _ if self.borders == 0 => Call::Ask,
            _ => {
                self.state = next_state(s);
                Call::Decide(self.state as usize % self.borders, kind == 2)
            }
        }
    }

    // How many bytes the next calls have. They are drawn twice: no byte may be written before it is known that all fit.
    fn calls_length(mut self, count: usize) -> usize
        requires { count ≤ 59990 }
        ensures { result ≡ calls_length self.borders count self.state }
    {
        let mut length = 0;
        for _ in 0..count {
            length += call_length(self.next());
        }
        length
    }

    // Writes the next calls behind the head.
    fn write_calls(mut self, count: usize, file: &mut [u8])
        requires { (self.borders ≤ 65536) × (13 + calls_length self.borders count self.state ≤ length file.old) }
        ensures { file.new ≡ sets file.old 13 (gather bytes_of (calls_from self.borders count self.state)) }
    {
        let mut at = HEAD;
        for _ in 0..count {
            at = write_call(self.next(), file, at);
        }
    }
}

// Writes the parts in front of the calls, of which there are `count` with `length` bytes.
fn write_head(g: Grid, count: usize, length: usize, file: &mut [u8])
    requires { Heading g count length file.old }
    ensures { file.new ≡ sets file.old 0 (head g count length) }
{
    let height = g.height as u8;
    let width = g.width as u8;
    let [rest_high, rest_low] = ((10 + length) as u16).to_be_bytes();
    let [count_high, count_low] = (count as u16).to_be_bytes();
    let head = [
        1, rest_high, rest_low, height, width, 0, 0, 0, 1, 255, 255, count_high, count_low,
    ];
    lists::put(&head, file, 0);
}

// Writes the case file of a seed, a size and a count of calls to the buffer's first bytes, and answers how many.
pub fn generate(
    seed: u32,
    height: usize,
    width: usize,
    count: usize,
    buffer: &mut [u8],
) -> Result<usize, Refusal>
    ensures value { Lists (generated seed height width count (length buffer.old)) result }
    ensures buffer_after { buffer.new ≡ written (generated seed height width count (length buffer.old)) buffer.old }
{
    let g = Grid { height, width };
    if !g.is_within_limits() {
        return Err(Refusal::Size);
    }
    if seed == 0 {
        return Err(Refusal::ZeroSeed);
    }
    if CALLS < count {
        return Err(Refusal::ShortBuffer);
    }
    let draws = Draws {
        state: seed,
        borders: g.border_count(),
    };
    let length = draws.calls_length(count);
    if CALLS < length {
        return Err(Refusal::ShortBuffer);
    }
    if buffer.len() < HEAD + length {
        return Err(Refusal::ShortBuffer);
    }
    write_head(g, count, length, buffer);
    draws.write_calls(count, buffer);
    Ok(HEAD + length)
}
