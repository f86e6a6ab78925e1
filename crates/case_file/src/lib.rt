// Case files (SPEC 5.1): `sendai.bin`, read where it lies. `decode` finds where its parts stand or says that the file is unsound;
// `numbers` and `call_at` then read the given walls, the clues and the calls.
#![tactic(auto)]

ghost use Rattle.std.specs.Prelude.{◌≡◌, ◌+◌, ◌≤◌, ◌<◌, length, drop, get_or, MatchOption};
ghost use Rattle.answers.specs.Answers.{written};
ghost use Rattle.answers.specs.Refusals.{Lists, code_of};
ghost use Rattle.case_file.specs.Sound.{decode_of, numbers_of, call_list_of, call_of};
ghost use Rattle.case_file.specs.Layout.{word_at, numbers_at, counted_at, step_at, behind_at, parts_of, file_of, refusal_of, numbers_into};

use answers::Refusal;

// A call of the file: its border and whether it is a Wall, for a decide.
#[derive(Clone, Copy, Debug, PartialEq, Eq)]
pub enum Call {
    Undo,
    Decide(usize, bool),
    Ask,
}

// A list in the file: its first byte, behind the count, and how many items it has.
#[derive(Clone, Copy, Debug, PartialEq, Eq)]
pub struct Span {
    pub at: usize,
    pub count: usize,
}

// Where a sound file's parts stand.
#[derive(Clone, Copy, Debug, PartialEq, Eq)]
pub struct Layout {
    pub height: usize,
    pub width: usize,
    pub walls: Span,
    pub clues: Span,
    pub calls: Span,
}

// The 16-bit number at a byte, big-endian, where the file has both of its bytes.
fn word_there(file: &[u8], at: usize) -> u16
    requires { at + 1 < length file.now }
    ensures { result ≡ word_at file.now at }
{
    u16::from_be_bytes([file[at], file[at + 1]])
}

// The same, if the file does not end before it or in it.
pub fn word(file: &[u8], at: usize) -> Option<u16>
    ensures { MatchOption result (length file.now < at + 2) (λ word. (at + 2 ≤ length file.now) × (word ≡ word_at file.now at)) }
{
    if file.len() <= at || file.len() - at < 2 {
        return None;
    }
    Some(word_there(file, at))
}

// The call at a byte and the byte behind it, if there is one that is sound.
pub fn call_at(file: &[u8], at: usize) -> Option<(Call, usize)>
    ensures { result ≡ step_at at (call_of (drop at file.now)) }
{
    let &kind = file.get(at)?;
    match kind {
        0 => Some((Call::Undo, at + 1)),
        1 | 2 => {
            if file.len() - at < 3 {
                return None;
            }
            let border = usize::from(word_there(file, at + 1));
            Some((Call::Decide(border, kind == 2), at + 3))
        }
        3 => Some((Call::Ask, at + 1)),
        _ => None,
    }
}

// The byte behind the call at a byte, if there is one that is sound. 171 is the inverse of 3 modulo 256: times it, undo (0) and ask (3) alone are
// below 2, so that one test tells both, and a list of both goes one way throughout.
fn behind(file: &[u8], at: usize) -> Option<usize>
    ensures { result ≡ behind_at at (call_of (drop at file.now)) }
{
    let &kind = file.get(at)?;
    if kind.wrapping_mul(171) < 2 {
        return Some(at + 1);
    }
    if 3 < kind {
        return None;
    }
    if file.len() - at < 3 {
        return None;
    }
    Some(at + 3)
}

// The list of numbers whose count stands at a byte, and the byte behind it, if the file has room for it.
fn numbers_at(file: &[u8], at: usize) -> Option<(Span, usize)>
    ensures { result ≡ counted_at file.now at (numbers_of (drop at file.now)) }
{
    let count = usize::from(word(file, at)?);
    let end = at + 2 + 2 * count;
    if file.len() < end {
        return None;
    }
    Some((Span { at: at + 2, count }, end))
}

// The calls whose count stands at a byte, and the byte behind them, if each of them is sound. Inlined, so that its answer is not written to
// memory and read back.
#[inline(always)]
fn calls_at(file: &[u8], at: usize) -> Option<(Span, usize)>
    ensures { result ≡ counted_at file.now at (call_list_of (drop at file.now)) }
{
    let count = usize::from(word(file, at)?);
    let mut next = at + 2;
    for _ in 0..count {
        next = behind(file, next)?;
    }
    Some((Span { at: at + 2, count }, next))
}

// Where the parts of a sound file stand. A file that ends before its height and width has no walls behind them.
fn parts(file: &[u8]) -> Option<Layout>
    ensures { result ≡ parts_of (decode_of file.now) }
{
    let long = usize::from(word(file, 1)?);
    if file[0] != 1 {
        return None;
    }
    if long != file.len() - 3 || 60000 < long {
        return None;
    }
    let (walls, after_walls) = numbers_at(file, 5)?;
    let (clues, after_clues) = numbers_at(file, after_walls)?;
    let (calls, end) = calls_at(file, after_clues)?;
    if end < file.len() {
        return None;
    }
    Some(Layout {
        height: usize::from(file[3]),
        width: usize::from(file[4]),
        walls,
        clues,
        calls,
    })
}

// The parts of a sound file. Nothing is copied. Any other file is unsound (11).
pub fn decode(file: &[u8]) -> Result<Layout, Refusal>
    ensures value { result ≡ file_of (decode_of file.now) }
    ensures result_value { code_of result ≡ refusal_of (decode_of file.now) }
{
    parts(file).ok_or(Refusal::UnsoundFile)
}

// How many numbers of a list the file has.
fn reach(file: &[u8], list: Span) -> usize
    ensures { result ≡ length (numbers_at file.now list.at list.count) }
{
    list.count.min(file.len().saturating_sub(list.at) / 2)
}

// The k-th number of a list of the file, counted from 0; 0 where there is none.
pub fn number(file: &[u8], list: Span, k: usize) -> usize
    ensures { result ≡ get_or (numbers_at file.now list.at list.count) k 0 }
{
    if reach(file, list) <= k {
        return 0;
    }
    usize::from(word_there(file, list.at + 2 * k))
}

// Writes the numbers of a list of the file to the buffer's first places, and answers how many.
pub fn numbers(file: &[u8], list: Span, buffer: &mut [u16]) -> Result<usize, Refusal>
    ensures value { Lists (numbers_into file.now list (length buffer.old)) result }
    ensures buffer_after { buffer.new ≡ written (numbers_into file.now list (length buffer.old)) buffer.old }
{
    let n = reach(file, list);
    if buffer.len() < n {
        return Err(Refusal::ShortBuffer);
    }
    for (k, number) in buffer[..n].iter_mut().enumerate() {
        *number = word_there(file, list.at + 2 * k);
    }
    Ok(n)
}
