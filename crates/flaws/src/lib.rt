// What is wrong with a case file: the first part, from the front, that is not as SPEC 5.1 to 5.3 have it, and at which byte.
#![tactic(auto)]

ghost use Rattle.std.specs.Prelude.{◌≡◌};
ghost use Rattle.case_file.specs.Sound.{decode_of};
ghost use Rattle.flaws.specs.Flaws.{flaw_of, part_of, lists_of, calls_of, call_of, behind_of, is_sound, sound_of};

// A number is the byte at which the part stands; the count of given walls stands at byte 5 of every file.
#[derive(Clone, Copy, Debug, PartialEq, Eq)]
pub enum Flaw {
    // It has more bytes than a file may have.
    Long,
    // It ends before its version, length, height and width.
    Short,
    // Its version is not 1.
    Version,
    // Its length is not that of the bytes behind it.
    Length,
    // The count of given walls, of clues or of calls is cut, or is more than there are bytes for.
    Walls,
    Clues(usize),
    Calls(usize),
    // The file ends before this call, or in it.
    Cut(usize),
    // This call is of another kind.
    Kind(usize),
    // The calls end here, and the file does not.
    Behind(usize),
}

// The byte behind the list of numbers whose count stands at a byte, if the file has room for it.
fn behind(file: &[u8], at: usize) -> Option<usize>
    ensures { result ≡ behind_of file.now at }
{
    let count = usize::from(case_file::word(file, at)?);
    let end = at + 2 + 2 * count;
    if file.len() < end {
        return None;
    }
    Some(end)
}

// What is wrong with the call at a byte, which is none that is sound.
fn call(file: &[u8], at: usize) -> Flaw
    ensures { result ≡ call_of file.now at }
{
    match file.get(at) {
        Some(&kind) if 3 < kind => Flaw::Kind(at),
        _ => Flaw::Cut(at),
    }
}

// The calls from a byte on, so many of them.
fn calls(file: &[u8], at: usize, count: usize) -> Flaw
    ensures { result ≡ calls_of count file.now at }
{
    let mut next = at;
    for _ in 0..count {
        let Some((_, behind)) = case_file::call_at(file, next) else {
            return call(file, next);
        };
        next = behind;
    }
    Flaw::Behind(next)
}

// Given walls, clues and calls.
fn lists(file: &[u8]) -> Flaw
    ensures { result ≡ lists_of file.now }
{
    let Some(clues_at) = behind(file, 5) else {
        return Flaw::Walls;
    };
    let Some(calls_at) = behind(file, clues_at) else {
        return Flaw::Clues(clues_at);
    };
    let Some(count) = case_file::word(file, calls_at) else {
        return Flaw::Calls(calls_at);
    };
    calls(file, calls_at + 2, usize::from(count))
}

// The part of an unsound file that is wrong.
fn part(file: &[u8]) -> Flaw
    ensures { result ≡ part_of file.now }
{
    if 60003 < file.len() {
        return Flaw::Long;
    }
    if file.len() < 5 {
        return Flaw::Short;
    }
    if file[0] != 1 {
        return Flaw::Version;
    }
    if case_file::word(file, 1).map(usize::from) != Some(file.len() - 3) {
        return Flaw::Length;
    }
    lists(file)
}

// What is wrong with a file: nothing exactly where `case_file::decode` says that it is sound.
pub fn find(file: &[u8]) -> Option<Flaw>
    ensures value { result ≡ flaw_of file.now }
    ensures result_value { is_sound result ≡ sound_of (decode_of file.now) }
{
    match case_file::decode(file) {
        Ok(_) => None,
        Err(_) => Some(part(file)),
    }
}
