// Words of bits, a row of the board in each: bit 32 + x says something of column x, so that a word moved by any number of columns is
// one shift.
#![tactic(auto)]

ghost use Rattle.std.specs.Prelude.{◌≡◌, ℕ, Bool, ◌+◌, ◌%◌, ◌≤◌, ◌<◌, eqb};
ghost use Rattle.lists.specs.Choice.{both, either};
ghost use Rattle.lists.specs.Lists.{all, any};
ghost use Rattle.words.specs.Words.{bit, Full, Only, reads, Readable};

// A word with a bit more, if it is to be set.
pub fn with_bit(word: u64, set: bool, j: usize) -> u64
    requires { j < 64 }
    ensures { (i : ℕ) → bit result i ≡ either (bit word i) (both set (eqb i j)) }
{
    if set { word | (1 << j) } else { word }
}

// The word of a row, of whose columns these are set.
#[inline(always)]
pub fn row<F: Fn(usize) -> bool>(width: usize, is_set: F) -> u64
    requires narrow { width ≤ 32 }
    requires callable { (x : ℕ) → x < width → F.pre is_set x }
    ensures { (P : ℕ → Bool) → ((x : ℕ) (set : Bool) → x < width → F.post is_set x set → set ≡ P x) → Only width P result }
{
    let mut word = 0;
    for x in 0..width {
        word = with_bit(word, is_set(x), 32 + x);
    }
    word
}

// The word of a whole row.
pub fn full_word(width: usize) -> u64
    requires { width ≤ 32 }
    ensures { Full width result }
{
    row(width, |_| true)
}

// The bits that any of the codes reads.
pub fn gathered(table: &[u64], codes: &[u16], at: usize) -> u64
    requires { Readable table.now codes.now at }
    ensures { (x : ℕ) → bit result x ≡ any (reads table.now at x) codes.now }
{
    let mut word = 0;
    for &code in codes {
        let code = usize::from(code);
        word |= table[code / 64 + at] >> (code % 64);
    }
    word
}

// The bits of one word that all of the codes read, whatever their rows, and that it has unmoved.
pub fn common(full: u64, codes: &[u16]) -> u64
    ensures { (x : ℕ) → bit result x ≡ both (bit full (x + 32)) (all (λ e. bit full (x + e % 64)) codes.now) }
{
    let mut word = full >> 32;
    for &code in codes {
        word &= full >> (code % 64);
    }
    word
}
