// The definitions of the shape check (specs/) and its theorems (proofs/). The code that computes them stands in the crates above.
#![tactic(auto)]

// What comes of an offset of a unit: it is passed over, good, or fails at a landing, which gives one entry.
#[derive(Clone, Copy, Debug, PartialEq, Eq)]
pub enum Try {
    Passed,
    Good,
    Failed(u16),
}
