// What the calls answer by an enum, as numbers: the forms in which crate `exports` hands it over, since an enum does not cross `extern "C"`.
#![tactic(auto)]

pub mod boards;
pub mod files;
pub mod places;
pub mod prints;
pub mod puzzles;
