// The version of all that is here: the archive, the program and the bindings. It is written here; what else writes it is held to it (bindings/test).
#![tactic(auto)]

// Major times 10,000, and minor times 100, and patch: 2.1.0.
pub const VERSION: u32 = 20100;
