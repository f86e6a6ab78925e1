// Demand 3, the claim about lists of calls on a puzzle: its definitions (specs/) and its theorem (proofs/). There is no code here.
#![tactic(auto)]
