// What a program over arrays means, as definitions over any type of numbers (specs/), and its laws: each
// function of `laws` is small, and its contract is a theorem.
#![tactic(auto)]

pub mod laws;
pub mod operation;
pub mod slice;
