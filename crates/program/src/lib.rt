// A program as steps: one step a mark of its text, in prefix order, in a lent slice of words.
#![tactic(auto)]

pub mod laws;
pub mod lists;
pub mod step;
pub mod steps;
pub mod words;
