// What a text of a program is, and the automaton that reads one byte after the other; its letters and words.
#![tactic(auto)]

pub mod laws;
pub mod letters;
pub mod symbol;
pub mod words;
