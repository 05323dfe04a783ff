// What is written for people: arrays as lines of text, programs as text, and what the programs print.
#![tactic(auto)]

pub mod console;
mod digits;
pub mod laws;
mod listing;
mod rewriting;
mod texts;

pub use digits::hex_digits;
pub use listing::list_array;
pub use rewriting::rewrite_text;
pub use texts::write_program;
