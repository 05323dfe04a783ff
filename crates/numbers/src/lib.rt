// binary64 on patterns of 64 bits: each operation reads its patterns, works on `f64`, and writes a
// pattern. Every NaN that comes out has one pattern.
#![tactic(auto)]

mod dispatch;
mod floats;
mod laws;
mod named;
mod nan;
pub mod operators;
mod plain;
#[cfg(test)]
mod tests;
mod whole;

pub use dispatch::{binary, empty_fold, unary};
pub use floats::{float_of, pattern_of, truth, truth_of, whole_float};
pub use laws::{indices_stands, names_stands, patterns_stands};
pub use nan::canonical;
pub use plain::{is_clear, look, no_nans, plain_float};
pub use whole::{index, of_whole};
