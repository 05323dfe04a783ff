// Arrays as bytes, low byte first: an input or a shown array is its number of axes (one byte), its lengths
// (four bytes each) and its numbers (eight bytes each, rows first). Inputs lie one after another.
#![tactic(auto)]

pub mod broadcast;
pub mod header;
pub mod inputs;
pub mod laws;
pub mod orders;
pub mod shape;
pub mod slices;
pub mod words;
pub mod writing;
