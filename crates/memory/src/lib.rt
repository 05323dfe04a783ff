// The number area: which name holds which buffer, new buffers at the top, and moving buffers together.
#![tactic(auto)]

pub mod binding;
pub mod memory;
pub mod packing;
pub mod reserve;
mod spans;
