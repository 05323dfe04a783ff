// Loops over numbers.
#![tactic(auto)]

pub mod blocks;
pub mod combining;
pub mod cost;
pub mod env;
mod feeds;
pub mod laws;
pub mod leaves;
pub mod operand;
pub mod row;
pub mod rows;
pub mod runs;
pub mod showing;
pub mod storing;
pub mod trees;
