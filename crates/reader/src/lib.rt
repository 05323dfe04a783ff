// Reads texts of programs: steps, or the refusal and its place.
#![tactic(auto)]

mod endings;
mod follows;
pub mod judging;
mod machine;
mod names;
pub mod programs;
mod pushes;
pub mod refusal;
mod stepping;
mod turn;
mod turns;
