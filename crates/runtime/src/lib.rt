// The run of a program on the number area.
#![tactic(auto)]

pub mod answer;
pub mod built;
pub mod fault;
pub mod output;
pub mod plan;
pub mod run;
pub mod statements;
pub mod texts;
