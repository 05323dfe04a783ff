// A plain interpreter of the array language: every operation makes a new array with numbers of its own. There are
// no views, and nothing is shared, so that the code stays close to what the language says.
#![tactic(auto)]

pub mod apply;
pub mod array;
pub mod brackets;
pub mod broadcast;
pub mod concat;
pub mod create;
pub mod decode;
pub mod elementwise;
pub mod evaluate;
pub mod fault;
pub mod gather;
pub mod interpret;
pub mod leaf;
pub mod made;
pub mod names;
pub mod orders;
pub mod output;
pub mod place;
pub mod reduce;
pub mod refused;
pub mod replace;
pub mod restructure;
pub mod run;
pub mod serving;
pub mod shapes;
pub mod slices;
pub mod state;
pub mod statements;
pub mod tabulate;
pub mod task;
pub mod texts;
