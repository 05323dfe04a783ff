// One byte after the other.
use crate::turn::Mark;
use program::step::Step;

pub mod figures;
pub mod known;
pub mod moving;
pub mod skimming;

// The step that is said, where one is.
// Stays: in an Option of an Option it would not be said which None means that no step is said.
#[derive(Clone, Copy)]
pub struct Said {
    pub step: Option<Step>,
}

// What one byte says: the step of a word or number that ended before it, its own step, and where it stands in the
// marks.
#[derive(Clone, Copy)]
pub struct Advance {
    pub before: Option<Step>,
    pub step: Option<Step>,
    pub mark: Mark,
}
