// What becomes of the topmost symbol: where a word or number ends, and with a byte.
use crate::pushes::Pushes;
use program::step::Step;

// Where a byte stands in the marks of a text: in none's beginning; at the first byte of one, of an `again`, or of
// the end of an `again`.
#[derive(Clone, Copy)]
pub enum Mark {
    Inside,
    Begins,
    Opens,
    Closes,
}

// A word or number that has ended: its step, where it says one, whether it is a new name, and what follows.
#[derive(Clone, Copy)]
pub struct Ending {
    pub step: Option<Step>,
    pub named: bool,
    pub pushes: Pushes,
}

// A byte that was read: where it stands, the step that it says, what follows, where the word so far began, and the
// number so far.
#[derive(Clone, Copy)]
pub struct Turn {
    pub mark: Mark,
    pub step: Option<Step>,
    pub pushes: Pushes,
    pub word: Option<usize>,
    pub value: u64,
}
