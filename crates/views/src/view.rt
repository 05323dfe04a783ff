// A view by value. Its place `is` shows the number at address start + the sum of stride times index; each
// address of a place lies in low..high.
use encoding::shape::Shape;

// Where the addresses count: words of the number area, or numbers of an input that begin at a byte.
#[derive(Clone, Copy, PartialEq, Eq)]
pub enum Source {
    Area,
    Input(usize),
}

// Stays: that its addresses lie so (`Good`) is asked where a view is read, and is no invariant of the type. The
// functions that only count what slots hold, and the one that binds a name, take views of which no one asks it.
#[derive(Clone, Copy)]
pub struct View {
    pub shape: Shape,
    pub strides: [i64; 8],
    pub start: usize,
    pub low: usize,
    pub high: usize,
    pub source: Source,
}
