// A text judged: how many steps it has, or why and where it is refused.
pub mod reading;

// Why a text is refused, and at which byte.
#[derive(Clone, Copy)]
pub enum Flaw {
    // no program from this byte on
    NoProgram(usize),
    // too many bytes or marks, or too deep, at this byte
    TooMuch(usize),
}

// How many marks have begun, and how many agains are open.
#[derive(Clone, Copy)]
pub struct Count {
    pub marks: usize,
    pub level: usize,
}
