// The operations on numbers, by name. The meaning takes them from any record of operations; the crate
// `numbers` has those of binary64.

// On one number.
#[derive(Clone, Copy, PartialEq, Eq)]
pub enum Unary {
    Neg,
    Abs,
    Sqrt,
    Floor,
    Not,
}

// On two numbers: what `both`, `fold` and `scan` take.
#[derive(Clone, Copy, PartialEq, Eq)]
pub enum Binary {
    Add,
    Sub,
    Mul,
    Div,
    Less,
    Same,
    Least,
    Most,
}
