// An operation with its operands.
use semantics::operation::{Binary, Unary};

#[derive(Clone, Copy)]
pub enum Case {
    One(Unary, u64),
    Two(Binary, u64, u64),
    Truth(u64),
    Index(u64),
    Whole(u64),
    Canonical(u64),
    Empty(Binary),
}
