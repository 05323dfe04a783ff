// Operations by name.
ghost use Rattle.std.specs.Prelude.{◌≡◌};
ghost use Rattle.numbers.specs.Operations.{binary64};

use crate::named::{INFINITY, MINUS_INFINITY, ONE, ZERO};
use crate::operators::*;
use semantics::operation::{Binary, Unary};

pub fn unary(op: Unary, a: u64) -> u64
    ensures { result ≡ binary64.one op a }
{
    match op {
        Unary::Neg => on_pattern::<Negation>(a),
        Unary::Abs => on_pattern::<Absolute>(a),
        Unary::Sqrt => on_pattern::<Root>(a),
        Unary::Floor => on_pattern::<Floored>(a),
        Unary::Not => on_pattern::<Negated>(a),
    }
}

pub fn binary(op: Binary, a: u64, b: u64) -> u64
    ensures { result ≡ binary64.two op a b }
{
    match op {
        Binary::Add => on_patterns::<Sum>(a, b),
        Binary::Sub => on_patterns::<Difference>(a, b),
        Binary::Mul => on_patterns::<Product>(a, b),
        Binary::Div => on_patterns::<Quotient>(a, b),
        Binary::Less => on_patterns::<Lower>(a, b),
        Binary::Same => on_patterns::<Equal>(a, b),
        Binary::Least => on_patterns::<Lesser>(a, b),
        Binary::Most => on_patterns::<Greater>(a, b),
    }
}

// What a fold along a length of 0 gives.
pub fn empty_fold(op: Binary) -> u64
    ensures { result ≡ binary64.empty op }
{
    match op {
        Binary::Add | Binary::Sub | Binary::Less => ZERO,
        Binary::Mul | Binary::Div | Binary::Same => ONE,
        Binary::Least => INFINITY,
        Binary::Most => MINUS_INFINITY,
    }
}
