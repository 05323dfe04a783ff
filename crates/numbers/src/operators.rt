// The operations as types: each is written once, on numbers that were read already. So a loop over numbers is
// written and proved once for all of them, and a tree of operations reads its patterns first, works on `f64` alone,
// and writes one pattern at the end.
ghost use Rattle.std.specs.Prelude.{◌≡◌};
ghost use Rattle.semantics.specs.declared.operation.Unary.{Unary};
ghost use Rattle.semantics.specs.declared.operation.Unary.TheVariants.{Neg, Abs, Sqrt, Floor, Not};
ghost use Rattle.semantics.specs.declared.operation.Binary.{Binary};
ghost use Rattle.semantics.specs.declared.operation.Binary.TheVariants.{Add, Sub, Mul, Div, Less, Same, Least, Most};
ghost use Rattle.numbers.specs.Binary64.{flag};
ghost use Rattle.numbers.specs.Operations.{binary64};
ghost use Rattle.numbers.specs.Standing.{StandsFor, MadeOfOne, MadeOfTwo};

use crate::floats::{float_of, pattern_of, truth_of};

pub trait OnOne {
    ghost name: { Unary };

    fn apply(x: f64) -> f64
        ensures { MadeOfOne name x result };
}

pub trait OnTwo {
    ghost name: { Binary };

    fn apply(x: f64, y: f64) -> f64
        ensures { MadeOfTwo name x y result };
}

// An operation on a pattern. Every NaN that comes out has one pattern.
pub fn on_pattern<O: OnOne>(a: u64) -> u64
    ensures { result ≡ binary64.one O.name a }
{
    pattern_of(O::apply(float_of(a)))
}

pub fn on_patterns<O: OnTwo>(a: u64, b: u64) -> u64
    ensures { result ≡ binary64.two O.name a b }
{
    pattern_of(O::apply(float_of(a), float_of(b)))
}

// 1 for yes, 0 for no.
fn flag_float(yes: bool) -> f64
    ensures { StandsFor result (flag yes) }
{
    if yes { 1.0 } else { 0.0 }
}

pub struct Negation;

impl OnOne for Negation {
    ghost name = { Neg };

    fn apply(x: f64) -> f64 {
        -x
    }
}

pub struct Absolute;

impl OnOne for Absolute {
    ghost name = { Abs };

    fn apply(x: f64) -> f64 {
        x.abs()
    }
}

// A NaN below zero; −0 of −0.
pub struct Root;

impl OnOne for Root {
    ghost name = { Sqrt };

    fn apply(x: f64) -> f64 {
        x.sqrt()
    }
}

// Down to a whole number; −0 stays.
pub struct Floored;

impl OnOne for Floored {
    ghost name = { Floor };

    fn apply(x: f64) -> f64 {
        x.floor()
    }
}

pub struct Negated;

impl OnOne for Negated {
    ghost name = { Not };

    fn apply(x: f64) -> f64 {
        flag_float(!truth_of(x))
    }
}

// Sums, products, quotients and roots round to nearest, ties to even.
pub struct Sum;

impl OnTwo for Sum {
    ghost name = { Add };

    fn apply(x: f64, y: f64) -> f64 {
        x + y
    }
}

pub struct Difference;

impl OnTwo for Difference {
    ghost name = { Sub };

    fn apply(x: f64, y: f64) -> f64 {
        x - y
    }
}

pub struct Product;

impl OnTwo for Product {
    ghost name = { Mul };

    fn apply(x: f64, y: f64) -> f64 {
        x * y
    }
}

pub struct Quotient;

impl OnTwo for Quotient {
    ghost name = { Div };

    fn apply(x: f64, y: f64) -> f64 {
        x / y
    }
}

// No NaN is less than a number, greater, or the same; 0 and −0 are the same.
pub struct Lower;

impl OnTwo for Lower {
    ghost name = { Less };

    fn apply(x: f64, y: f64) -> f64 {
        flag_float(x < y)
    }
}

pub struct Equal;

impl OnTwo for Equal {
    ghost name = { Same };

    fn apply(x: f64, y: f64) -> f64 {
        flag_float(x == y)
    }
}

// Not `f64::min`: the second where they are the same or one is a NaN.
pub struct Lesser;

impl OnTwo for Lesser {
    ghost name = { Least };

    fn apply(x: f64, y: f64) -> f64 {
        if x < y { x } else { y }
    }
}

// Not `f64::max`: the second where they are the same or one is a NaN.
pub struct Greater;

impl OnTwo for Greater {
    ghost name = { Most };

    fn apply(x: f64, y: f64) -> f64 {
        if y < x { x } else { y }
    }
}
