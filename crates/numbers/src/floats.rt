// Reading patterns as numbers, and writing numbers as patterns.
ghost use Rattle.std.specs.Prelude.{◌≡◌, ℕ};
ghost use Rattle.numbers.specs.Operations.{binary64};
ghost use Rattle.numbers.specs.Patterns.{Pattern};
ghost use Rattle.numbers.specs.Standing.{StandsFor};

use std::num::{
    f64_from_bits_with_nan as read, f64_to_bits_with_nan as written, nearest_u64_to_f64,
};

pub fn float_of(a: u64) -> f64
    ensures { StandsFor result a }
{
    read(a)
}

// The number nearest to `n`.
pub fn whole_float(n: u64) -> f64
    ensures { StandsFor result (binary64.of n) }
{
    nearest_u64_to_f64(n)
}

// Every number that an operation gives has one pattern.
pub fn pattern_of(x: f64) -> u64
    ensures { (a : ℕ) → StandsFor x a → Pattern a → result ≡ a }
{
    written(x)
}

// Whether a number counts as true: 0, −0 and NaN do not.
pub fn truth_of(x: f64) -> bool
    ensures { (a : ℕ) → StandsFor x a → result ≡ binary64.truth a }
{
    !(x == 0.0 || x.is_nan())
}

pub fn truth(a: u64) -> bool
    ensures { result ≡ binary64.truth a }
{
    truth_of(float_of(a))
}
