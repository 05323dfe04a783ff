// Whole numbers and indices.
ghost use Rattle.std.specs.Prelude.{◌≡◌};
ghost use Rattle.numbers.specs.Operations.{binary64};

use crate::floats::{pattern_of, whole_float};
use std::num::{f64_from_bits_with_nan as read, nearest_u64_to_f64, saturating_f64_to_u32};

// The number nearest to `n`: `n` itself up to 2^53.
pub fn of_whole(n: u64) -> u64
    ensures { result ≡ binary64.of n }
{
    pattern_of(whole_float(n))
}

// A whole number below 2^32 as an index, −0 as 0. Any other number gives 2^32, which is out of every range.
// Stays: the meaning's own answer is 2^32 too, and a caller's one test against a length covers both cases.
pub fn index(a: u64) -> u64
    ensures { result ≡ binary64.index a }
{
    let x = read(a);
    let n = u64::from(saturating_f64_to_u32(x));
    if x == nearest_u64_to_f64(n) {
        n
    } else {
        1 << 32
    }
}
