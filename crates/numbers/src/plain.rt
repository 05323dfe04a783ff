// Patterns that are no NaN's. Whole blocks are looked at in one pass without a branch, and then read bit for bit:
// a test for each number keeps the compiler from working on several at a time.
ghost use Rattle.std.specs.Prelude.{◌≡◌, ℕ, ◌<◌, true, length, slice_index};
ghost use Rattle.numbers.specs.Plain.{NoNan, Clear, Looked};
ghost use Rattle.numbers.specs.Standing.{StandsFor};

use crate::named::SIGN;

// What carries a pattern above infinity's, without its sign, into the top bit.
const CARRY: u64 = 0x000f_ffff_ffff_ffff;

// What was seen, with one more pattern: the top bit is set once a NaN's came.
pub fn look(seen: u64, a: u64) -> u64
    ensures { Looked seen a result }
{
    seen | (a % SIGN + CARRY)
}

pub fn is_clear(seen: u64) -> bool
    ensures { result ≡ true → Clear seen }
{
    seen < SIGN
}

// Whether no word is a NaN's pattern.
pub fn no_nans(words: &[u64]) -> bool
    ensures { result ≡ true → (k : ℕ) → k < length words.now → NoNan (slice_index words.now k) }
{
    let mut seen = 0;
    for a in words {
        seen = look(seen, *a);
    }
    is_clear(seen)
}

// The number of a pattern that is no NaN's.
pub fn plain_float(a: u64) -> f64
    requires { NoNan a }
    ensures { StandsFor result a }
{
    f64::from_bits(a)
}
