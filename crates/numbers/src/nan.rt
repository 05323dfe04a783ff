// The one pattern for a NaN.
ghost use Rattle.std.specs.Prelude.{◌≡◌};
ghost use Rattle.numbers.specs.Binary64.{canonical_bits};

use crate::named::{INFINITY, NAN, SIGN};

// A NaN of any bits becomes the one; any other number stays.
pub fn canonical(a: u64) -> u64
    ensures { result ≡ canonical_bits a }
{
    // Without its sign, a pattern above infinity's is a NaN's.
    if a % SIGN > INFINITY { NAN } else { a }
}
