// Arrays without operands.
ghost use Rattle.std.specs.Prelude.{◌≡◌, ◌^◌, ◌≤◌, [], ◌∷◌, length, IfOk, slice_index};
ghost use Rattle.semantics.specs.Arrays.{Alike, constant_array, count_array};
ghost use Rattle.numbers.specs.Operations.{binary64};
ghost use Rattle.reference.specs.ArrayOf.{array_of};
ghost use Rattle.reference.specs.IndicesOf.{indices_of};

use crate::array::Array;
use crate::place::Place;
use crate::tabulate::{Source, tabulate};
use encoding::shape::Shape;
use numbers::of_whole;
use std::alloc::{AllocError, Global};

// The same number at each place.
#[derive(Drop)]
struct Filled {
    value: u64,
}

impl Source for Filled {
    ghost ready = { λ _ _. Unit {0} };

    ghost at = { λ s _. s.value };

    fn number(&self, _place: &Place) -> u64 {
        self.value
    }
}

// One number, without axes.
pub fn constant(heap: Global, value: u64) -> Result<Array, AllocError>
    ensures { IfOk result (λ a. Alike (array_of a) (constant_array value)) }
{
    let shape = Shape {
        rank: 0,
        lens: [0; 8],
    };
    tabulate(heap, shape, &Filled { value })
}

// The first index at each place.
#[derive(Drop)]
struct Counted;

impl Source for Counted {
    ghost ready = { λ _ is. length is ≡ 1 };

    ghost at = { λ _ is. binary64.of (slice_index is 0) };

    fn number(&self, place: &Place) -> u64 {
        of_whole(u64::from(place.indices[0]))
    }
}

// 0, 1, .., `len` of them.
pub fn count(heap: Global, len: u32) -> Result<Array, AllocError>
    requires small { len ≤ 2 ^ 26 }
    ensures { IfOk result (λ a. Alike (array_of a) (count_array binary64 len)) }
{
    let mut lens = [0; 8];
    lens[0] = len;
    tabulate(heap, Shape { rank: 1, lens }, &Counted)
}
