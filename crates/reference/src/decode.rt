// An input's array from its bytes.
ghost use Rattle.std.specs.Prelude.{◌≡◌, ℕ, ◌+◌, ◌*◌, ◌^◌, ◌≤◌, length, IfOk};
ghost use Rattle.semantics.specs.Shapes.{size, In, flat};
ghost use Rattle.semantics.specs.Arrays.{Alike};
ghost use Rattle.encoding.specs.Format.{number_at, array_at};
ghost use Rattle.encoding.specs.Headers.{Heads};
ghost use Rattle.encoding.specs.ShapeOf.{shape_of};
ghost use Rattle.reference.specs.ArrayOf.{array_of};
ghost use Rattle.reference.specs.IndicesOf.{indices_of};

use crate::array::Array;
use crate::place::Place;
use crate::place::numbering::flatten;
use crate::tabulate::{Source, tabulate};
use encoding::header::Header;
use encoding::shape::Shape;
use encoding::words::read_number;
use std::alloc::{AllocError, Global};

// `count` numbers in bytes, from `start` on.
#[derive(Drop)]
struct Encoded<'a> {
    bytes: &'a [u8],
    start: usize,
    shape: Shape,
    count: usize,
}

impl Source for Encoded<'_> {
    ghost ready = { λ s is. (s.start + 8 * s.count ≤ length s.bytes.now) × (s.count ≡ size (shape_of s.shape)) × In (shape_of s.shape) is };

    ghost at = { λ s is. number_at s.bytes.now (s.start + 8 * flat (shape_of s.shape) is) };

    fn number(&self, place: &Place) -> u64 {
        let number = flatten(&self.shape, place, self.count);
        let Some(found) = read_number(self.bytes, self.start + 8 * number) else {
            return unreachable();
        };
        found
    }
}

// The array under a head.
pub fn decode(heap: Global, bytes: &[u8], head: Header) -> Result<Array, AllocError>
    requires room { head.start + 8 * size (shape_of head.shape) ≤ length bytes.now }
    requires small { size (shape_of head.shape) ≤ 2 ^ 26 }
    ensures { (i : ℕ) → Heads bytes.now i head → IfOk result (λ a. Alike (array_of a) (array_at bytes.now i)) }
{
    let source = Encoded {
        bytes,
        start: head.start,
        shape: head.shape,
        count: head.shape.size() as usize,
    };
    tabulate(heap, head.shape, &source)
}
