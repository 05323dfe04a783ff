// An array that was made, and how many places there were on its way.
ghost use Rattle.std.specs.Prelude.{◌≡◌, ◌+◌, ◌^◌, ◌<◌, ◌≤◌, MatchOption};
ghost use Rattle.semantics.specs.Shapes.{size};
ghost use Rattle.encoding.specs.ShapeOf.{shape_of};

use crate::array::Array;
use encoding::shape::Shape;

#[derive(Drop)]
pub struct Made {
    pub array: Array,
    pub count: u64,
}

// The count with the places of one more array, or none where it passes what is left.
pub fn count_places(shape: &Shape, count: u64, left: u64) -> Option<u64>
    requires small { left ≤ 2 ^ 26 }
    ensures { MatchOption result (left < count + size (shape_of shape.now)) (λ n. (n ≡ count + size (shape_of shape.now)) × (n ≤ left)) }
{
    let all = count.saturating_add(shape.size());
    (all <= left).then_some(all)
}
