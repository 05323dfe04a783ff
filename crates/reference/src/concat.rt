// Two arrays joined along an axis.
ghost use Rattle.std.specs.Prelude.{◌≡◌, ◌-◌, ◌^◌, ◌<◌, ◌≤◌, true, length, IfOk, nat_lt, slice_index, slice_set};
ghost use Rattle.semantics.specs.Shapes.{pick, size, In};
ghost use Rattle.semantics.specs.Arrays.{Alike, can_join, join_length, join_array};
ghost use Rattle.encoding.specs.ShapeOf.{shape_of};
ghost use Rattle.reference.specs.ArrayOf.{array_of};
ghost use Rattle.reference.specs.IndicesOf.{indices_of};

use crate::array::Array;
use crate::place::Place;
use crate::place::axes::{index_along, with_index};
use crate::shapes::{axis_length, rank, remove_axis, with_length};
use crate::tabulate::{Source, tabulate};
use encoding::shape::Shape;
use std::alloc::{AllocError, Global};

// Whether two arrays are alike but for the lengths of an axis of the first, whose sum is a length.
pub fn joinable(axis: usize, left: &Array, right: &Array) -> bool
    requires there { axis < length (shape_of left.now.shape) }
    ensures { result ≡ can_join axis (array_of left.now) (array_of right.now) }
{
    if rank(&left.shape) != rank(&right.shape) {
        return false;
    }
    let total = u64::from(axis_length(&left.shape, axis))
        + u64::from(axis_length(&right.shape, axis));
    let others = remove_axis(&left.shape, axis) == remove_axis(&right.shape, axis);
    others && total < 1 << 32
}

// The shape of two arrays that can be joined.
pub fn joined_shape(axis: usize, left: &Array, right: &Array) -> Shape
    requires there { axis < length (shape_of left.now.shape) }
    requires fits { can_join axis (array_of left.now) (array_of right.now) ≡ true }
    ensures { shape_of result ≡ slice_set (shape_of left.now.shape) axis (join_length axis (array_of left.now) (array_of right.now)) }
{
    let len = axis_length(&left.shape, axis) + axis_length(&right.shape, axis);
    with_length(&left.shape, axis, len)
}

#[derive(Drop)]
struct Joined<'a> {
    axis: usize,
    left: &'a Array,
    right: &'a Array,
}

impl Source for Joined<'_> {
    ghost ready = { λ s is. (s.axis < length (shape_of s.left.now.shape)) × (can_join s.axis (array_of s.left.now) (array_of s.right.now) ≡ true) × In (slice_set (shape_of s.left.now.shape) s.axis (join_length s.axis (array_of s.left.now) (array_of s.right.now))) is };

    ghost at = { λ s is. pick (nat_lt (slice_index is s.axis) (slice_index (shape_of s.left.now.shape) s.axis)) ((array_of s.left.now).at is) ((array_of s.right.now).at (slice_set is s.axis (slice_index is s.axis - slice_index (shape_of s.left.now.shape) s.axis))) };

    fn number(&self, place: &Place) -> u64 {
        let index = index_along(place, self.axis);
        let len = axis_length(&self.left.shape, self.axis);
        if index < len {
            self.left.get(place)
        } else {
            self.right.get(&with_index(place, self.axis, index - len))
        }
    }
}

// The second array behind the first along an axis.
pub fn join<'a>(
    heap: Global,
    axis: usize,
    left: &'a Array,
    right: &'a Array,
) -> Result<Array, AllocError>
    requires there { axis < length (shape_of left.now.shape) }
    requires fits { can_join axis (array_of left.now) (array_of right.now) ≡ true }
    requires small { size (slice_set (shape_of left.now.shape) axis (join_length axis (array_of left.now) (array_of right.now))) ≤ 2 ^ 26 }
    ensures { IfOk result (λ a. Alike (array_of a) (join_array axis (array_of left.now) (array_of right.now))) }
{
    let shape = joined_shape(axis, left, right);
    tabulate(heap, shape, &Joined { axis, left, right })
}
