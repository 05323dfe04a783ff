// The numbers that slices show replaced by those of another array.
ghost use Rattle.std.specs.Prelude.{◌≡◌, ◌^◌, ◌≤◌, true, length, IfOk};
ghost use Rattle.semantics.specs.Shapes.{pick, size, In};
ghost use Rattle.semantics.specs.Parts.{parts_fit, in_parts, which_one};
ghost use Rattle.semantics.specs.Arrays.{Alike, can_put, put_array};
ghost use Rattle.encoding.specs.ShapeOf.{shape_of};
ghost use Rattle.reference.specs.ArrayOf.{array_of, narrow_at};
ghost use Rattle.reference.specs.IndicesOf.{indices_of};
ghost use Rattle.semantics.specs.Slices.{parts_of};

use crate::array::Array;
use crate::broadcast::get_narrow;
use crate::place::Place;
use crate::slices::{in_slices, unsliced_place};
use crate::tabulate::{Source, tabulate};
use encoding::broadcast::broadcast;
use encoding::slices::slice_shape;
use semantics::slice::Slice;
use std::alloc::{AllocError, Global};

// Whether an array is broadcast to the shape that slices show.
pub fn replaceable(slices: &[Slice], values: &Array) -> bool
    requires few { length slices.now ≤ 8 }
    ensures { result ≡ can_put (parts_of slices.now) (array_of values.now) }
{
    let shape = slice_shape(slices);
    broadcast(&shape, &values.shape) == Some(shape)
}

#[derive(Drop)]
struct Replaced<'a> {
    slices: &'a [Slice],
    array: &'a Array,
    values: &'a Array,
}

impl Source for Replaced<'_> {
    ghost ready = { λ s is. (parts_fit (parts_of s.slices.now) (shape_of s.array.now.shape) ≡ true) × (can_put (parts_of s.slices.now) (array_of s.values.now) ≡ true) × In (shape_of s.array.now.shape) is };

    ghost at = { λ s is. pick (in_parts (parts_of s.slices.now) is) (narrow_at s.values.now (which_one (parts_of s.slices.now) is)) ((array_of s.array.now).at is) };

    fn number(&self, place: &Place) -> u64 {
        if in_slices(self.slices, place) {
            get_narrow(self.values, &unsliced_place(self.slices, place))
        } else {
            self.array.get(place)
        }
    }
}

// The array with the numbers of `values`, broadcast, where slices show it.
pub fn put<'a>(
    heap: Global,
    slices: &'a [Slice],
    array: &'a Array,
    values: &'a Array,
) -> Result<Array, AllocError>
    requires fits { parts_fit (parts_of slices.now) (shape_of array.now.shape) ≡ true }
    requires can { can_put (parts_of slices.now) (array_of values.now) ≡ true }
    requires small { size (shape_of array.now.shape) ≤ 2 ^ 26 }
    ensures { IfOk result (λ a. Alike (array_of a) (put_array (parts_of slices.now) (array_of array.now) (array_of values.now))) }
{
    let source = Replaced {
        slices,
        array,
        values,
    };
    tabulate(heap, array.shape, &source)
}
