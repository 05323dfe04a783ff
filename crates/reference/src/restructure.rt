// The numbers of an array in another shape.
ghost use Rattle.std.specs.Prelude.{◌≡◌, ◌-◌, ◌^◌, ◌≤◌, min, true, ◌&&◌, length, IfOk, ◌==◌, nat_le};
ghost use Rattle.semantics.specs.Shapes.{size, In};
ghost use Rattle.semantics.specs.Parts.{parts_fit, part_shape, places_of};
ghost use Rattle.semantics.specs.Orders.{is_order, turned, turned_back};
ghost use Rattle.semantics.specs.Arrays.{Alike, shape_array, part_array, turn_array};
ghost use Rattle.encoding.specs.ShapeOf.{shape_of};
ghost use Rattle.reference.specs.ArrayOf.{array_of};
ghost use Rattle.reference.specs.IndicesOf.{indices_of};
ghost use Rattle.semantics.specs.Slices.{parts_of};

use crate::array::Array;
use crate::orders::untransposed_place;
use crate::place::Place;
use crate::slices::sliced_place;
use crate::tabulate::{Source, tabulate};
use encoding::orders::transposed;
use encoding::shape::Shape;
use encoding::slices::slice_shape;
use semantics::slice::Slice;
use std::alloc::{AllocError, Global};

// How many places lengths have, however many they are; where they are 2^64 or more, 2^64 - 1.
fn count_places(lens: &[u32]) -> u64
    ensures { result ≡ min (size lens.now) (2 ^ 64 - 1) }
{
    let mut places: u64 = 1;
    for len in lens {
        places = places.saturating_mul(u64::from(*len));
    }
    places
}

// Whether lengths have as many places as a shape, and at most 2^53.
pub fn sizes_match(lens: &[u32], shape: &Shape) -> bool
    ensures { result ≡ (size lens.now == size (shape_of shape.now) && nat_le (size lens.now) 9007199254740992) }
{
    let places = count_places(lens);
    places == shape.size() && places <= 1 << 53
}

// The same numbers, rows first, in another shape.
pub fn reshape(heap: Global, shape: Shape, array: &Array) -> Result<Array, AllocError>
    requires full { size (shape_of shape) ≡ size (shape_of array.now.shape) }
    ensures { IfOk result (λ a. Alike (array_of a) (shape_array (shape_of shape) (array_of array.now))) }
{
    let numbers = Vec::from_slice(heap, array.numbers.as_slice())?;
    Ok(Array { shape, numbers })
}

#[derive(Drop)]
struct Sliced<'a> {
    slices: &'a [Slice],
    array: &'a Array,
}

impl Source for Sliced<'_> {
    ghost ready = { λ s is. (parts_fit (parts_of s.slices.now) (shape_of s.array.now.shape) ≡ true) × In (part_shape (parts_of s.slices.now)) is };

    ghost at = { λ s is. (array_of s.array.now).at (places_of (parts_of s.slices.now) is) };

    fn number(&self, place: &Place) -> u64 {
        self.array
            .get(&sliced_place(self.slices, &self.array.shape, place))
    }
}

// The numbers that slices show.
pub fn part<'a>(heap: Global, slices: &'a [Slice], array: &'a Array) -> Result<Array, AllocError>
    requires fits { parts_fit (parts_of slices.now) (shape_of array.now.shape) ≡ true }
    requires small { size (part_shape (parts_of slices.now)) ≤ 2 ^ 26 }
    ensures { IfOk result (λ a. Alike (array_of a) (part_array (parts_of slices.now) (array_of array.now))) }
{
    tabulate(heap, slice_shape(slices), &Sliced { slices, array })
}

#[derive(Drop)]
struct Transposed<'a> {
    order: &'a [u32],
    array: &'a Array,
}

impl Source for Transposed<'_> {
    ghost ready = { λ s is. (is_order s.order.now (length (shape_of s.array.now.shape)) ≡ true) × In (turned s.order.now (shape_of s.array.now.shape)) is };

    ghost at = { λ s is. (array_of s.array.now).at (turned_back s.order.now is) };

    fn number(&self, place: &Place) -> u64 {
        self.array.get(&untransposed_place(self.order, place))
    }
}

// The array with its axes in another order.
pub fn turn<'a>(heap: Global, order: &'a [u32], array: &'a Array) -> Result<Array, AllocError>
    requires order { is_order order.now (length (shape_of array.now.shape)) ≡ true }
    requires small { size (turned order.now (shape_of array.now.shape)) ≤ 2 ^ 26 }
    ensures { IfOk result (λ a. Alike (array_of a) (turn_array order.now (array_of array.now))) }
{
    let shape = transposed(order, &array.shape);
    tabulate(heap, shape, &Transposed { order, array })
}
