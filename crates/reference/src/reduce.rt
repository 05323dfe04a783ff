// Folds and scans along one axis, first to last.
ghost use Rattle.std.specs.Prelude.{◌≡◌, ℕ, suc, ◌^◌, ◌<◌, ◌≤◌, length, IfOk, slice_index, slice_set};
ghost use Rattle.semantics.specs.Shapes.{size, In, without, put_in};
ghost use Rattle.semantics.specs.Arrays.{Alike, folded, fold_array, scan_array};
ghost use Rattle.numbers.specs.Operations.{binary64};
ghost use Rattle.encoding.specs.ShapeOf.{shape_of};
ghost use Rattle.reference.specs.ArrayOf.{array_of};
ghost use Rattle.reference.specs.IndicesOf.{indices_of};

use crate::array::Array;
use crate::place::Place;
use crate::place::axes::{index_along, insert_index, with_index};
use crate::shapes::{axis_length, remove_axis};
use crate::tabulate::{Source, tabulate};
use numbers::{binary, empty_fold};
use semantics::operation::Binary;
use std::alloc::{AllocError, Global};

// The first `count` numbers along an axis through a place, combined first to last.
fn accumulate(array: &Array, op: Binary, axis: usize, place: &Place, count: u64) -> u64
    requires few { count ≤ 2 ^ 32 }
    requires there { axis < length (indices_of place.now) }
    requires inside { (j : ℕ) → j < count → In (shape_of array.now.shape) (slice_set (indices_of place.now) axis j) }
    ensures { result ≡ folded (binary64.two op) (binary64.empty op) (λ j. (array_of array.now).at (slice_set (indices_of place.now) axis j)) count }
{
    if count == 0 {
        return empty_fold(op);
    }
    let first = array.get(&with_index(place, axis, 0));
    let mut total = first;
    for j in 1..count {
        let number = array.get(&with_index(place, axis, j as u32));
        let next = binary(op, total, number);
        total = next;
    }
    total
}

#[derive(Drop)]
struct Reduced<'a> {
    op: Binary,
    axis: usize,
    array: &'a Array,
}

impl Source for Reduced<'_> {
    ghost ready = { λ s is. (s.axis < length (shape_of s.array.now.shape)) × In (without s.axis (shape_of s.array.now.shape)) is };

    ghost at = { λ s is. folded (binary64.two s.op) (binary64.empty s.op) (λ j. (array_of s.array.now).at (put_in s.axis j is)) (slice_index (shape_of s.array.now.shape) s.axis) };

    fn number(&self, place: &Place) -> u64 {
        let first = insert_index(place, self.axis, 0);
        let len = axis_length(&self.array.shape, self.axis);
        accumulate(self.array, self.op, self.axis, &first, u64::from(len))
    }
}

// The numbers along one axis combined into one.
pub fn fold(heap: Global, op: Binary, axis: usize, array: &Array) -> Result<Array, AllocError>
    requires there { axis < length (shape_of array.now.shape) }
    requires small { size (without axis (shape_of array.now.shape)) ≤ 2 ^ 26 }
    ensures { IfOk result (λ a. Alike (array_of a) (fold_array binary64 op axis (array_of array.now))) }
{
    let shape = remove_axis(&array.shape, axis);
    tabulate(heap, shape, &Reduced { op, axis, array })
}

#[derive(Drop)]
struct Scanned<'a> {
    op: Binary,
    axis: usize,
    array: &'a Array,
}

impl Source for Scanned<'_> {
    ghost ready = { λ s is. (s.axis < length (shape_of s.array.now.shape)) × In (shape_of s.array.now.shape) is };

    ghost at = { λ s is. folded (binary64.two s.op) (binary64.empty s.op) (λ j. (array_of s.array.now).at (slice_set is s.axis j)) (suc (slice_index is s.axis)) };

    fn number(&self, place: &Place) -> u64 {
        let index = index_along(place, self.axis);
        accumulate(self.array, self.op, self.axis, place, u64::from(index) + 1)
    }
}

// The numbers along one axis up to each of them combined into one.
pub fn scan(heap: Global, op: Binary, axis: usize, array: &Array) -> Result<Array, AllocError>
    requires there { axis < length (shape_of array.now.shape) }
    requires small { size (shape_of array.now.shape) ≤ 2 ^ 26 }
    ensures { IfOk result (λ a. Alike (array_of a) (scan_array binary64 op axis (array_of array.now))) }
{
    tabulate(heap, array.shape, &Scanned { op, axis, array })
}
