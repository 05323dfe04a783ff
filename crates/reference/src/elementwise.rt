// Operations on each number by itself; arrays of several shapes are broadcast.
ghost use Rattle.std.specs.Prelude.{◌≡◌, ◌^◌, ◌≤◌, true, IfOk};
ghost use Rattle.semantics.specs.Shapes.{pick, size, In};
ghost use Rattle.semantics.specs.Broadcast.{fit, wide};
ghost use Rattle.semantics.specs.Arrays.{Alike, each_array, both_array, choose_array};
ghost use Rattle.numbers.specs.Operations.{binary64};
ghost use Rattle.encoding.specs.ShapeOf.{shape_of};
ghost use Rattle.reference.specs.ArrayOf.{array_of, narrow_at};
ghost use Rattle.reference.specs.IndicesOf.{indices_of};
ghost use Rattle.reference.specs.Broadcasts.{Reaches};

use crate::array::Array;
use crate::broadcast::get_narrow;
use crate::place::Place;
use crate::tabulate::{Source, tabulate};
use encoding::broadcast::broadcast;
use numbers::{binary, truth, unary};
use semantics::operation::{Binary, Unary};
use std::alloc::{AllocError, Global};

#[derive(Drop)]
struct Mapped<'a> {
    op: Unary,
    array: &'a Array,
}

impl Source for Mapped<'_> {
    ghost ready = { λ s is. In (shape_of s.array.now.shape) is };

    ghost at = { λ s is. binary64.one s.op ((array_of s.array.now).at is) };

    fn number(&self, place: &Place) -> u64 {
        unary(self.op, self.array.get(place))
    }
}

// The operation on each number.
pub fn each(heap: Global, op: Unary, array: &Array) -> Result<Array, AllocError>
    requires small { size (shape_of array.now.shape) ≤ 2 ^ 26 }
    ensures { IfOk result (λ a. Alike (array_of a) (each_array binary64 op (array_of array.now))) }
{
    tabulate(heap, array.shape, &Mapped { op, array })
}

#[derive(Drop)]
struct Zipped<'a> {
    op: Binary,
    left: &'a Array,
    right: &'a Array,
}

impl Source for Zipped<'_> {
    ghost ready = { λ s is. Reaches (shape_of s.left.now.shape) is × Reaches (shape_of s.right.now.shape) is };

    ghost at = { λ s is. binary64.two s.op (narrow_at s.left.now is) (narrow_at s.right.now is) };

    fn number(&self, place: &Place) -> u64 {
        let left = get_narrow(self.left, place);
        let right = get_narrow(self.right, place);
        binary(self.op, left, right)
    }
}

// The operation on the numbers of two arrays at each place.
pub fn both<'a>(
    heap: Global,
    op: Binary,
    left: &'a Array,
    right: &'a Array,
) -> Result<Array, AllocError>
    requires fits { fit (shape_of left.now.shape) (shape_of right.now.shape) ≡ true }
    requires small { size (wide (shape_of left.now.shape) (shape_of right.now.shape)) ≤ 2 ^ 26 }
    ensures { IfOk result (λ a. Alike (array_of a) (both_array binary64 op (array_of left.now) (array_of right.now))) }
{
    let Some(shape) = broadcast(&left.shape, &right.shape) else {
        return unreachable();
    };
    tabulate(heap, shape, &Zipped { op, left, right })
}

#[derive(Drop)]
struct Chosen<'a> {
    test: &'a Array,
    yes: &'a Array,
    other: &'a Array,
}

impl Source for Chosen<'_> {
    ghost ready = { λ s is. Reaches (shape_of s.test.now.shape) is × Reaches (shape_of s.yes.now.shape) is × Reaches (shape_of s.other.now.shape) is };

    ghost at = { λ s is. pick (binary64.truth (narrow_at s.test.now is)) (narrow_at s.yes.now is) (narrow_at s.other.now is) };

    fn number(&self, place: &Place) -> u64 {
        if truth(get_narrow(self.test, place)) {
            get_narrow(self.yes, place)
        } else {
            get_narrow(self.other, place)
        }
    }
}

// The number of `yes` at each place where that of `test` counts as true, that of `other` elsewhere.
pub fn choose<'a>(
    heap: Global,
    test: &'a Array,
    yes: &'a Array,
    other: &'a Array,
) -> Result<Array, AllocError>
    requires fits { fit (shape_of test.now.shape) (shape_of yes.now.shape) ≡ true }
    requires fits_all { fit (wide (shape_of test.now.shape) (shape_of yes.now.shape)) (shape_of other.now.shape) ≡ true }
    requires small { size (wide (wide (shape_of test.now.shape) (shape_of yes.now.shape)) (shape_of other.now.shape)) ≤ 2 ^ 26 }
    ensures { IfOk result (λ a. Alike (array_of a) (choose_array binary64 (array_of test.now) (array_of yes.now) (array_of other.now))) }
{
    let Some(two) = broadcast(&test.shape, &yes.shape) else {
        return unreachable();
    };
    let Some(shape) = broadcast(&two, &other.shape) else {
        return unreachable();
    };
    tabulate(heap, shape, &Chosen { test, yes, other })
}
