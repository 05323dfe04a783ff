// Rows of an array, looked up by the numbers of another.
ghost use Rattle.std.specs.Prelude.{◌≡◌, ◌^◌, ◌<◌, ◌≤◌, true, ◌∷◌, ◌++◌, length, take, drop, IfOk, MatchOption, nat_lt};
ghost use Rattle.std.specs.List.{list_all};
ghost use Rattle.semantics.specs.Shapes.{size, In};
ghost use Rattle.semantics.specs.Arrays.{Alike, rows_there, rows_array};
ghost use Rattle.numbers.specs.Operations.{binary64};
ghost use Rattle.encoding.specs.ShapeOf.{shape_of};
ghost use Rattle.reference.specs.ArrayOf.{array_of};
ghost use Rattle.reference.specs.IndicesOf.{indices_of};

use crate::array::Array;
use crate::place::Place;
use crate::place::axes::{first_axes, row_place};
use crate::shapes::{axis_length, rank};
use crate::tabulate::{Source, tabulate};
use encoding::shape::Shape;
use numbers::index;
use std::alloc::{AllocError, Global};

fn all_below(numbers: &[u64], len: u64) -> bool
    ensures { result ≡ list_all (λ x. nat_lt (binary64.index x) len) numbers.now }
{
    numbers.iter().all(|&x| index(x) < len)
}

// Whether each number of `rows` is an index along the first axis of `array`.
pub fn rows_exist(array: &Array, rows: &Array) -> bool
    requires axes { 0 < length (shape_of array.now.shape) }
    ensures { result ≡ rows_there binary64 (array_of array.now) (array_of rows.now) }
{
    let len = u64::from(axis_length(&array.shape, 0));
    all_below(rows.numbers.as_slice(), len)
}

// The shape of `rows`, and then that of a row of `array`; none where there are more than eight axes.
pub fn gathered_shape(array: &Shape, rows: &Shape) -> Option<Shape>
    requires axes { 0 < length (shape_of array.now) }
    ensures { MatchOption result (8 < length (shape_of rows.now ++ drop 1 (shape_of array.now))) (λ s. shape_of s ≡ shape_of rows.now ++ drop 1 (shape_of array.now)) }
{
    let rank = rows.rank + array.rank - 1;
    if rank > 8 {
        return None;
    }
    let mut lens = rows.lens;
    lens[rows.rank..rank].copy_from_slice(&array.lens[1..array.rank]);
    Some(Shape { rank, lens })
}

#[derive(Drop)]
struct Gathered<'a> {
    array: &'a Array,
    rows: &'a Array,
}

impl Source for Gathered<'_> {
    ghost ready = { λ s is. (0 < length (shape_of s.array.now.shape)) × (rows_there binary64 (array_of s.array.now) (array_of s.rows.now) ≡ true) × In (shape_of s.rows.now.shape ++ drop 1 (shape_of s.array.now.shape)) is };

    ghost at = { λ s is. (array_of s.array.now).at (binary64.index ((array_of s.rows.now).at (take (length (shape_of s.rows.now.shape)) is)) ∷ drop (length (shape_of s.rows.now.shape)) is) };

    fn number(&self, place: &Place) -> u64 {
        let front = rank(&self.rows.shape);
        let row = index(self.rows.get(&first_axes(place, front)));
        if row >= u64::from(axis_length(&self.array.shape, 0)) {
            return unreachable();
        }
        self.array.get(&row_place(row as u32, place, front))
    }
}

// The rows of `array` that the numbers of `rows` say.
pub fn rows<'a>(heap: Global, array: &'a Array, rows: &'a Array) -> Result<Array, AllocError>
    requires axes { 0 < length (shape_of array.now.shape) }
    requires there { rows_there binary64 (array_of array.now) (array_of rows.now) ≡ true }
    requires few { length (shape_of rows.now.shape ++ drop 1 (shape_of array.now.shape)) ≤ 8 }
    requires small { size (shape_of rows.now.shape ++ drop 1 (shape_of array.now.shape)) ≤ 2 ^ 26 }
    ensures { IfOk result (λ a. Alike (array_of a) (rows_array binary64 (array_of array.now) (array_of rows.now))) }
{
    let Some(shape) = gathered_shape(&array.shape, &rows.shape) else {
        return unreachable();
    };
    tabulate(heap, shape, &Gathered { array, rows })
}
