// Operations on arrays that are there: an operation's own faults, then places, and only then the array.
ghost use Rattle.std.specs.Prelude.{◌≡◌, ℕ, List, length, nat_lt};
ghost use Rattle.semantics.specs.Parts.{Part};
ghost use Rattle.semantics.specs.Values.{Expr, on_each, on_both, on_choose, on_fold, on_scan, on_shape, on_turn, on_part, on_join, on_rows};
ghost use Rattle.numbers.specs.Operations.{binary64};
ghost use Rattle.program.specs.declared.step.Step.{Step as Mark};
ghost use Rattle.program.specs.Spelling.{items, slices, spell};
ghost use Rattle.program.specs.Standing.{steps_from};
ghost use Rattle.encoding.specs.ShapeOf.{shape_of};
ghost use Rattle.reference.specs.ArrayOf.{array_of};
ghost use Rattle.reference.specs.CellsOf.{sizes};
ghost use Rattle.semantics.specs.Slices.{parts_of};
ghost use Rattle.reference.specs.Right.{Right};

use crate::array::Array;
use crate::brackets::{read_items, read_slices};
use crate::concat::{join, joinable, joined_shape};
use crate::elementwise::{both, choose, each};
use crate::fault::{Fault, Stop};
use crate::gather::{gathered_shape, rows, rows_exist};
use crate::made::Made;
use crate::reduce::{fold, scan};
use crate::restructure::{part, reshape, sizes_match, turn};
use crate::shapes::{rank, remove_axis};
use crate::task::Task;
use encoding::broadcast::broadcast;
use encoding::orders::{is_order, transposed};
use encoding::shape::Shape;
use encoding::slices::{slice_shape, slices_fit};
use semantics::operation::{Binary, Unary};
use semantics::slice::Slice;

fn has_axis(shape: &Shape, axis: u32) -> bool
    ensures { result ≡ nat_lt axis (length (shape_of shape.now)) }
{
    (axis as usize) < shape.rank
}

impl Task<'_> {
    pub fn apply_each(&self, op: Unary, array: &Array, taken: u64) -> Result<Made, Stop>
        ensures { Right (on_each binary64 op self.now.places (array_of array.now) taken) result }
    {
        let count = self.take(taken, &array.shape)?;
        let array = each(self.heap, op, array)?;
        Ok(Made { array, count })
    }

    pub fn apply_both<'a>(
        &self,
        op: Binary,
        first: &'a Array,
        second: &'a Array,
        taken: u64,
    ) -> Result<Made, Stop>
        ensures { Right (on_both binary64 op self.now.places (array_of first.now) (array_of second.now) taken) result }
    {
        let shape = broadcast(&first.shape, &second.shape).ok_or(Fault::Shapes)?;
        let count = self.take(taken, &shape)?;
        let array = both(self.heap, op, first, second)?;
        Ok(Made { array, count })
    }

    // Not inlined, as `apply_one` is not.
    #[inline(never)]
    pub fn apply_choose<'a>(
        &self,
        test: &'a Array,
        yes: &'a Array,
        other: &'a Array,
        taken: u64,
    ) -> Result<Made, Stop>
        ensures { Right (on_choose binary64 self.now.places (array_of test.now) (array_of yes.now) (array_of other.now) taken) result }
    {
        let two = broadcast(&test.shape, &yes.shape).ok_or(Fault::Shapes)?;
        let shape = broadcast(&two, &other.shape).ok_or(Fault::Shapes)?;
        let count = self.take(taken, &shape)?;
        let array = choose(self.heap, test, yes, other)?;
        Ok(Made { array, count })
    }

    pub fn apply_fold(&self, op: Binary, axis: u32, array: &Array, taken: u64) -> Result<Made, Stop>
        ensures { Right (on_fold binary64 op axis self.now.places (array_of array.now) taken) result }
    {
        if !has_axis(&array.shape, axis) {
            return Err(Stop::Fault(Fault::Axes));
        }
        let along = axis as usize;
        let shape = remove_axis(&array.shape, along);
        let count = self.take(taken, &shape)?;
        let array = fold(self.heap, op, along, array)?;
        Ok(Made { array, count })
    }

    pub fn apply_scan(&self, op: Binary, axis: u32, array: &Array, taken: u64) -> Result<Made, Stop>
        ensures { Right (on_scan binary64 op axis self.now.places (array_of array.now) taken) result }
    {
        if !has_axis(&array.shape, axis) {
            return Err(Stop::Fault(Fault::Axes));
        }
        let along = axis as usize;
        let count = self.take(taken, &array.shape)?;
        let array = scan(self.heap, op, along, array)?;
        Ok(Made { array, count })
    }

    // More lengths than a shape has places for are a fault only where their product is right.
    fn apply_lengths(&self, lens: &[u32], array: &Array, taken: u64) -> Result<Made, Stop>
        ensures { (p : ℕ) → Right (on_shape (sizes p) lens.now self.now.places (array_of array.now) taken) result }
    {
        if !sizes_match(lens, &array.shape) {
            return Err(Stop::Fault(Fault::Count));
        }
        let shape = Shape::new(lens).ok_or(Fault::Axes)?;
        let count = self.take(taken, &shape)?;
        let array = reshape(self.heap, shape, array)?;
        Ok(Made { array, count })
    }

    // The lengths stand as items from `behind` on.
    pub fn apply_shape(&self, behind: usize, array: &Array, taken: u64) -> Result<Made, Stop>
        ensures { (p : ℕ) (t : List ℕ) (e : Expr ℕ) (s : List Mark) → steps_from self.now.words.now behind ≡ items t (spell e s) → Right (on_shape (sizes p) t self.now.places (array_of array.now) taken) result }
    {
        let lens = read_items(self.heap, self.words, behind)?;
        self.apply_lengths(lens.as_slice(), array, taken)
    }

    fn apply_order<'a>(&self, order: &'a [u32], array: &'a Array, taken: u64) -> Result<Made, Stop>
        ensures { Right (on_turn order.now self.now.places (array_of array.now) taken) result }
    {
        if !is_order(order, rank(&array.shape)) {
            return Err(Stop::Fault(Fault::Axes));
        }
        let shape = transposed(order, &array.shape);
        let count = self.take(taken, &shape)?;
        let array = turn(self.heap, order, array)?;
        Ok(Made { array, count })
    }

    // The order stands as items from `behind` on.
    pub fn apply_turn(&self, behind: usize, array: &Array, taken: u64) -> Result<Made, Stop>
        ensures { (os : List ℕ) (e : Expr ℕ) (s : List Mark) → steps_from self.now.words.now behind ≡ items os (spell e s) → Right (on_turn os self.now.places (array_of array.now) taken) result }
    {
        let order = read_items(self.heap, self.words, behind)?;
        self.apply_order(order.as_slice(), array, taken)
    }

    fn apply_slices<'a>(
        &self,
        list: &'a [Slice],
        array: &'a Array,
        taken: u64,
    ) -> Result<Made, Stop>
        ensures { Right (on_part (parts_of list.now) self.now.places (array_of array.now) taken) result }
    {
        if !slices_fit(list, &array.shape) {
            return Err(Stop::Fault(Fault::Range));
        }
        let shape = slice_shape(list);
        let count = self.take(taken, &shape)?;
        let array = part(self.heap, list, array)?;
        Ok(Made { array, count })
    }

    // The slices stand from `behind` on.
    pub fn apply_part(&self, behind: usize, array: &Array, taken: u64) -> Result<Made, Stop>
        ensures { (ps : List Part) (e : Expr ℕ) (s : List Mark) → steps_from self.now.words.now behind ≡ slices ps (spell e s) → Right (on_part ps self.now.places (array_of array.now) taken) result }
    {
        let list = read_slices(self.heap, self.words, behind)?;
        self.apply_slices(list.as_slice(), array, taken)
    }

    pub fn apply_join<'a>(
        &self,
        axis: u32,
        first: &'a Array,
        second: &'a Array,
        taken: u64,
    ) -> Result<Made, Stop>
        ensures { Right (on_join axis self.now.places (array_of first.now) (array_of second.now) taken) result }
    {
        if !has_axis(&first.shape, axis) {
            return Err(Stop::Fault(Fault::Axes));
        }
        let along = axis as usize;
        if !joinable(along, first, second) {
            return Err(Stop::Fault(Fault::Shapes));
        }
        let shape = joined_shape(along, first, second);
        let count = self.take(taken, &shape)?;
        let array = join(self.heap, along, first, second)?;
        Ok(Made { array, count })
    }

    pub fn apply_rows<'a>(
        &self,
        array: &'a Array,
        found: &'a Array,
        taken: u64,
    ) -> Result<Made, Stop>
        ensures { (p : ℕ) → Right (on_rows (sizes p) binary64 self.now.places (array_of array.now) (array_of found.now) taken) result }
    {
        if !has_axis(&array.shape, 0) {
            return Err(Stop::Fault(Fault::Axes));
        }
        if !rows_exist(array, found) {
            return Err(Stop::Fault(Fault::Range));
        }
        let shape = gathered_shape(&array.shape, &found.shape).ok_or(Fault::Axes)?;
        let count = self.take(taken, &shape)?;
        let array = rows(self.heap, array, found)?;
        Ok(Made { array, count })
    }
}
