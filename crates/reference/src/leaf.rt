// Arrays without operands: what a name or an input has is copied, a constant and a count are made.
ghost use Rattle.std.specs.Prelude.{◌≡◌, ℕ, ◌^◌, ◌≤◌, slice_index_or};
ghost use Rattle.semantics.specs.Arrays.{constant_array, count_array};
ghost use Rattle.semantics.specs.Values.{none, given, made as making, held as holding};
ghost use Rattle.numbers.specs.Operations.{binary64};
ghost use Rattle.encoding.specs.Format.{inputs_of};
ghost use Rattle.reference.specs.ArrayOf.{array_of};
ghost use Rattle.reference.specs.CellsOf.{cells_of};
ghost use Rattle.reference.specs.Right.{Right};

use crate::array::Array;
use crate::create::{constant, count};
use crate::decode::decode;
use crate::fault::{Fault, Stop};
use crate::made::Made;
use crate::names::find_array;
use crate::task::Task;
use encoding::inputs::find_input;
use std::alloc::Global;

pub fn take_constant(heap: Global, value: u64, left: u64) -> Result<Made, Stop>
    ensures { Right (making left 0 (constant_array value)) result }
{
    if left < 1 {
        return Err(Stop::Fault(Fault::Places));
    }
    let array = constant(heap, value)?;
    Ok(Made { array, count: 1 })
}

impl Task<'_> {
    fn take_copy(&self, array: &Array) -> Result<Made, Stop>
        ensures { Right (making self.now.places 0 (array_of array.now)) result }
    {
        let count = self.take(0, &array.shape)?;
        let array = array.copy(self.heap)?;
        Ok(Made { array, count })
    }

    pub fn take_name(&self, names: &Vec<Option<Array>>, name: u32) -> Result<Made, Stop>
        ensures { Right (holding self.now.places (slice_index_or (cells_of names.now) name none)) result }
    {
        let array = find_array(names, name).ok_or(Fault::Nothing)?;
        self.take_copy(array)
    }

    pub fn take_input(&self, input: u32) -> Result<Made, Stop>
        ensures { Right (holding self.now.places (given (inputs_of self.now.inputs.now) input)) result }
    {
        let head = find_input(self.inputs, input as usize).ok_or(Fault::Nothing)?;
        let count = self.take(0, &head.shape)?;
        let array = decode(self.heap, self.inputs, head)?;
        Ok(Made { array, count })
    }

    pub fn take_count(&self, len: u32) -> Result<Made, Stop>
        ensures { Right (making self.now.places 0 (count_array binary64 len)) result }
    {
        let many = u64::from(len);
        if self.places < many {
            return Err(Stop::Fault(Fault::Places));
        }
        let array = count(self.heap, len)?;
        Ok(Made { array, count: many })
    }
}
