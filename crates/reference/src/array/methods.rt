ghost use Rattle.std.specs.Prelude.{◌≡◌, IfOk};
ghost use Rattle.semantics.specs.Shapes.{In};
ghost use Rattle.semantics.specs.Arrays.{Alike};
ghost use Rattle.encoding.specs.ShapeOf.{shape_of};
ghost use Rattle.reference.specs.ArrayOf.{array_of};
ghost use Rattle.reference.specs.IndicesOf.{indices_of};

use crate::array::Array;
use crate::place::Place;
use crate::place::numbering::flatten;
use std::alloc::{AllocError, Global};

impl Array {
    // The same array, with numbers of its own.
    pub fn copy(&self, heap: Global) -> Result<Array, AllocError>
        ensures { IfOk result (λ a. Alike (array_of a) (array_of self.now)) }
    {
        let numbers = Vec::from_slice(heap, self.numbers.as_slice())?;
        Ok(Array {
            shape: self.shape,
            numbers,
        })
    }

    // The number at a place.
    pub fn get(&self, place: &Place) -> u64
        requires inside { In (shape_of self.now.shape) (indices_of place.now) }
        ensures { result ≡ (array_of self.now).at (indices_of place.now) }
    {
        self.numbers[flatten(&self.shape, place, self.numbers.len())]
    }
}
