// A new array from what stands at each of its places.
ghost use Rattle.std.specs.Prelude.{◌≡◌, ℕ, ◌^◌, ◌≤◌, List, IfOk};
ghost use Rattle.semantics.specs.Shapes.{size, In};
ghost use Rattle.semantics.specs.Arrays.{Alike};
ghost use Rattle.encoding.specs.ShapeOf.{shape_of};
ghost use Rattle.reference.specs.ArrayOf.{array_of, array_with};
ghost use Rattle.reference.specs.IndicesOf.{indices_of};

use crate::array::Array;
use crate::place::Place;
use crate::place::numbering::unflatten;
use encoding::shape::Shape;
use std::alloc::{AllocError, Global};

// What gives a number for each place of an array to be made.
pub trait Source {
    // the places at which it may be asked
    ghost ready: { Self → List ℕ → Type 0 };

    // the number at a place
    ghost at: { Self → List ℕ → ℕ };

    fn number(&self, place: &Place) -> u64
        requires { ready self.now (indices_of place.now) }
        ensures { result ≡ at self.now (indices_of place.now) };
}

// The array of a shape whose numbers the source gives.
pub fn tabulate<S: Source>(heap: Global, shape: Shape, source: &S) -> Result<Array, AllocError>
    requires small { size (shape_of shape) ≤ 2 ^ 26 }
    requires sourced { (is : List ℕ) → In (shape_of shape) is → S.ready source.now is }
    ensures { IfOk result (λ a. Alike (array_of a) (array_with (shape_of shape) (S.at source.now))) }
{
    let count = shape.size() as usize;
    let mut numbers = Vec::new(heap);
    for n in 0..count {
        numbers.push(source.number(&unflatten(&shape, n)))?;
    }
    Ok(Array { shape, numbers })
}
