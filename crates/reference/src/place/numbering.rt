// Places are numbered rows first.
ghost use Rattle.std.specs.Prelude.{◌≡◌, ◌<◌};
ghost use Rattle.semantics.specs.Shapes.{size, In, flat, unflat};
ghost use Rattle.encoding.specs.ShapeOf.{shape_of};
ghost use Rattle.reference.specs.IndicesOf.{indices_of};

use crate::place::Place;
use encoding::shape::Shape;

// The number of a place of a shape with `count` places.
pub fn flatten(shape: &Shape, place: &Place, count: usize) -> usize
    requires inside { In (shape_of shape.now) (indices_of place.now) }
    requires counted { count ≡ size (shape_of shape.now) }
    ensures number { result ≡ flat (shape_of shape.now) (indices_of place.now) }
    ensures below { result < count }
{
    let mut number = 0;
    // Stays: over `lengths().iter().enumerate()` it was open that there are as many lengths as `rank` says, and so `overflow_mul-number`.
    for k in 0..shape.rank {
        number = number * shape.lens[k] as usize + place.indices[k] as usize;
    }
    number
}

// The place of a number.
pub fn unflatten(shape: &Shape, number: usize) -> Place
    requires below { number < size (shape_of shape.now) }
    ensures { indices_of result ≡ unflat (shape_of shape.now) number }
{
    let rank = shape.rank;
    let mut indices = [0; 8];
    let mut rest = number;
    // Stays: two arrays from the back, one read and one written: `k` names the axis of both.
    for k in (0..rank).rev() {
        let len = shape.lens[k] as usize;
        indices[k] = (rest % len) as u32;
        rest /= len;
    }
    Place { rank, indices }
}
