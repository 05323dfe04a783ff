// Broadcasting: the places of a wider shape, seen from an array that is broadcast to it.
ghost use Rattle.std.specs.Prelude.{◌≡◌, ◌≤◌, length, ◌==◌};
ghost use Rattle.semantics.specs.Shapes.{pick};
ghost use Rattle.semantics.specs.Broadcast.{narrow};
ghost use Rattle.encoding.specs.ShapeOf.{shape_of};
ghost use Rattle.reference.specs.ArrayOf.{narrow_at};
ghost use Rattle.reference.specs.IndicesOf.{indices_of};
ghost use Rattle.reference.specs.Broadcasts.{Reaches};

use crate::array::Array;
use crate::place::Place;
use encoding::shape::Shape;

// An index along a length of 1 is 0.
fn pin_index(len: u32, index: u32) -> u32
    ensures { result ≡ pick (len == 1) 0 index }
{
    if len == 1 { 0 } else { index }
}

// A place of a wider shape, seen from this one.
pub fn narrow_place(shape: &Shape, place: &Place) -> Place
    requires few { length (shape_of shape.now) ≤ length (indices_of place.now) }
    ensures { indices_of result ≡ narrow (shape_of shape.now) (indices_of place.now) }
{
    let skip = place.rank - shape.rank;
    let mut indices = [0; 8];
    for (k, len) in shape.lengths().iter().enumerate() {
        indices[k] = pin_index(*len, place.indices[skip + k]);
    }
    Place {
        rank: shape.rank,
        indices,
    }
}

// The number of an array at a place of a shape to which it is broadcast.
pub fn get_narrow(array: &Array, place: &Place) -> u64
    requires reaches { Reaches (shape_of array.now.shape) (indices_of place.now) }
    ensures { result ≡ narrow_at array.now (indices_of place.now) }
{
    array.get(&narrow_place(&array.shape, place))
}
