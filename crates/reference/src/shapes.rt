// Lengths of shapes, and shapes made of others.
ghost use Rattle.std.specs.Prelude.{◌≡◌, ◌+◌, ◌<◌, length, slice_index, slice_set};
ghost use Rattle.semantics.specs.Shapes.{without};
ghost use Rattle.encoding.specs.ShapeOf.{shape_of};

use encoding::shape::Shape;

// How many axes there are.
pub fn rank(shape: &Shape) -> usize
    ensures { result ≡ length (shape_of shape.now) }
{
    shape.rank
}

// The length of an axis.
pub fn axis_length(shape: &Shape, axis: usize) -> u32
    requires there { axis < length (shape_of shape.now) }
    ensures { result ≡ slice_index (shape_of shape.now) axis }
{
    shape.lens[axis]
}

// The shape without one axis.
pub fn remove_axis(shape: &Shape, axis: usize) -> Shape
    requires there { axis < length (shape_of shape.now) }
    ensures { shape_of result ≡ without axis (shape_of shape.now) }
{
    let rank = shape.rank - 1;
    let mut lens = shape.lens;
    lens[axis..rank].copy_from_slice(&shape.lens[axis + 1..shape.rank]);
    Shape { rank, lens }
}

// The shape with another length along one axis.
pub fn with_length(shape: &Shape, axis: usize, len: u32) -> Shape
    requires there { axis < length (shape_of shape.now) }
    ensures { shape_of result ≡ slice_set (shape_of shape.now) axis len }
{
    let rank = shape.rank;
    let mut lens = shape.lens;
    lens[axis] = len;
    Shape { rank, lens }
}
