// Strides of numbers that lie rows first, with no gaps.
ghost use Rattle.std.specs.Prelude.{◌^◌, ◌<◌};
ghost use Rattle.semantics.specs.Shapes.{size};
ghost use Rattle.encoding.specs.ShapeOf.{shape_of};
ghost use Rattle.views.specs.Walking.{RowMajor};

use encoding::shape::Shape;

// The stride of an axis is the number of places that its later axes have.
pub fn contiguous(shape: Shape) -> [i64; 8]
    requires { size (shape_of shape) < 2 ^ 62 }
    ensures { RowMajor (shape_of shape) result }
{
    let mut strides = [0; 8];
    // without places the strides do not matter, and the lengths' products can be too large
    if shape.size() == 0 {
        return strides;
    }
    let mut below: u64 = 1;
    // Stays: what an adapter of `iter_mut` lends is not known to a proof once it is written
    for k in (0..shape.rank).rev() {
        strides[k] = below as i64;
        below *= u64::from(shape.lens[k]);
    }
    strides
}
