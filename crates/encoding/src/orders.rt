// Orders of axes: axis k of the outcome is axis `order[k]` of the array.
ghost use Rattle.std.specs.Prelude.{◌≡◌, true, length};
ghost use Rattle.semantics.specs.Orders.{among, is_order, turned};
ghost use Rattle.encoding.specs.ShapeOf.{shape_of};

use crate::shape::Shape;

fn is_among(axis: usize, order: &[u32]) -> bool
    ensures { result ≡ among axis order.now }
{
    order.iter().any(|&other| axis == other as usize)
}

// Whether each axis of so many stands in an order once.
pub fn is_order(order: &[u32], rank: usize) -> bool
    ensures { result ≡ is_order order.now rank }
{
    order.len() == rank && (0..rank).all(|axis| is_among(axis, order))
}

// The lengths of a shape in an order.
pub fn transposed(order: &[u32], shape: &Shape) -> Shape
    requires { is_order order.now (length (shape_of shape.now)) ≡ true }
    ensures { shape_of result ≡ turned order.now (shape_of shape.now) }
{
    let mut lens = [0; 8];
    for (axis, &old) in order.iter().enumerate() {
        lens[axis] = shape.lens[old as usize];
    }
    Shape {
        rank: shape.rank,
        lens,
    }
}
