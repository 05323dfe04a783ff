// A view seen in a wider shape.
ghost use Rattle.std.specs.Prelude.{◌≡◌, ℕ, List, pos, ◌==◌};
ghost use Rattle.semantics.specs.Shapes.{pick};
ghost use Rattle.semantics.specs.Broadcast.{narrow};
ghost use Rattle.semantics.specs.Arrays.{Array};
ghost use Rattle.encoding.specs.ShapeOf.{shape_of};
ghost use Rattle.views.specs.Views.{Good, Holds, Sees};
ghost use Rattle.views.specs.Broadcasting.{Spread, broadcast_array};

use crate::view::View;
use encoding::shape::Shape;

// A length of 1 goes on for ever.
fn pinned_stride(len: u32, stride: i64) -> i64
    ensures { result ≡ pick (len == 1) (pos 0) stride }
{
    if len == 1 { 0 } else { stride }
}

// A view seen in a wider shape: along lengths of 1 and axes that it has not, the same numbers again.
pub fn broadcast(view: View, shape: Shape) -> View
    requires good { Good view }
    requires spread { Spread (shape_of view.shape) (shape_of shape) }
    ensures sees { Sees view result (shape_of shape) (narrow (shape_of view.shape)) }
    ensures holds { (area bs : List ℕ) (a : Array ℕ) → Holds area bs view a → Holds area bs result (broadcast_array (shape_of shape) a) }
{
    let gap = shape.rank - view.shape.rank;
    let mut strides = [0; 8];
    for (axis, &len) in view.shape.lengths().iter().enumerate() {
        strides[gap + axis] = pinned_stride(len, view.strides[axis]);
    }
    View {
        shape,
        strides,
        ..view
    }
}
