// A view with its axes in another order.
ghost use Rattle.std.specs.Prelude.{◌≡◌, ℕ, true, List};
ghost use Rattle.semantics.specs.Orders.{is_order, turned, turned_back};
ghost use Rattle.semantics.specs.Arrays.{Array, turn_array};
ghost use Rattle.encoding.specs.ShapeOf.{shape_of};
ghost use Rattle.views.specs.Views.{Good, Holds, Sees};

use crate::view::View;
use encoding::orders::transposed;

// Axis i of the outcome is axis order[i] of the view, with its length and stride.
pub fn transpose(view: View, order: &[u32]) -> View
    requires good { Good view }
    requires order { is_order order.now view.shape.rank ≡ true }
    ensures sees { Sees view result (turned order.now (shape_of view.shape)) (turned_back order.now) }
    ensures holds { (area bs : List ℕ) (a : Array ℕ) → Holds area bs view a → Holds area bs result (turn_array order.now a) }
{
    let mut strides = [0; 8];
    for (axis, &old) in order.iter().enumerate() {
        strides[axis] = view.strides[old as usize];
    }
    View {
        shape: transposed(order, &view.shape),
        strides,
        ..view
    }
}
