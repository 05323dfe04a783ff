// Views whose numbers lie rows first with no gaps, and other shapes of them.
ghost use Rattle.std.specs.Prelude.{◌≡◌, ℕ, ◌^◌, ◌<◌, ◌⊎◌, List, pos, Decides};
ghost use Rattle.semantics.specs.Shapes.{size, flat, unflat};
ghost use Rattle.semantics.specs.Arrays.{Array, shape_array};
ghost use Rattle.encoding.specs.ShapeOf.{shape_of};
ghost use Rattle.views.specs.Views.{Good, Holds, Sees, Packed};

use crate::strides::contiguous;
use crate::view::View;
use encoding::shape::Shape;

// Whether the numbers along an axis lie `below` apart, or there is but one.
fn is_row_stride(len: u32, stride: i64, below: u64) -> bool
    requires { below < 2 ^ 62 }
    ensures { Decides result ((len ≡ 1) ⊎ (stride ≡ pos below)) }
{
    len == 1 || stride == below as i64
}

// Whether the numbers lie rows first with no gaps: along each axis, but for those of length 1, the stride is
// how many places the later axes have.
pub fn is_packed(view: View) -> bool
    requires { Good view }
    ensures { Decides result (Packed view) }
{
    if view.shape.size() == 0 {
        return true;
    }
    let lens = view.shape.lengths().iter().rev();
    let strides = view.strides[..view.shape.rank].iter().rev();
    let mut below: u64 = 1;
    for (&len, &stride) in lens.zip(strides) {
        if !is_row_stride(len, stride, below) {
            return false;
        }
        below *= u64::from(len);
    }
    true
}

// The same numbers in the same order, in another shape with as many places.
pub fn reshape(view: View, shape: Shape) -> View
    requires good { Good view }
    requires packed { Packed view }
    requires many { size (shape_of shape) ≡ size (shape_of view.shape) }
    ensures packed { Packed result }
    ensures sees { Sees view result (shape_of shape) (λ is. unflat (shape_of view.shape) (flat (shape_of shape) is)) }
    ensures holds { (area bs : List ℕ) (a : Array ℕ) → Holds area bs view a → Holds area bs result (shape_array (shape_of shape) a) }
{
    View {
        shape,
        strides: contiguous(shape),
        ..view
    }
}
