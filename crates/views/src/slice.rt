// Parts of a view, along each axis.
ghost use Rattle.std.specs.Prelude.{◌≡◌, ℕ, ◌<◌, ◌≤◌, true, List, length, take, pos};
ghost use Rattle.semantics.specs.Arrays.{Array, part_array};
ghost use Rattle.semantics.specs.Slices.{part_of, parts_of};
ghost use Rattle.semantics.specs.Parts.{parts_fit, part_shape, places_of};
ghost use Rattle.encoding.specs.ShapeOf.{shape_of};
ghost use Rattle.views.specs.Views.{Good, Holds, Sees};
ghost use Rattle.views.specs.Slicing.{froms, part_stride, part_strides, Steps, AllSteps};

use crate::place::address_of;
use crate::view::View;
use encoding::slices::slice_shape;
use semantics::slice::Slice;

fn stride_of_slice(slice: Slice, stride: i64) -> i64
    requires { Steps slice stride }
    ensures { result ≡ part_stride (part_of slice) stride }
{
    if slice.many <= 1 {
        return 0;
    }
    let step = stride * i64::from(slice.step);
    if slice.backward { -step } else { step }
}

// The place of the array that the first place of its slices shows.
fn first_of_slices(slices: &[Slice]) -> [u32; 8]
    requires { length slices.now ≤ 8 }
    ensures { take (length slices.now) result ≡ froms (parts_of slices.now) }
{
    let mut first = [0; 8];
    for (axis, slice) in slices.iter().enumerate() {
        first[axis] = slice.from;
    }
    first
}

fn strides_of_slices(slices: &[Slice], strides: [i64; 8]) -> [i64; 8]
    requires few { length slices.now ≤ 8 }
    requires steps { AllSteps slices.now strides }
    ensures { take (length slices.now) result ≡ part_strides (parts_of slices.now) strides }
{
    let mut all = [0; 8];
    for (axis, &slice) in slices.iter().enumerate() {
        all[axis] = stride_of_slice(slice, strides[axis]);
    }
    all
}

// The part of a view, where it fits: the same numbers, by longer steps from another start.
pub fn slice(view: View, slices: &[Slice]) -> View
    requires good { Good view }
    requires fit { parts_fit (parts_of slices.now) (shape_of view.shape) ≡ true }
    ensures sees { Sees view result (part_shape (parts_of slices.now)) (places_of (parts_of slices.now)) }
    ensures holds { (area bs : List ℕ) (a : Array ℕ) → Holds area bs view a → Holds area bs result (part_array (parts_of slices.now) a) }
{
    let shape = slice_shape(slices);
    // without places there is no first one
    if shape.size() == 0 {
        return View {
            shape,
            strides: [0; 8],
            ..view
        };
    }
    let first = first_of_slices(slices);
    View {
        shape,
        strides: strides_of_slices(slices, view.strides),
        start: address_of(&view, &first[..slices.len()]),
        ..view
    }
}
