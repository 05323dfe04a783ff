// Slices along each axis: whether they fit a shape, and the shape that they show.
ghost use Rattle.std.specs.Prelude.{◌≡◌, ◌≤◌, ◌&&◌, ◌||◌, ◌==◌, length, nat_lt};
ghost use Rattle.std.specs.List.{list_all, zip};
ghost use Rattle.semantics.specs.Parts.{part_fits, parts_fit, part_shape};
ghost use Rattle.semantics.specs.Slices.{part_of, parts_of};
ghost use Rattle.encoding.specs.ShapeOf.{shape_of};
ghost use Rattle.encoding.specs.Slicing.{last_inside};

use crate::shape::Shape;
use semantics::slice::Slice;

// Whether the last place of a slice, if it has places, is a place of an axis.
fn last_fits(slice: Slice, len: u32) -> bool
    ensures { result ≡ last_inside (part_of slice) len }
{
    let from = u64::from(slice.from);
    let reach = u64::from(slice.step) * u64::from(slice.many.saturating_sub(1));
    if slice.backward {
        reach <= from
    } else {
        from + reach < u64::from(len)
    }
}

// A slice fits an axis where its steps go on and its first and last places are places of the axis; one of no
// places fits any axis.
#[tactic(auto, unfolding(semantics::specs::Parts::part_fits))]
fn slice_fits(slice: Slice, len: u32) -> bool
    ensures { result ≡ part_fits (part_of slice) len }
{
    slice.step >= 1 && (slice.many == 0 || slice.from < len && last_fits(slice, len))
}

// Whether there is a slice for each axis, and each fits.
pub fn slices_fit(slices: &[Slice], shape: &Shape) -> bool
    ensures { result ≡ parts_fit (parts_of slices.now) (shape_of shape.now) }
{
    slices.len() == shape.rank
        && slices
            .iter()
            .zip(shape.lengths())
            .all(|(&slice, &len)| slice_fits(slice, len))
}

// The shape that slices show.
pub fn slice_shape(slices: &[Slice]) -> Shape
    requires { length slices.now ≤ 8 }
    ensures { shape_of result ≡ part_shape (parts_of slices.now) }
{
    let mut lens = [0; 8];
    for (axis, slice) in slices.iter().enumerate() {
        lens[axis] = slice.many;
    }
    Shape {
        rank: slices.len(),
        lens,
    }
}
