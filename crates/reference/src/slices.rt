// Slices along each axis: which places of a shape they show.
ghost use Rattle.std.specs.Prelude.{◌≡◌, ◌/◌, ◌%◌, ◌<◌, ◌≤◌, true, ◌&&◌, length, ◌==◌, nat_le, nat_lt};
ghost use Rattle.semantics.specs.Shapes.{pick, In};
ghost use Rattle.semantics.specs.Parts.{place_of, part_fits, parts_fit, part_shape, places_of, apart, in_part, in_parts, which_one};
ghost use Rattle.encoding.specs.ShapeOf.{shape_of};
ghost use Rattle.reference.specs.IndicesOf.{indices_of};
ghost use Rattle.semantics.specs.Slices.{part_of, parts_of};
ghost use Rattle.reference.specs.PartsOf.{Stepping};

use crate::place::Place;
use encoding::shape::Shape;
use semantics::slice::Slice;

// The index that a slice shows at `index`.
fn slice_index(slice: Slice, index: u32) -> u64
    ensures { result ≡ place_of (part_of slice) index }
{
    let from = u64::from(slice.from);
    let offset = u64::from(slice.step) * u64::from(index);
    if slice.backward {
        from.saturating_sub(offset)
    } else {
        from + offset
    }
}

// The same on an axis of `len` that the slice fits.
fn sliced_index(slice: Slice, len: u32, index: u32) -> u32
    requires fits { part_fits (part_of slice) len ≡ true }
    requires inside { index < slice.many }
    ensures { result ≡ place_of (part_of slice) index }
{
    let at = slice_index(slice, index);
    if at >= u64::from(len) {
        return unreachable();
    }
    at as u32
}

// The place of a shape that slices show at a place of theirs.
pub fn sliced_place(slices: &[Slice], shape: &Shape, place: &Place) -> Place
    requires fits { parts_fit (parts_of slices.now) (shape_of shape.now) ≡ true }
    requires inside { In (part_shape (parts_of slices.now)) (indices_of place.now) }
    ensures { indices_of result ≡ places_of (parts_of slices.now) (indices_of place.now) }
{
    let mut indices = [0; 8];
    for (k, slice) in slices.iter().enumerate() {
        indices[k] = sliced_index(*slice, shape.lens[k], place.indices[k]);
    }
    Place {
        rank: shape.rank,
        indices,
    }
}

// How far an index is from the first of a slice, in its direction.
fn distance(slice: Slice, index: u32) -> u32
    ensures { result ≡ apart (part_of slice) index }
{
    if slice.backward {
        slice.from.saturating_sub(index)
    } else {
        index.saturating_sub(slice.from)
    }
}

// Whether an index is the first of a slice or lies in its direction.
fn ahead(slice: Slice, index: u32) -> bool
    ensures { result ≡ pick slice.backward (nat_le index slice.from) (nat_le slice.from index) }
{
    if slice.backward {
        index <= slice.from
    } else {
        slice.from <= index
    }
}

// Whether an index at a distance in the direction of a slice is one of its own.
fn on_step(slice: Slice, distance: u32) -> bool
    requires step { 0 < slice.step }
    ensures { result ≡ (distance % slice.step == 0 && nat_lt (distance / slice.step) slice.many) }
{
    distance % slice.step == 0 && distance / slice.step < slice.many
}

fn in_slice(slice: Slice, index: u32) -> bool
    requires step { 0 < slice.step }
    ensures { result ≡ in_part (part_of slice) index }
{
    ahead(slice, index) && on_step(slice, distance(slice, index))
}

// Whether slices show a place.
pub fn in_slices(slices: &[Slice], place: &Place) -> bool
    requires steps { Stepping slices.now }
    requires axes { length slices.now ≤ length (indices_of place.now) }
    ensures { result ≡ in_parts (parts_of slices.now) (indices_of place.now) }
{
    for (k, slice) in slices.iter().enumerate() {
        if !in_slice(*slice, place.indices[k]) {
            return false;
        }
    }
    true
}

// The place at which slices show a place.
pub fn unsliced_place(slices: &[Slice], place: &Place) -> Place
    requires steps { Stepping slices.now }
    requires axes { length slices.now ≤ length (indices_of place.now) }
    ensures { indices_of result ≡ which_one (parts_of slices.now) (indices_of place.now) }
{
    let mut indices = [0; 8];
    for (k, slice) in slices.iter().enumerate() {
        indices[k] = distance(*slice, place.indices[k]) / slice.step;
    }
    Place {
        rank: slices.len(),
        indices,
    }
}
