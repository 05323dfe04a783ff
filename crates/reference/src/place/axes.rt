// One index of a place read, changed or put in.
ghost use Rattle.std.specs.Prelude.{◌≡◌, ◌+◌, ◌<◌, ◌≤◌, ◌∷◌, length, take, drop, slice_index, slice_set};
ghost use Rattle.semantics.specs.Shapes.{put_in};
ghost use Rattle.reference.specs.IndicesOf.{indices_of};

use crate::place::Place;

// The index along an axis.
pub fn index_along(place: &Place, axis: usize) -> u32
    requires there { axis < length (indices_of place.now) }
    ensures { result ≡ slice_index (indices_of place.now) axis }
{
    place.indices[axis]
}

// The place with another index along one axis.
pub fn with_index(place: &Place, axis: usize, index: u32) -> Place
    requires there { axis < length (indices_of place.now) }
    ensures { indices_of result ≡ slice_set (indices_of place.now) axis index }
{
    let rank = place.rank;
    let mut indices = place.indices;
    indices[axis] = index;
    Place { rank, indices }
}

// The place with one more axis, and an index along it.
pub fn insert_index(place: &Place, axis: usize, index: u32) -> Place
    requires there { axis ≤ length (indices_of place.now) }
    requires few { length (indices_of place.now) < 8 }
    ensures { indices_of result ≡ put_in axis index (indices_of place.now) }
{
    let rank = place.rank + 1;
    let mut indices = place.indices;
    indices[axis] = index;
    indices[axis + 1..rank].copy_from_slice(&place.indices[axis..place.rank]);
    Place { rank, indices }
}

// The first indices of a place.
pub fn first_axes(place: &Place, count: usize) -> Place
    requires there { count ≤ length (indices_of place.now) }
    ensures { indices_of result ≡ take count (indices_of place.now) }
{
    Place {
        rank: count,
        indices: place.indices,
    }
}

// An index, and then those of a place but for the first `skip`.
pub fn row_place(row: u32, place: &Place, skip: usize) -> Place
    requires there { skip ≤ length (indices_of place.now) }
    requires few { length (indices_of place.now) < 8 + skip }
    ensures { indices_of result ≡ row ∷ drop skip (indices_of place.now) }
{
    let rank = place.rank - skip + 1;
    let mut indices = [0; 8];
    indices[0] = row;
    indices[1..rank].copy_from_slice(&place.indices[skip..place.rank]);
    Place { rank, indices }
}
