// Orders of axes: axis k of the outcome is axis `order[k]` of the array.
ghost use Rattle.std.specs.Prelude.{◌≡◌, true, length, ◌==◌, position};
ghost use Rattle.semantics.specs.Orders.{is_order, where_in, turned_back};
ghost use Rattle.reference.specs.IndicesOf.{indices_of};

use crate::place::Place;

fn place_among(axis: u32, order: &[u32]) -> Option<usize>
    ensures { result ≡ position (λ o. o == axis) order.now }
{
    order.iter().position(|&o| o == axis)
}

// Where an axis stands in an order.
fn find_axis(axis: u32, order: &[u32]) -> usize
    ensures { result ≡ where_in axis order.now }
{
    place_among(axis, order).unwrap_or(order.len())
}

// The place of the array that stands at a place of the outcome.
pub fn untransposed_place(order: &[u32], place: &Place) -> Place
    requires order { is_order order.now (length (indices_of place.now)) ≡ true }
    ensures { indices_of result ≡ turned_back order.now (indices_of place.now) }
{
    let rank = place.rank;
    let mut indices = [0; 8];
    // Stays: `k` is the axis that is looked for, and not only an index.
    for k in 0..rank {
        indices[k] = place.indices[find_axis(k as u32, order)];
    }
    Place { rank, indices }
}
