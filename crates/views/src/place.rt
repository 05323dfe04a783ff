// One place of a view: whether there is one, its address, its number.
ghost use Rattle.std.specs.Prelude.{◌≡◌, suc, ◌<◌, ◌≤◌, true, length, pos, Decides, MatchOption};
ghost use Rattle.semantics.specs.Shapes.{In};
ghost use Rattle.encoding.specs.ShapeOf.{shape_of};
ghost use Rattle.views.specs.Views.{Good, Reaches, address, number_from, seen};

use crate::lent::Lent;
use crate::view::{Source, View};
use encoding::shape::Shape;
use encoding::words::read_number;

// Whether these are the indices of a place: as many as axes, each below its length.
pub fn is_place(shape: Shape, place: &[u32]) -> bool
    ensures { Decides result (In (shape_of shape) place.now) }
{
    place.len() == shape.rank
        && place
            .iter()
            .zip(shape.lengths())
            .all(|(&index, &len)| index < len)
}

// The address of a place.
pub fn address_of(view: &View, place: &[u32]) -> usize
    requires good { Good view.now }
    requires there { In (shape_of view.now.shape) place.now }
    ensures { address view.now place.now ≡ pos result }
{
    let mut at = view.start as i64;
    for (&stride, &index) in view.strides.iter().zip(place) {
        at += stride * i64::from(index);
    }
    at as usize
}

// The number at an address.
#[tactic(auto, unfolding(crate::specs::Views::number_from))]
pub fn number_at(source: Source, lent: Lent, at: usize) -> u64
    requires { Reaches source lent.area.now lent.bytes.now (suc at) }
    ensures { result ≡ number_from source lent.entry.area.now lent.entry.bytes.now at }
{
    match source {
        Source::Area => lent.area[at],
        Source::Input(base) => read_number(lent.bytes, base + 8 * at).unwrap(),
    }
}

// The number at a place, or none where there is no such place.
pub fn number(view: &View, lent: Lent, place: &[u32]) -> Option<u64>
    requires good { Good view.now }
    requires there { Reaches view.now.source lent.area.now lent.bytes.now view.now.high }
    ensures { MatchOption result (In (shape_of view.now.shape) place.now → ⊥) (λ x. In (shape_of view.now.shape) place.now × (x ≡ seen lent.entry.area.now lent.entry.bytes.now view.now place.now)) }
{
    if !is_place(view.shape, place) {
        return None;
    }
    Some(number_at(view.source, lent, address_of(view, place)))
}
