// Where a slot's buffer lies, and how many places its array has.
ghost use Rattle.std.specs.Prelude.{◌≡◌, ◌^◌, ◌<◌};
ghost use Rattle.memory.specs.Spans.{in_area, low_of, high_of, slot_size, loose_size};

use views::view::{Source, View};

// x for a view of the number area, 0 for one of an input.
#[tactic(auto, unfolding(crate::specs::Spans::in_area))]
fn in_area(source: Source, x: usize) -> usize
    ensures { result ≡ in_area source x }
{
    match source {
        Source::Area => x,
        Source::Input(_) => 0,
    }
}

// The word where a slot's buffer begins, or 0.
#[tactic(auto, unfolding(crate::specs::Spans::low_of))]
pub fn low_of(slot: Option<View>) -> usize
    ensures { result ≡ low_of slot }
{
    slot.map_or(0, |view| in_area(view.source, view.low))
}

// The word behind a slot's buffer, or 0.
#[tactic(auto, unfolding(crate::specs::Spans::high_of))]
pub fn high_of(slot: Option<View>) -> usize
    ensures { result ≡ high_of slot }
{
    slot.map_or(0, |view| in_area(view.source, view.high))
}

// How many places a slot's array has.
#[tactic(auto, unfolding(crate::specs::Spans::slot_size))]
pub fn size_of(slot: Option<View>) -> u64
    requires { slot_size slot < 2 ^ 62 }
    ensures { result ≡ slot_size slot }
{
    slot.map_or(0, |view| view.shape.size())
}

// The places of a view that shows fewer than its buffer has, or 0.
pub fn loose_of(slot: Option<View>) -> u64
    requires { slot_size slot < 2 ^ 62 }
    ensures { result ≡ loose_size slot }
{
    let size = size_of(slot);
    let room = high_of(slot).saturating_sub(low_of(slot)) as u64;
    if size < room { size } else { 0 }
}
