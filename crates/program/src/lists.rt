// The items and the slices that stand one after another from a node on: an operand stands behind the last.
ghost use Rattle.std.specs.Prelude.{◌≡◌, ◌+◌, ◌^◌, ◌<◌, length, slice_index, slice_index_or};
ghost use Rattle.semantics.specs.Slices.{part_of, no_part};
ghost use Rattle.program.specs.Leading.{items_at, slices_at};

use crate::steps::Steps;
use crate::words::step_at;
use semantics::slice::Slice;

// How many items stand from `node` on.
pub fn count_items(words: &[u32], node: usize) -> usize
    ensures count { result ≡ length (items_at words.now node) }
    ensures fits { node + result < 2 ^ 64 }
{
    let items = Steps { words, node }.take_while(|step| step.item().is_some());
    items.count()
}

// Item `index` of those from `node` on.
pub fn item_at(words: &[u32], node: usize, index: usize) -> u32
    requires { index < length (items_at words.now node) }
    ensures { result ≡ slice_index (items_at words.now node) index }
{
    step_at(words, node + index)
        .and_then(|step| step.item())
        .unwrap()
}

// How many slices stand from `node` on.
pub fn count_slices(words: &[u32], node: usize) -> usize
    ensures count { result ≡ length (slices_at words.now node) }
    ensures fits { node + result < 2 ^ 64 }
{
    let slices = Steps { words, node }.take_while(|step| step.slice().is_some());
    slices.count()
}

// Slice `index` of those from `node` on.
pub fn slice_at(words: &[u32], node: usize, index: usize) -> Slice
    requires { index < length (slices_at words.now node) }
    ensures { part_of result ≡ slice_index_or (slices_at words.now node) index no_part }
{
    step_at(words, node + index)
        .and_then(|step| step.slice())
        .unwrap()
}
