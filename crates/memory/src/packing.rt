// Buffers moved together, lowest first, so that the free words are all above them.
ghost use Rattle.std.specs.Prelude.{ℕ, ◌+◌, ◌<◌, ◌≤◌, length, None, MatchOption, slice_index_or};
ghost use Rattle.memory.specs.Spans.{GoodSlot};
ghost use Rattle.memory.specs.Tables.{Neat, Counted, Owned, Carries};
ghost use Rattle.memory.specs.Packing.{After, AllAfter, Lowest, Settled, Parted, Turn};

use crate::memory::Memory;
use crate::spans::{high_of, low_of};
use views::shift::shift_down;
use views::view::{Source, View};

// The slot whose buffer ends first, of those that end above `to`.
fn lowest(names: &[Option<View>; 64], to: usize) -> Option<usize>
    ensures { MatchOption result (Settled names.now to) (λ k. Lowest names.now to k) }
{
    let mut best: Option<(usize, usize)> = None;
    for (k, slot) in names.iter().enumerate() {
        let high = high_of(*slot);
        if to < high && best.is_none_or(|(_, end)| high < end) {
            best = Some((k, high));
        }
    }
    best.map(|(k, _)| k)
}

// A slot after the words low..high were moved down to `to`.
fn shift_slot(slot: Option<View>, low: usize, high: usize, to: usize) -> Option<View>
    requires good { GoodSlot slot }
    requires down { to ≤ low }
    requires some { to < high }
    ensures { After low high to slot result }
{
    let view = slot?;
    match view.source {
        Source::Area if view.low == low && view.high == high => Some(shift_down(view, to)),
        _ => slot,
    }
}

// All slots after the words low..high were moved down to `to`.
fn shift_holders(names: &mut [Option<View>; 64], low: usize, high: usize, to: usize)
    requires good { (k : ℕ) → GoodSlot (slice_index_or names.old k None) }
    requires down { to ≤ low }
    requires some { to < high }
    ensures { AllAfter low high to names.old names.new }
{
    for slot in names.iter_mut() {
        *slot = shift_slot(*slot, low, high, to);
    }
}

// Moves the buffer of slot `k` down to `to`; the word behind it.
fn move_down(names: &mut [Option<View>; 64], area: &mut [u64], k: usize, to: usize) -> usize
    requires neat { Neat names.old (length area.old) }
    requires parted { Parted names.old to }
    requires lowest { Lowest names.old to k }
    ensures { Turn area.old area.new names.old names.new to result }
{
    let low = low_of(names[k]);
    let high = high_of(names[k]);
    area.copy_within(low..high, to);
    shift_holders(names, low, high, to);
    to + (high - low)
}

// Moves all buffers together. Where each buffer is shown whole by some name, what is in use then and what it
// would take to copy out smaller views is no more than names hold.
pub fn pack(memory: &mut Memory, area: &mut [u64])
    requires neat { Neat memory.old.names memory.old.top }
    requires counted { Counted memory.old }
    requires there { memory.old.top ≤ length area.old }
    ensures carries { Carries area.old area.new memory.old memory.new }
    ensures owned { Owned memory.old.names → Owned memory.new.names }
    ensures packed { Owned memory.old.names → memory.new.top + memory.new.loose ≤ memory.new.held }
{
    let mut to = 0;
    while let Some(k) = lowest(&memory.names, to) {
        to = move_down(&mut memory.names, area, k, to);
    }
    memory.top = to;
}
