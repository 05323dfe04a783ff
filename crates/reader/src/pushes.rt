// What takes the topmost symbol's place, by value: up to eight symbols, the new topmost first.
ghost use Rattle.std.specs.Prelude.{◌≤◌};

use grammar::symbol::Symbol;

pub mod making;

// Stays: no heap here, so a fixed array and how many of it count.
#[derive(Clone, Copy)]
pub struct Pushes {
    pub len: usize,
    pub at: [Symbol; 8],
    ghost few: { len ≤ 8 },
}
