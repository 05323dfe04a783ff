// A place of an array by value: up to eight indices, one for each axis.
ghost use Rattle.std.specs.Prelude.{◌≤◌};

pub mod axes;
pub mod numbering;

// Stays: with a Vec each number that is read could fail for want of memory, and `Source::number` cannot fail.
#[derive(Clone, Copy)]
pub struct Place {
    pub rank: usize,
    pub indices: [u32; 8],
    ghost few: { rank ≤ 8 },
}
