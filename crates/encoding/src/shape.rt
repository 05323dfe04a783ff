// A shape by value: up to eight lengths.
ghost use Rattle.std.specs.Prelude.{◌≤◌};

pub mod methods;

#[derive(Clone, Copy)]
pub struct Shape {
    pub rank: usize,
    pub lens: [u32; 8],
    ghost few: { rank ≤ 8 },
}
