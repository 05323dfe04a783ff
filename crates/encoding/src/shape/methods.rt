ghost use Rattle.std.specs.Prelude.{◌≡◌, ◌-◌, ◌^◌, ◌<◌, ◌≤◌, min, length, MatchOption};
ghost use Rattle.semantics.specs.Shapes.{size, same};
ghost use Rattle.encoding.specs.ShapeOf.{shape_of};
ghost use Rattle.encoding.specs.SameShape.{same_shape_laws};

use crate::shape::Shape;

impl Shape {
    // The shape with these lengths, or none where they are more than eight.
    pub fn new(lens: &[u32]) -> Option<Shape>
        ensures { MatchOption result (8 < length lens.now) (λ s. shape_of s ≡ lens.now) }
    {
        let rank = lens.len();
        if rank > 8 {
            return None;
        }
        let mut all = [0; 8];
        all[..rank].copy_from_slice(lens);
        Some(Shape { rank, lens: all })
    }

    // Just the lengths that there are.
    pub fn lengths(&self) -> &[u32]
        ensures { result.now ≡ shape_of self.now }
    {
        &self.lens[..self.rank]
    }

    // How many places there are; where they are 2^64 or more, 2^64 - 1.
    pub fn size(&self) -> u64
        ensures { result ≡ min (size (shape_of self.now)) (2 ^ 64 - 1) }
    {
        self.lengths()
            .iter()
            .fold(1, |places, len| places.saturating_mul(u64::from(*len)))
    }
}

// Shapes of the same lengths; what stands behind the lengths that there are does not count.
impl PartialEq for Shape {
    ghost eq = { λ s t. same (shape_of s) (shape_of t) };

    ghost laws = { same_shape_laws };

    fn eq(&self, other: &Shape) -> bool {
        self.lengths() == other.lengths()
    }
}
