// What a program, or an expression of it, runs on.
ghost use Rattle.std.specs.Prelude.{◌≡◌, ◌+◌, ◌^◌, ◌<◌, ◌≤◌, MatchResult};
ghost use Rattle.semantics.specs.Shapes.{size};
ghost use Rattle.encoding.specs.ShapeOf.{shape_of};
ghost use Rattle.reference.specs.declared.fault.Fault.TheVariants.{Places};

use crate::fault::Fault;
use crate::made::count_places;
use encoding::shape::Shape;
use std::alloc::Global;

#[derive(Clone, Copy)]
pub struct Task<'a> {
    pub heap: Global,
    // the steps of the whole program
    pub words: &'a [u32],
    pub inputs: &'a [u8],
    // how many places there are for arrays
    pub places: u64,
    ghost few: { places ≤ 2 ^ 26 },
}

impl Task<'_> {
    // How many places are taken with those of one more array.
    pub fn take(&self, taken: u64, shape: &Shape) -> Result<u64, Fault>
        ensures { MatchResult result (λ n. (n ≡ taken + size (shape_of shape.now)) × (n ≤ self.now.places)) (λ f. (f ≡ Places) × (self.now.places < taken + size (shape_of shape.now))) }
    {
        count_places(shape, taken, self.places).ok_or(Fault::Places)
    }
}
