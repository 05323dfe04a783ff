// An array that owns its numbers.
ghost use Rattle.std.specs.Prelude.{◌≡◌, vec_len};
ghost use Rattle.semantics.specs.Shapes.{size};
ghost use Rattle.encoding.specs.ShapeOf.{shape_of};

use encoding::shape::Shape;

pub mod methods;

#[derive(Drop)]
pub struct Array {
    pub shape: Shape,
    // rows first, one for each place
    pub numbers: Vec<u64>,
    ghost full: { vec_len numbers ≡ size (shape_of shape) },
}
