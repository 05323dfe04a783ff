// What a tree is worked out from: the words of its steps, what each name has, what views look into, and the shape
// of what it comes to.
ghost use Rattle.std.specs.Prelude.{◌≡◌, length};

use encoding::shape::Shape;
use views::lent::Lent;
use views::view::View;

#[derive(Clone, Copy)]
pub struct Env<'a> {
    pub words: &'a [u32],
    pub names: &'a [Option<View>; 64],
    pub lent: Lent<'a>,
    pub shape: Shape,
    ghost many: { length names.now ≡ 64 },
}
