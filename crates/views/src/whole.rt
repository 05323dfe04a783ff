// Views of all numbers of a buffer or of an input.
ghost use Rattle.std.specs.Prelude.{◌≡◌, ℕ, ◌+◌, ◌^◌, ◌<◌, List};
ghost use Rattle.semantics.specs.Shapes.{size};
ghost use Rattle.semantics.specs.Arrays.{Array};
ghost use Rattle.encoding.specs.ShapeOf.{shape_of};
ghost use Rattle.encoding.specs.Format.{array_at};
ghost use Rattle.encoding.specs.Headers.{Heads};
ghost use Rattle.views.specs.declared.view.Source.TheVariants.{Area, Input};
ghost use Rattle.views.specs.Views.{Whole, Holds, Laid};

use crate::strides::contiguous;
use crate::view::{Source, View};
use encoding::header::Header;
use encoding::shape::Shape;

// Numbers that lie rows first from address `first` on.
fn whole(source: Source, first: usize, shape: Shape) -> View
    requires { first + size (shape_of shape) < 2 ^ 62 }
    ensures { Whole source first (shape_of shape) result }
{
    View {
        shape,
        strides: contiguous(shape),
        start: first,
        low: first,
        high: first + shape.size() as usize,
        source,
    }
}

// The buffer that begins at word `first` of the number area.
pub fn of_buffer(first: usize, shape: Shape) -> View
    requires { first + size (shape_of shape) < 2 ^ 62 }
    ensures whole { Whole Area first (shape_of shape) result }
    ensures holds { (area bs : List ℕ) (a : Array ℕ) → shape_of shape ≡ a.shape → Laid area first a → Holds area bs result a }
{
    whole(Source::Area, first, shape)
}

// The numbers of an input where they are, in the input's bytes.
pub fn of_input(head: Header) -> View
    requires { size (shape_of head.shape) < 2 ^ 62 }
    ensures whole { Whole (Input head.start) 0 (shape_of head.shape) result }
    ensures holds { (area bs : List ℕ) (at : ℕ) → Heads bs at head → Holds area bs result (array_at bs at) }
{
    whole(Source::Input(head.start), 0, head.shape)
}
