// One step of a program. Steps stand in prefix order: an operation, then the items of its brackets, then its
// operands; a statement, then its expression; `again`, then its lines, then `End`. The items end where an
// expression begins, so they are not counted.
ghost use Rattle.std.specs.Prelude.{◌≡◌};
ghost use Rattle.std.specs.Option.{option_map};
ghost use Rattle.semantics.specs.Slices.{part_of};
ghost use Rattle.program.specs.Leading.{item_in, slice_in};

use semantics::operation::{Binary, Unary};
use semantics::slice::Slice;

#[derive(Clone, Copy)]
pub enum Step {
    // the end of an `again`
    End,
    // statements: the name; the name; -; how often
    Let(u32),
    Put(u32),
    Show,
    Again(u32),
    // arrays without operands
    Name(u32),
    Input(u32),
    Constant(u64),
    Count(u32),
    // operations: which, along which axis
    Each(Unary),
    Both(Binary),
    Choose,
    Fold(Binary, u32),
    Scan(Binary, u32),
    Shape,
    Turn,
    Part,
    Join(u32),
    Rows,
    // items of brackets: a length or an axis; a slice
    Item(u32),
    Slice(Slice),
}

impl Step {
    // The item that the step is, or none.
    pub fn item(self) -> Option<u32>
        ensures { result ≡ item_in self }
    {
        match self {
            Step::Item(k) => Some(k),
            _ => None,
        }
    }

    // The slice that the step is, or none.
    pub fn slice(self) -> Option<Slice>
        ensures { option_map part_of result ≡ slice_in self }
    {
        match self {
            Step::Slice(slice) => Some(slice),
            _ => None,
        }
    }
}
