// Why a run ends early, and at which step.
ghost use Rattle.std.specs.Prelude.{◌≡◌};

use encoding::shape::Shape;

pub mod numbering;

#[derive(Clone, Copy)]
pub enum Fault {
    // two shapes that cannot be broadcast together
    Shapes(Shape, Shape),
    // more places than there are
    Places,
    // a name or an input that has nothing
    Nothing,
    // no room for what is shown
    Room,
}

#[derive(Clone, Copy)]
pub struct Stop {
    pub node: usize,
    pub fault: Fault,
}

impl Fault {
    // A run's end by this fault, at a step.
    pub fn at(self, node: usize) -> Stop
        ensures node { result.node ≡ node }
        ensures fault { result.fault ≡ self }
    {
        Stop { node, fault: self }
    }
}
