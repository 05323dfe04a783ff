// Why a program stops before its end.
ghost use Rattle.std.specs.Prelude.{◌≡◌};
ghost use Rattle.reference.specs.Faults.{fault_number};
ghost use Rattle.reference.specs.declared.fault.Stop.TheVariants.{Fault as Faulty, Memory};

use std::alloc::AllocError;

// What the language says is wrong, in the order of the faults' numbers.
#[derive(Clone, Copy, Debug, PartialEq, Eq)]
pub enum Fault {
    // shapes that cannot be broadcast or joined
    Shapes,
    // an axis that is not there, an order that is none, or too many axes
    Axes,
    // another number of places
    Count,
    // a part or a row out of range
    Range,
    // more places than there are
    Places,
    // a name or an input that has nothing
    Nothing,
}

// A fault, or the allocator has no more: of that the language says nothing.
#[derive(Clone, Copy, Debug, PartialEq, Eq)]
pub enum Stop {
    Fault(Fault),
    Memory,
}

// The number of a fault.
impl From<Fault> for u32 {
    ghost from_gives = { λ fault r. r ≡ fault_number fault };

    fn from(fault: Fault) -> u32 {
        match fault {
            Fault::Shapes => 1,
            Fault::Axes => 2,
            Fault::Count => 3,
            Fault::Range => 4,
            Fault::Places => 5,
            Fault::Nothing => 6,
        }
    }
}

impl From<Fault> for Stop {
    ghost from_gives = { λ fault r. r ≡ Faulty fault };

    fn from(fault: Fault) -> Stop {
        Stop::Fault(fault)
    }
}

impl From<AllocError> for Stop {
    ghost from_gives = { λ _ r. r ≡ Memory };

    fn from(_e: AllocError) -> Stop {
        Stop::Memory
    }
}
