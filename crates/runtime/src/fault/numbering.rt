ghost use Rattle.std.specs.Prelude.{◌≡◌};
ghost use Rattle.runtime.specs.Faults.{fault_number};

use crate::fault::Fault;

// The number of a fault.
impl From<Fault> for u8 {
    ghost from_gives = { λ fault n. n ≡ fault_number fault };

    fn from(fault: Fault) -> u8 {
        match fault {
            Fault::Shapes(_, _) => 1,
            Fault::Places => 5,
            Fault::Nothing => 6,
            Fault::Room => 10,
        }
    }
}
