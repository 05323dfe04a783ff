ghost use Rattle.std.specs.Prelude.{◌≡◌};
ghost use Rattle.runtime.specs.Answering.{refusal_number, refusal_place};

use crate::answer::Refusal;

// The number of a refusal.
impl From<Refusal> for u8 {
    ghost from_gives = { λ refusal n. n ≡ refusal_number refusal };

    fn from(refusal: Refusal) -> u8 {
        match refusal {
            Refusal::NoProgram(_) => 7,
            Refusal::TooMuch(_) => 8,
            Refusal::Input(_) => 9,
            Refusal::Steps | Refusal::Work => 10,
        }
    }
}

impl Refusal {
    // Where a text is refused, which input, or which lent slice.
    pub fn place(self) -> usize
        ensures { result ≡ refusal_place self }
    {
        match self {
            Refusal::NoProgram(at) | Refusal::TooMuch(at) => at,
            Refusal::Input(k) => k,
            Refusal::Steps => 0,
            Refusal::Work => 1,
        }
    }
}
