// Why a text is not run.
ghost use Rattle.std.specs.Prelude.{◌≡◌};
ghost use Rattle.runtime.specs.Answering.{for_flaw};
ghost use Rattle.runtime.specs.declared.answer.Refusal.TheVariants.{Input};

use encoding::inputs::BadInput;
use reader::judging::Flaw;

pub mod numbering;

// Why there was no run; nothing lent has changed.
#[derive(Clone, Copy)]
pub enum Refusal {
    // no program from this byte on
    NoProgram(usize),
    // too much at this byte
    TooMuch(usize),
    // an input that is cut short or has too many axes
    Input(usize),
    // lent steps too short
    Steps,
    // lent work too short, or a number of places that there cannot be
    Work,
}

impl From<Flaw> for Refusal {
    ghost from_gives = { λ flaw r. r ≡ for_flaw flaw };

    fn from(flaw: Flaw) -> Refusal {
        match flaw {
            Flaw::NoProgram(at) => Refusal::NoProgram(at),
            Flaw::TooMuch(at) => Refusal::TooMuch(at),
        }
    }
}

impl From<BadInput> for Refusal {
    ghost from_gives = { λ bad r. r ≡ Input bad.input };

    fn from(bad: BadInput) -> Refusal {
        Refusal::Input(bad.input)
    }
}
