// Why a text does not run over its inputs.
ghost use Rattle.std.specs.Prelude.{◌≡◌};
ghost use Rattle.reference.specs.declared.refused.Refused.TheVariants.{Text, Input};

use encoding::inputs::BadInput;
use reader::refusal::Refusal;

#[derive(Clone, Copy)]
pub enum Refused {
    // the text is no program, or too much
    Text(Refusal),
    // this input is cut short or has too many axes
    Input(usize),
    // the places are not from 1 to 2^26
    Places,
}

impl From<Refusal> for Refused {
    ghost from_gives = { λ refusal r. r ≡ Text refusal };

    fn from(refusal: Refusal) -> Refused {
        Refused::Text(refusal)
    }
}

impl From<BadInput> for Refused {
    ghost from_gives = { λ bad r. r ≡ Input bad.input };

    fn from(bad: BadInput) -> Refused {
        Refused::Input(bad.input)
    }
}
