// Why a text is not read.
ghost use Rattle.std.specs.Prelude.{◌≡◌};
ghost use Rattle.reader.specs.Refusals.{refusal_of, refusal_number, refusal_place};

use crate::judging::Flaw;

#[derive(Clone, Copy)]
pub enum Refusal {
    // no program from this byte on
    NoProgram(usize),
    // too many bytes or marks, or too deep, at this byte
    TooMuch(usize),
    // the words that are lent do not suffice
    ShortWords,
}

impl From<Flaw> for Refusal {
    ghost from_gives = { λ flaw r. r ≡ refusal_of flaw };

    fn from(flaw: Flaw) -> Refusal {
        match flaw {
            Flaw::NoProgram(i) => Refusal::NoProgram(i),
            Flaw::TooMuch(i) => Refusal::TooMuch(i),
        }
    }
}

impl Refusal {
    // The number of a refusal.
    pub fn number(self) -> u32
        ensures { result ≡ refusal_number self }
    {
        match self {
            Refusal::NoProgram(_) => 7,
            Refusal::TooMuch(_) => 8,
            Refusal::ShortWords => 10,
        }
    }

    // The byte of the text that a refusal speaks of; 0 where it speaks of none.
    pub fn place(self) -> usize
        ensures { result ≡ refusal_place self }
    {
        match self {
            Refusal::NoProgram(i) | Refusal::TooMuch(i) => i,
            Refusal::ShortWords => 0,
        }
    }
}
