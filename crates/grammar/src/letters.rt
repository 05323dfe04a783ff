// Bytes of a text.
ghost use Rattle.std.specs.Prelude.{◌≡◌};
ghost use Rattle.grammar.specs.Words.{is_digit, is_letter, in_word};
ghost use Rattle.grammar.specs.Moves.{is_hex};

#[tactic(auto, unfolding(crate::specs::Words::is_digit))]
pub fn is_digit(b: u8) -> bool
    ensures { result ≡ is_digit b }
{
    b.is_ascii_digit()
}

#[tactic(auto, unfolding(crate::specs::Words::is_letter))]
pub fn is_letter(b: u8) -> bool
    ensures { result ≡ is_letter b }
{
    b.is_ascii_lowercase()
}

// A byte of a word: a letter or a digit.
#[tactic(auto, unfolding(crate::specs::Words::in_word))]
pub fn in_word(b: u8) -> bool
    ensures { result ≡ in_word b }
{
    is_letter(b) || is_digit(b)
}

// 0 to 9, a to f.
#[tactic(auto, unfolding(crate::specs::Moves::is_hex))]
pub fn is_hex(b: u8) -> bool
    ensures { result ≡ is_hex b }
{
    is_digit(b) || matches!(b, b'a'..=b'f')
}
