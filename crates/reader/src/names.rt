// Names that a text has so far, each as the part of the text where it first came.
ghost use Rattle.std.specs.Prelude.{◌≡◌, ◌≤◌, length, position};
ghost use Rattle.std.specs.List.{list_any};
ghost use Rattle.grammar.specs.Words.{same_word, begins_word};
ghost use Rattle.grammar.specs.Moves.{viable_name, viable};
ghost use Rattle.reader.specs.Names.{part, spelling, spellings, Named};

use grammar::words::{begins_head, begins_word, is_name, is_shaped, same_word};

// How many names a text may have.
pub const MOST_NAMES: usize = 64;

#[derive(Clone, Copy)]
pub struct Span {
    pub from: usize,
    pub to: usize,
}

impl Span {
    // The part of the text.
    pub fn of(self, text: &[u8]) -> &[u8]
        ensures { result.now ≡ spelling text.now self }
    {
        part_of(text, self.from, self.to)
    }

    // Whether that is the word.
    fn is(&self, text: &[u8], word: &[u8]) -> bool
        ensures { result ≡ same_word word.now (spelling text.now self.now) }
    {
        same_word(word, self.of(text))
    }

    // Whether that begins with the word.
    fn begins_with(&self, text: &[u8], word: &[u8]) -> bool
        ensures { result ≡ begins_word word.now (spelling text.now self.now) }
    {
        begins_word(word, self.of(text))
    }
}

// A name's number, and whether it comes for the first time.
// Stays: both kinds have a number, so an enum of the two would hold it twice.
#[derive(Clone, Copy)]
pub struct Naming {
    pub place: u32,
    pub new: bool,
}

// The bytes from `from` up to `to`, as far as there are any.
pub fn part_of(text: &[u8], from: usize, to: usize) -> &[u8]
    ensures { result.now ≡ part text.now from to }
{
    let end = to.min(text.len());
    &text[from.min(end)..end]
}

// Which of the names the word is, or none.
fn find_name(text: &[u8], names: &[Span], word: &[u8]) -> Option<usize>
    ensures { result ≡ position (λ name. same_word word.now (spelling text.now name)) names.now }
{
    names.iter().position(|name| name.is(text, word))
}

// Whether the word is the beginning of a name.
fn begins_name(text: &[u8], names: &[Span], word: &[u8]) -> bool
    ensures { result ≡ list_any (λ name. begins_word word.now (spelling text.now name)) names.now }
{
    names.iter().any(|name| name.begins_with(text, word))
}

// Whether the word may still become a name: one that has come, or a new one where there is room.
pub fn is_viable_name(text: &[u8], names: &[Span], word: &[u8]) -> bool
    ensures { result ≡ viable_name (spellings text.now names.now) word.now }
{
    is_shaped(word) && (names.len() < MOST_NAMES || begins_name(text, names, word))
}

// Whether the word may still become one that begins an expression, or a name.
pub fn is_viable(text: &[u8], names: &[Span], word: &[u8]) -> bool
    ensures { result ≡ viable (spellings text.now names.now) word.now }
{
    begins_head(word) || is_viable_name(text, names, word)
}

// The name that the word is, or none where it is no name or there is no room for another.
pub fn name_of(text: &[u8], names: &[Span], word: &[u8]) -> Option<Naming>
    requires few { length names.now ≤ 64 }
    ensures { Named (spellings text.now names.now) word.now result }
{
    if !is_name(word) {
        return None;
    }
    if let Some(k) = find_name(text, names, word) {
        return Some(Naming {
            place: k as u32,
            new: false,
        });
    }
    let count = names.len();
    if count >= MOST_NAMES {
        return None;
    }
    Some(Naming {
        place: count as u32,
        new: true,
    })
}
