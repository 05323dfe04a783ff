// Words: those of the language, those kept for later, and names.
ghost use Rattle.std.specs.Prelude.{◌≡◌, Some};
ghost use Rattle.grammar.specs.Words.{same_word, begins_word, find, is_some, begins_some, unary_word, unaries, binary_word, binaries, head_word, heads, itself, kept_words, reserved, all_in_word, shaped, is_name};
ghost use Rattle.semantics.specs.Shapes.{pick};

use crate::letters::{in_word, is_letter};
use crate::symbol::Head;
use semantics::operation::{Binary, Unary};

pub fn same_word(a: &[u8], b: &[u8]) -> bool
    ensures { result ≡ same_word a.now b.now }
{
    a == b
}

// Whether the part is a beginning of the word.
pub fn begins_word(part: &[u8], word: &[u8]) -> bool
    ensures { result ≡ begins_word part.now word.now }
{
    word.starts_with(part)
}

#[tactic(auto, unfolding(crate::specs::Words::unary_word))]
pub fn unary_word(k: Unary) -> &'static [u8]
    ensures { result.now ≡ unary_word k }
{
    match k {
        Unary::Neg => b"neg",
        Unary::Abs => b"abs",
        Unary::Sqrt => b"sqrt",
        Unary::Floor => b"floor",
        Unary::Not => b"not",
    }
}

#[tactic(auto, unfolding(crate::specs::Words::binary_word))]
pub fn binary_word(k: Binary) -> &'static [u8]
    ensures { result.now ≡ binary_word k }
{
    match k {
        Binary::Add => b"add",
        Binary::Sub => b"sub",
        Binary::Mul => b"mul",
        Binary::Div => b"div",
        Binary::Less => b"less",
        Binary::Same => b"same",
        Binary::Least => b"least",
        Binary::Most => b"most",
    }
}

#[tactic(auto, unfolding(crate::specs::Words::head_word))]
fn head_word(head: Head) -> &'static [u8]
    ensures { result.now ≡ head_word head }
{
    match head {
        Head::In => b"in",
        Head::Count => b"count",
        Head::Each(k) => unary_word(k),
        Head::Both(k) => binary_word(k),
        Head::Choose => b"choose",
        Head::Fold => b"fold",
        Head::Scan => b"scan",
        Head::Shape => b"shape",
        Head::Turn => b"turn",
        Head::Part => b"part",
        Head::Join => b"join",
        Head::Rows => b"rows",
    }
}

// The words of the language in the order in which they are looked for.
// Stays beside program's tables: those are in the order of codes in stored steps, which may come to differ.
const UNARIES: [Unary; 5] = [
    Unary::Neg,
    Unary::Abs,
    Unary::Sqrt,
    Unary::Floor,
    Unary::Not,
];

const BINARIES: [Binary; 8] = [
    Binary::Add,
    Binary::Sub,
    Binary::Mul,
    Binary::Div,
    Binary::Less,
    Binary::Same,
    Binary::Least,
    Binary::Most,
];

const HEADS: [Head; 23] = [
    Head::In,
    Head::Count,
    Head::Each(Unary::Neg),
    Head::Each(Unary::Abs),
    Head::Each(Unary::Sqrt),
    Head::Each(Unary::Floor),
    Head::Each(Unary::Not),
    Head::Both(Binary::Add),
    Head::Both(Binary::Sub),
    Head::Both(Binary::Mul),
    Head::Both(Binary::Div),
    Head::Both(Binary::Less),
    Head::Both(Binary::Same),
    Head::Both(Binary::Least),
    Head::Both(Binary::Most),
    Head::Choose,
    Head::Fold,
    Head::Scan,
    Head::Shape,
    Head::Turn,
    Head::Part,
    Head::Join,
    Head::Rows,
];

// Words that are no names, and no heads either.
const KEPT: [&[u8]; 17] = [
    b"let", b"put", b"show", b"again", b"end", b"if", b"else", b"while", b"within", b"def",
    b"give", b"num", b"whole", b"sort", b"order", b"total", b"dot",
];

// The head where the bytes are those, else the other one.
// Stays: a match on byte strings is a test for each byte, and its goals (48 at the 17 words of `is_kept`) did not close.
fn head_or(rest: &[u8], bytes: &[u8], head: Head, other: Option<Head>) -> Option<Head>
    ensures { result ≡ pick (same_word rest.now bytes.now) (Some head) other }
{
    if same_word(rest, bytes) {
        return Some(head);
    }
    other
}

// The head that the word is, or none. Only those with the same first byte are compared.
pub fn find_head(word: &[u8]) -> Option<Head>
    ensures { result ≡ find head_word heads word.now }
{
    let [first, rest @ ..] = word else {
        return None;
    };
    match *first {
        b'a' => head_or(
            rest,
            b"bs",
            Head::Each(Unary::Abs),
            head_or(rest, b"dd", Head::Both(Binary::Add), None),
        ),
        b'c' => head_or(
            rest,
            b"ount",
            Head::Count,
            head_or(rest, b"hoose", Head::Choose, None),
        ),
        b'd' => head_or(rest, b"iv", Head::Both(Binary::Div), None),
        b'f' => head_or(
            rest,
            b"loor",
            Head::Each(Unary::Floor),
            head_or(rest, b"old", Head::Fold, None),
        ),
        b'i' => head_or(rest, b"n", Head::In, None),
        b'j' => head_or(rest, b"oin", Head::Join, None),
        b'l' => head_or(
            rest,
            b"ess",
            Head::Both(Binary::Less),
            head_or(rest, b"east", Head::Both(Binary::Least), None),
        ),
        b'm' => head_or(
            rest,
            b"ul",
            Head::Both(Binary::Mul),
            head_or(rest, b"ost", Head::Both(Binary::Most), None),
        ),
        b'n' => head_or(
            rest,
            b"eg",
            Head::Each(Unary::Neg),
            head_or(rest, b"ot", Head::Each(Unary::Not), None),
        ),
        b'p' => head_or(rest, b"art", Head::Part, None),
        b'r' => head_or(rest, b"ows", Head::Rows, None),
        b's' => head_or(
            rest,
            b"qrt",
            Head::Each(Unary::Sqrt),
            head_or(
                rest,
                b"ub",
                Head::Both(Binary::Sub),
                head_or(
                    rest,
                    b"ame",
                    Head::Both(Binary::Same),
                    head_or(
                        rest,
                        b"can",
                        Head::Scan,
                        head_or(rest, b"hape", Head::Shape, None),
                    ),
                ),
            ),
        ),
        b't' => head_or(rest, b"urn", Head::Turn, None),
        _ => None,
    }
}

// The operation on one number that the word is, or none.
pub fn find_unary(word: &[u8]) -> Option<Unary>
    ensures { result ≡ find unary_word unaries word.now }
{
    UNARIES
        .iter()
        .copied()
        .find(|unary| same_word(word, unary_word(*unary)))
}

// The operation on two numbers that the word is, or none.
pub fn find_binary(word: &[u8]) -> Option<Binary>
    ensures { result ≡ find binary_word binaries word.now }
{
    BINARIES
        .iter()
        .copied()
        .find(|binary| same_word(word, binary_word(*binary)))
}

fn is_head(word: &[u8]) -> bool
    ensures { result ≡ is_some head_word heads word.now }
{
    find_head(word).is_some()
}

fn is_kept(word: &[u8]) -> bool
    ensures { result ≡ is_some itself kept_words word.now }
{
    KEPT.iter().any(|kept| same_word(word, kept))
}

// Whether the word is the beginning of a head.
pub fn begins_head(word: &[u8]) -> bool
    ensures { result ≡ begins_some head_word heads word.now }
{
    HEADS.iter().any(|head| begins_word(word, head_word(*head)))
}

// Whether the word is the beginning of an operation on two numbers.
pub fn begins_binary(word: &[u8]) -> bool
    ensures { result ≡ begins_some binary_word binaries word.now }
{
    BINARIES
        .iter()
        .any(|binary| begins_word(word, binary_word(*binary)))
}

// Whether the word cannot be a name, though it may be shaped as one.
#[tactic(auto, unfolding(crate::specs::Words::reserved))]
pub fn is_reserved(word: &[u8]) -> bool
    ensures { result ≡ reserved word.now }
{
    is_head(word) || is_kept(word)
}

// Whether all bytes are bytes of words.
fn all_in_word(word: &[u8]) -> bool
    ensures { result ≡ all_in_word word.now }
{
    word.iter().all(|b| in_word(*b))
}

// A letter first, then letters and digits, 8 in all at most.
pub fn is_shaped(word: &[u8]) -> bool
    ensures { result ≡ shaped word.now }
{
    let [first, rest @ ..] = word else {
        return false;
    };
    rest.len() < 8 && is_letter(*first) && all_in_word(rest)
}

#[tactic(auto, unfolding(crate::specs::Words::is_name))]
pub fn is_name(word: &[u8]) -> bool
    ensures { result ≡ is_name word.now }
{
    is_shaped(word) && !is_reserved(word)
}
