// Cases as lines of text, such as `add 3fb999999999999a 3fc999999999999a 3fd3333333333334`.
ghost use Rattle.std.specs.Prelude.{◌≡◌};
ghost use Rattle.vectors.specs.Given.{given};

use crate::case::Case;
use grammar::words::{find_binary, find_unary};

// A case, and what another arithmetic gave for it.
#[derive(Clone, Copy)]
pub struct Vector {
    case: Case,
    expected: u64,
}

impl Vector {
    // The words of a line are the operation, its operands and what is expected, and no more.
    pub fn read(line: &str) -> Option<Vector> {
        let mut words = line.split(' ');
        let name = words.next()?;
        let case = if let Some(op) = find_unary(name.as_bytes()) {
            Case::One(op, number(words.next()?)?)
        } else if let Some(op) = find_binary(name.as_bytes()) {
            Case::Two(op, number(words.next()?)?, number(words.next()?)?)
        } else if name == "empty" {
            Case::Empty(find_binary(words.next()?.as_bytes())?)
        } else {
            other_named(name, number(words.next()?)?)?
        };
        let expected = number(words.next()?)?;
        words.next().is_none().then_some(Vector { case, expected })
    }

    pub fn holds(&self) -> bool {
        run(self.case) == self.expected
    }
}

fn run(case: Case) -> u64
    ensures { result ≡ given case }
{
    match case {
        Case::One(op, a) => numbers::unary(op, a),
        Case::Two(op, a, b) => numbers::binary(op, a, b),
        Case::Truth(a) => u64::from(numbers::truth(a)),
        Case::Index(a) => numbers::index(a),
        Case::Whole(n) => numbers::of_whole(n),
        Case::Canonical(a) => numbers::canonical(a),
        Case::Empty(op) => numbers::empty_fold(op),
    }
}

fn number(word: &str) -> Option<u64> {
    u64::from_str_radix(word, 16).ok()
}

fn other_named(name: &str, a: u64) -> Option<Case> {
    match name {
        "truth" => Some(Case::Truth(a)),
        "index" => Some(Case::Index(a)),
        "whole" => Some(Case::Whole(a)),
        "canonical" => Some(Case::Canonical(a)),
        _ => None,
    }
}
