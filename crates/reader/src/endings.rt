// Words and numbers that end where a byte does not belong to them.
// What is not inlined writes its ending once; inlined, endings are copied from arm to arm, and reading is 10 % slower.
ghost use Rattle.std.specs.Prelude.{◌≡◌, ◌≤◌, List, [], length};
ghost use Rattle.grammar.specs.Words.{Word, find, head_word, heads, binary_word, binaries};
ghost use Rattle.grammar.specs.Moves.{belongs, name_ends, target_step, target_rest, word_ends, binary_ends, number_step, number_rest, ended, ends};
ghost use Rattle.program.specs.declared.step.Step.{Step};
ghost use Rattle.reader.specs.Names.{spellings};
ghost use Rattle.reader.specs.Turning.{ended_of, Fit};

use crate::follows::{head_rest, head_step, number_rest, number_step, target_rest, target_step};
use crate::names::{Span, name_of};
use crate::pushes::Pushes;
use crate::pushes::making::{first_eight, how_many, pushes};
use crate::turn::Ending;
use grammar::letters::{in_word, is_digit};
use grammar::symbol::{Along, Number, Symbol, Target};
use grammar::words::{find_binary, find_head};
use program::step::Step;

// Whether the byte belongs to the word or number on top; to any other symbol every byte does.
#[tactic(auto, unfolding(grammar::specs::Moves::belongs))]
pub fn goes_on(symbol: Symbol, b: u8) -> bool
    ensures { result ≡ belongs symbol b }
{
    match symbol {
        Symbol::Target(_) | Symbol::Word | Symbol::Binary(_) => in_word(b),
        Symbol::Digits(_) => is_digit(b),
        _ => true,
    }
}

#[inline(never)]
fn end_target(text: &[u8], names: &[Span], target: Target, word: &[u8]) -> Option<Ending>
    requires few { length names.now ≤ 64 }
    ensures { ended_of (spellings text.now names.now) word.now result ≡ name_ends (spellings text.now names.now) word.now (λ k. target_step target k) (target_rest target) }
{
    let naming = name_of(text, names, word)?;
    Some(Ending {
        step: Some(target_step(target, naming.place)),
        named: naming.new,
        pushes: target_rest(target),
    })
}

fn end_name(text: &[u8], names: &[Span], word: &[u8]) -> Option<Ending>
    requires few { length names.now ≤ 64 }
    ensures { ended_of (spellings text.now names.now) word.now result ≡ name_ends (spellings text.now names.now) word.now (λ k. Step.Name k) [] }
{
    let naming = name_of(text, names, word)?;
    Some(Ending {
        step: Some(Step::Name(naming.place)),
        named: naming.new,
        pushes: pushes![],
    })
}

#[inline(never)]
fn end_word(text: &[u8], names: &[Span], word: &[u8]) -> Option<Ending>
    requires few { length names.now ≤ 64 }
    ensures { ended_of (spellings text.now names.now) word.now result ≡ word_ends (spellings text.now names.now) word.now (find head_word heads word.now) }
{
    let Some(head) = find_head(word) else {
        return end_name(text, names, word);
    };
    Some(Ending {
        step: head_step(head),
        named: false,
        pushes: head_rest(head),
    })
}

fn end_binary(along: Along, word: &[u8]) -> Option<Ending>
    ensures { (ns : List Word) → ended_of ns word.now result ≡ binary_ends ns along (find binary_word binaries word.now) }
{
    let binary = find_binary(word)?;
    Some(Ending {
        step: None,
        named: false,
        pushes: pushes![
            Symbol::Byte(b' '),
            Symbol::Number(Number::Along(along, binary)),
        ],
    })
}

#[inline(never)]
fn end_number(number: Number, value: u32) -> Option<Ending>
    ensures { (ns : List Word) (w : Word) → ended_of ns w result ≡ ended ns (number_step number value) (number_rest number value) }
{
    Some(Ending {
        step: number_step(number, value),
        named: false,
        pushes: number_rest(number, value),
    })
}

// What takes the place of the symbol whose word or number ends; none where it cannot end so.
#[tactic(auto, unfolding(grammar::specs::Moves::ends))]
pub fn end_symbol(
    text: &[u8],
    names: &[Span],
    symbol: Symbol,
    word: &[u8],
    value: u64,
) -> Option<Ending>
    requires few { length names.now ≤ 64 }
    requires fit { Fit symbol value }
    ensures { ended_of (spellings text.now names.now) word.now result ≡ ends (spellings text.now names.now) symbol word.now value }
{
    match symbol {
        Symbol::Target(target) => end_target(text, names, target, word),
        Symbol::Word => end_word(text, names, word),
        Symbol::Binary(along) => end_binary(along, word),
        Symbol::Digits(number) => end_number(number, value as u32),
        _ => None,
    }
}
