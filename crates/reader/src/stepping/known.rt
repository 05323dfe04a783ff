// Words that end in the common ways: a name that has come, and the head of an operation on whole operands.
ghost use Rattle.std.specs.Prelude.{◌≡◌, ◌<◌, take};
ghost use Rattle.reader.specs.Names.{part, spellings, Known};
ghost use Rattle.reader.specs.Machines.{Standing, EndsNow};

use crate::follows::{head_step, more_operands, target_rest};
use crate::machine::Machine;
use crate::names::part_of;
use crate::stepping::Said;
use grammar::letters::in_word;
use grammar::symbol::{Symbol, Target};
use grammar::words::{find_head, same_word};
use program::step::Step;

// A sum of the word, by which the machine keeps its hints: few words have the same.
pub fn sum_of(word: &[u8]) -> usize
    ensures { result < 256 }
{
    let len = word.len();
    if len == 0 {
        return 0;
    }
    (word[0] as usize * 37 + word[len - 1] as usize * 5 + len % 16) % 256
}

// Which name the word so far is, where the hint is right.
fn known_name(machine: &Machine, text: &[u8], i: usize) -> Option<usize>
    requires { Standing text.now i machine.now }
    ensures { Known (spellings text.now (take machine.now.count machine.now.names)) (part text.now machine.now.word i) result }
{
    let word = part_of(text, machine.word, i);
    let k = machine.hints[sum_of(word)] as usize;
    if k >= machine.count {
        return None;
    }
    if !same_word(word, machine.names[k].of(text)) {
        return None;
    }
    Some(k)
}

// A name in an expression.
fn end_name(machine: &mut Machine, text: &[u8], i: usize, b: u8) -> Option<Said>
    requires { Standing text.now i machine.old }
    ensures { EndsNow text.now i b machine.old machine.new result }
{
    let Some(Symbol::Word) = machine.top_symbol() else {
        return None;
    };
    if in_word(b) {
        return None;
    }
    let k = known_name(machine, text, i)?;
    machine.replace_top(&[], i);
    Some(Said {
        step: Some(Step::Name(k as u32)),
    })
}

// The head of an operation, of which only operands follow.
fn end_head(machine: &mut Machine, text: &[u8], i: usize, b: u8) -> Option<Said>
    requires { Standing text.now i machine.old }
    ensures { EndsNow text.now i b machine.old machine.new result }
{
    let Some(Symbol::Word) = machine.top_symbol() else {
        return None;
    };
    if in_word(b) {
        return None;
    }
    let head = find_head(part_of(text, machine.word, i))?;
    let more = more_operands(head)?;
    machine.replace_top(
        &[Symbol::Byte(b'('), Symbol::Expr, Symbol::Operands(more)],
        i,
    );
    Some(Said {
        step: head_step(head),
    })
}

// A name behind `let`.
fn end_let(machine: &mut Machine, text: &[u8], i: usize, b: u8) -> Option<Said>
    requires { Standing text.now i machine.old }
    ensures { EndsNow text.now i b machine.old machine.new result }
{
    let Some(Symbol::Target(Target::Let)) = machine.top_symbol() else {
        return None;
    };
    if in_word(b) {
        return None;
    }
    let k = known_name(machine, text, i)?;
    machine.replace_top(target_rest(Target::Let).as_slice(), i);
    Some(Said {
        step: Some(Step::Let(k as u32)),
    })
}

// Ends the word on top before byte `b`, where it ends in one of these ways.
pub fn end_known(machine: &mut Machine, text: &[u8], i: usize, b: u8) -> Option<Said>
    requires { Standing text.now i machine.old }
    ensures { EndsNow text.now i b machine.old machine.new result }
{
    if let Some(said) = end_name(machine, text, i, b) {
        return Some(said);
    }
    if let Some(said) = end_head(machine, text, i, b) {
        return Some(said);
    }
    end_let(machine, text, i, b)
}
