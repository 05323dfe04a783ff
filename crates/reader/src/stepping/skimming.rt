// Bytes that say no step: the machine is changed in place, by what stands on top alone.
ghost use Rattle.std.specs.Prelude.{◌≡◌, ◌+◌, ◌<◌, true, slice_index};
ghost use Rattle.grammar.specs.Words.{in_word, shaped};
ghost use Rattle.reader.specs.declared.turn.Mark.{Mark};
ghost use Rattle.reader.specs.Names.{part};
ghost use Rattle.reader.specs.Machines.{Spells, BetweenLines, Reading, ReadsOn};

use crate::machine::Machine;
use crate::names::MOST_NAMES;
use crate::stepping::figures::take_figure;
use crate::turns::{again_line, target_line};
use grammar::letters::{in_word, is_letter};
use grammar::symbol::{Symbol, Target};

// Whether a statement may begin here.
fn is_between(symbol: Symbol) -> bool
    ensures { result ≡ true → BetweenLines symbol }
{
    matches!(symbol, Symbol::Lines | Symbol::Body)
}

// The byte that is expected.
fn take_byte(machine: &mut Machine, text: &[u8], i: usize) -> bool
    requires { Reading text.now i machine.old }
    ensures { ReadsOn text.now i machine.old machine.new Mark.Inside result }
{
    let Some(Symbol::Byte(c)) = machine.top_symbol() else {
        return false;
    };
    if text[i] != c {
        return false;
    }
    machine.replace_top(&[], i + 1);
    true
}

// Whether the word so far is shaped as a name with the byte at `i`, a letter or a digit. What was looked at before is not
// looked at again.
fn stays_shaped(machine: &Machine, text: &[u8], i: usize) -> bool
    requires reading { Reading text.now i machine.now }
    requires letter { in_word (slice_index text.now i) ≡ true }
    ensures { result ≡ true → shaped (part text.now machine.now.word (i + 1)) ≡ true }
{
    if machine.clean {
        return i - machine.word < 8;
    }
    if machine.word != i {
        return false;
    }
    is_letter(text[i])
}

// Whether the word so far goes on with the byte at `i`, and could be a new name: none is compared with it.
fn may_go_on(machine: &Machine, text: &[u8], i: usize) -> bool
    requires { Reading text.now i machine.now }
    ensures { result ≡ true → (in_word (slice_index text.now i) ≡ true) × (shaped (part text.now machine.now.word (i + 1)) ≡ true) × (machine.now.count < 64) }
{
    if machine.count >= MOST_NAMES {
        return false;
    }
    if !in_word(text[i]) {
        return false;
    }
    stays_shaped(machine, text, i)
}

// Whether a word is read.
fn is_spelling(symbol: Symbol) -> bool
    ensures { result ≡ true → Spells symbol }
{
    matches!(symbol, Symbol::Word | Symbol::Target(_))
}

// One more byte of a word in an expression, or of a name behind `let` or `put`.
fn go_on(machine: &mut Machine, text: &[u8], i: usize) -> bool
    requires { Reading text.now i machine.old }
    ensures { ReadsOn text.now i machine.old machine.new Mark.Inside result }
{
    let Some(symbol) = machine.top_symbol() else {
        return false;
    };
    if !is_spelling(symbol) {
        return false;
    }
    if !may_go_on(machine, text, i) {
        return false;
    }
    machine.value = 0;
    machine.clean = true;
    true
}

// What follows an operand: the closing parenthesis, or the comma before the next one.
fn take_operand(machine: &mut Machine, text: &[u8], i: usize) -> bool
    requires { Reading text.now i machine.old }
    ensures { ReadsOn text.now i machine.old machine.new Mark.Inside result }
{
    let Some(Symbol::Operands(more)) = machine.top_symbol() else {
        return false;
    };
    if more == 0 {
        if text[i] != b')' {
            return false;
        }
        machine.replace_top(&[], i + 1);
        return true;
    }
    if text[i] != b',' {
        return false;
    }
    machine.replace_top(
        &[Symbol::Byte(b' '), Symbol::Expr, Symbol::Operands(more - 1)],
        i + 1,
    );
    true
}

// The first letter of an expression that could be a new name: no word is compared with it.
fn begin_word(machine: &mut Machine, text: &[u8], i: usize) -> bool
    requires { Reading text.now i machine.old }
    ensures { ReadsOn text.now i machine.old machine.new Mark.Begins result }
{
    let Some(Symbol::Expr) = machine.top_symbol() else {
        return false;
    };
    if machine.count >= MOST_NAMES {
        return false;
    }
    if !is_letter(text[i]) {
        return false;
    }
    machine.replace_top(&[Symbol::Word], i);
    machine.clean = true;
    true
}

// The first byte of `let`.
fn begin_let(machine: &mut Machine, text: &[u8], i: usize) -> bool
    requires { Reading text.now i machine.old }
    ensures { ReadsOn text.now i machine.old machine.new Mark.Begins result }
{
    if text[i] != b'l' {
        return false;
    }
    let Some(symbol) = machine.top_symbol() else {
        return false;
    };
    if !is_between(symbol) {
        return false;
    }
    let line = target_line(b'e', Target::Let, symbol);
    machine.replace_top(line.as_slice(), i + 1);
    true
}

// The first byte of `again`.
// Not inlined, and tried where no word ends in a common way: inlined and tried before, it makes a text of `let` lines take
// 2 % more instructions.
#[inline(never)]
pub fn begin_again(machine: &mut Machine, text: &[u8], i: usize) -> bool
    requires { Reading text.now i machine.old }
    ensures { ReadsOn text.now i machine.old machine.new Mark.Opens result }
{
    if text[i] != b'a' {
        return false;
    }
    let Some(symbol) = machine.top_symbol() else {
        return false;
    };
    if !is_between(symbol) {
        return false;
    }
    let line = again_line(symbol);
    machine.replace_top(line.as_slice(), i + 1);
    true
}

// Reads the byte at `i` where it says no step and begins a mark, and is of the common kinds.
pub fn begin_mark(machine: &mut Machine, text: &[u8], i: usize) -> bool
    requires { Reading text.now i machine.old }
    ensures { ReadsOn text.now i machine.old machine.new Mark.Begins result }
{
    if begin_word(machine, text, i) {
        return true;
    }
    begin_let(machine, text, i)
}

// Reads the byte at `i` where it says no step and begins no mark, stands in no word, and is of the common kinds.
#[inline(always)]
pub fn take_plain(machine: &mut Machine, text: &[u8], i: usize) -> bool
    requires { Reading text.now i machine.old }
    ensures { ReadsOn text.now i machine.old machine.new Mark.Inside result }
{
    if take_byte(machine, text, i) {
        return true;
    }
    take_operand(machine, text, i)
}

// The same, or a byte of a word or number.
pub fn skim(machine: &mut Machine, text: &[u8], i: usize) -> bool
    requires { Reading text.now i machine.old }
    ensures { ReadsOn text.now i machine.old machine.new Mark.Inside result }
{
    if take_plain(machine, text, i) {
        return true;
    }
    if go_on(machine, text, i) {
        return true;
    }
    take_figure(machine, text, i)
}
