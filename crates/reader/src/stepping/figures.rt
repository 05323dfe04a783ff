// Digits that say no step yet, read in place.
ghost use Rattle.reader.specs.declared.turn.Mark.{Mark};
ghost use Rattle.reader.specs.Machines.{Reading, ReadsOn};

use crate::machine::Machine;
use crate::turns::hex_value;
use grammar::letters::{is_digit, is_hex};
use grammar::symbol::Symbol;

// A digit of a constant, not the last one.
fn take_hex(machine: &mut Machine, text: &[u8], i: usize) -> bool
    requires { Reading text.now i machine.old }
    ensures { ReadsOn text.now i machine.old machine.new Mark.Inside result }
{
    let Some(Symbol::Hex(left)) = machine.top_symbol() else {
        return false;
    };
    if left < 2 {
        return false;
    }
    let b = text[i];
    if !is_hex(b) {
        return false;
    }
    let more = machine.value * 16 + hex_value(b);
    machine.replace_top(&[Symbol::Hex(left - 1)], i + 1);
    machine.value = more;
    true
}

// A further digit of a number.
fn take_digit(machine: &mut Machine, text: &[u8], i: usize) -> bool
    requires { Reading text.now i machine.old }
    ensures { ReadsOn text.now i machine.old machine.new Mark.Inside result }
{
    let Some(Symbol::Digits(_)) = machine.top_symbol() else {
        return false;
    };
    let b = text[i];
    if !is_digit(b) {
        return false;
    }
    let value = machine.value;
    if value < 1 {
        return false;
    }
    let more = value * 10 + (b - b'0') as u64;
    if more >= 4_294_967_296 {
        return false;
    }
    machine.value = more;
    machine.word = i + 1;
    machine.clean = false;
    true
}

// The first digit of a number that is no item.
fn take_first(machine: &mut Machine, text: &[u8], i: usize) -> bool
    requires { Reading text.now i machine.old }
    ensures { ReadsOn text.now i machine.old machine.new Mark.Inside result }
{
    let Some(Symbol::Number(number)) = machine.top_symbol() else {
        return false;
    };
    let b = text[i];
    if !is_digit(b) {
        return false;
    }
    machine.replace_top(&[Symbol::Digits(number)], i + 1);
    machine.value = (b - b'0') as u64;
    true
}

// Any of them.
pub fn take_figure(machine: &mut Machine, text: &[u8], i: usize) -> bool
    requires { Reading text.now i machine.old }
    ensures { ReadsOn text.now i machine.old machine.new Mark.Inside result }
{
    if take_hex(machine, text, i) {
        return true;
    }
    if take_digit(machine, text, i) {
        return true;
    }
    take_first(machine, text, i)
}
