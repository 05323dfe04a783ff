// What becomes of the topmost symbol with a byte.
ghost use Rattle.std.specs.Prelude.{◌≡◌, ℕ, ◌+◌, ◌-◌, ◌*◌, ◌<◌, ◌≤◌, true, false, List, [], ◌∷◌, length, codes, slice_index};
ghost use Rattle.std.specs.Option.{option_to_list};
ghost use Rattle.grammar.specs.declared.symbol.Symbol.{Symbol};
ghost use Rattle.grammar.specs.declared.symbol.Number.{Number};
ghost use Rattle.grammar.specs.Words.{Word, is_digit};
ghost use Rattle.grammar.specs.Moves.{spelled, Move, move, when, push, is_hex, hex_of, line_move, operands_move, moves};
ghost use Rattle.reader.specs.Names.{part, spellings};
ghost use Rattle.reader.specs.Pushed.{symbols_of};
ghost use Rattle.reader.specs.Turning.{flag_of, move_or, move_of, Fit};

use crate::follows::item_number;
use crate::names::{Span, is_viable, is_viable_name, part_of};
use crate::pushes::Pushes;
use crate::pushes::making::{first_eight, how_many, pushes};
use crate::turn::{Mark, Turn};
use grammar::letters::{is_digit, is_hex};
use grammar::symbol::{Bracket, Number, Symbol, Target};
use grammar::words::begins_binary;
use numbers::canonical;
use program::step::Step;

// Symbols are pushed where the byte is the right one.
fn push_when(ok: bool, pushes: Pushes) -> Option<Turn>
    ensures { (t : List ℕ) (e : ℕ) → move_of t e result ≡ when ok (push (symbols_of pushes)) }
{
    if !ok {
        return None;
    }
    Some(Turn {
        mark: Mark::Inside,
        step: None,
        pushes,
        word: None,
        value: 0,
    })
}

// A statement begins.
fn begin_line(mark: Mark, step: Option<Step>, pushes: Pushes) -> Option<Turn>
    ensures { (t : List ℕ) (e : ℕ) (other : Move) → move_or t e other result ≡ move (flag_of mark) (option_to_list step) (symbols_of pushes) [] 0 }
{
    Some(Turn {
        mark,
        step,
        pushes,
        word: None,
        value: 0,
    })
}

// Behind the first byte of `let` or `put`.
pub fn target_line(second: u8, target: Target, here: Symbol) -> Pushes
    ensures { symbols_of result ≡ Symbol.Byte second ∷ Symbol.Byte 116 ∷ Symbol.Byte 32 ∷ Symbol.Target target ∷ Symbol.Byte 10 ∷ here ∷ [] }
{
    pushes![
        Symbol::Byte(second),
        Symbol::Byte(b't'),
        Symbol::Byte(b' '),
        Symbol::Target(target),
        Symbol::Byte(b'\n'),
        here,
    ]
}

// Behind the first byte of `show`.
fn show_line(here: Symbol) -> Pushes
    ensures { symbols_of result ≡ spelled (codes "how ") (Symbol.Expr ∷ Symbol.Byte 10 ∷ here ∷ []) }
{
    pushes![
        Symbol::Byte(b'h'),
        Symbol::Byte(b'o'),
        Symbol::Byte(b'w'),
        Symbol::Byte(b' '),
        Symbol::Expr,
        Symbol::Byte(b'\n'),
        here,
    ]
}

// Behind the first byte of `again`.
pub fn again_line(here: Symbol) -> Pushes
    ensures { symbols_of result ≡ spelled (codes "gain ") (Symbol.Number Number.Again ∷ Symbol.Byte 10 ∷ here ∷ []) }
{
    pushes![
        Symbol::Byte(b'g'),
        Symbol::Byte(b'a'),
        Symbol::Byte(b'i'),
        Symbol::Byte(b'n'),
        Symbol::Byte(b' '),
        Symbol::Number(Number::Again),
        Symbol::Byte(b'\n'),
        here,
    ]
}

// The first byte of a statement.
// Stays: each arm returns its turn, which is so written in place; as the value of the match it is put together from its
// parts once more, and a text of many short lines takes up to an eighth more instructions.
fn line_turn(here: Symbol, b: u8) -> Option<Turn>
    ensures { (t : List ℕ) (e : ℕ) (other : Move) → move_or t e other result ≡ line_move here other b }
{
    match b {
        b'l' => return begin_line(Mark::Begins, None, target_line(b'e', Target::Let, here)),
        b'p' => return begin_line(Mark::Begins, None, target_line(b'u', Target::Put, here)),
        b's' => return begin_line(Mark::Begins, Some(Step::Show), show_line(here)),
        b'a' => return begin_line(Mark::Opens, None, again_line(here)),
        _ => return None,
    }
}

// The first byte of a statement in an `again`, or of its end.
fn body_turn(b: u8) -> Option<Turn>
    ensures { (t : List ℕ) (e : ℕ) (ns : List Word) (w : Word) (v : ℕ) → move_of t e result ≡ moves ns Symbol.Body w v b }
{
    match b {
        b'e' => Some(Turn {
            mark: Mark::Closes,
            step: Some(Step::End),
            pushes: pushes![Symbol::Byte(b'n'), Symbol::Byte(b'd')],
            word: None,
            value: 0,
        }),
        _ => line_turn(Symbol::Body, b),
    }
}

// The first digit of a number.
fn digit_turn(mark: Mark, pushes: Pushes, b: u8) -> Option<Turn>
    ensures { (t : List ℕ) (e : ℕ) → move_of t e result ≡ when (is_digit b) (move (flag_of mark) [] (symbols_of pushes) [] (b - 48)) }
{
    if !is_digit(b) {
        return None;
    }
    Some(Turn {
        mark,
        step: None,
        pushes,
        word: None,
        value: (b - b'0') as u64,
    })
}

// A further digit: none behind a leading 0, and none that makes the number 2^32 or more.
fn digits_turn(number: Number, value: u64, b: u8) -> Option<Turn>
    requires fit { Fit (Symbol.Digits number) value }
    ensures { (t : List ℕ) (e : ℕ) (ns : List Word) (w : Word) → move_of t e result ≡ moves ns (Symbol.Digits number) w value b }
{
    if !is_digit(b) {
        return None;
    }
    if value < 1 {
        return None;
    }
    let more = value * 10 + (b - b'0') as u64;
    if more >= 4_294_967_296 {
        return None;
    }
    Some(Turn {
        mark: Mark::Inside,
        step: None,
        pushes: pushes![Symbol::Digits(number)],
        word: None,
        value: more,
    })
}

// The value of a hexadecimal digit.
pub fn hex_value(b: u8) -> u64
    requires is { is_hex b ≡ true }
    ensures { (result ≡ hex_of b) × (result < 16) }
{
    if b < b'a' {
        (b - b'0') as u64
    } else {
        (b - 87) as u64
    }
}

// A hexadecimal digit of a constant, of which so many are still to come.
fn hex_turn(left: u8, value: u64, b: u8) -> Option<Turn>
    requires fit { Fit (Symbol.Hex left) value }
    ensures { (t : List ℕ) (e : ℕ) (ns : List Word) (w : Word) → move_of t e result ≡ moves ns (Symbol.Hex left) w value b }
{
    if !is_hex(b) {
        return None;
    }
    if left == 0 {
        return None;
    }
    let more = value * 16 + hex_value(b);
    if left == 1 {
        return Some(Turn {
            mark: Mark::Inside,
            step: Some(Step::Constant(canonical(more))),
            pushes: pushes![],
            word: None,
            value: 0,
        });
    }
    Some(Turn {
        mark: Mark::Inside,
        step: None,
        pushes: pushes![Symbol::Hex(left - 1)],
        word: None,
        value: more,
    })
}

// Behind an operand.
fn operands_turn(more: u8, b: u8) -> Option<Turn>
    ensures { (t : List ℕ) (e : ℕ) → move_of t e result ≡ operands_move more b }
{
    if more == 0 {
        return push_when(b == b')', pushes![]);
    }
    push_when(
        b == b',',
        pushes![Symbol::Byte(b' '), Symbol::Expr, Symbol::Operands(more - 1)],
    )
}

// Behind `[`.
fn first_turn(kind: Bracket, b: u8) -> Option<Turn>
    ensures { (t : List ℕ) (e : ℕ) (ns : List Word) (w : Word) (v : ℕ) → move_of t e result ≡ moves ns (Symbol.First kind) w v b }
{
    if b == b']' {
        return push_when(true, pushes![]);
    }
    digit_turn(
        Mark::Begins,
        pushes![Symbol::Digits(item_number(kind)), Symbol::More(kind)],
        b,
    )
}

// Behind an item.
fn more_turn(kind: Bracket, b: u8) -> Option<Turn>
    ensures { (t : List ℕ) (e : ℕ) (ns : List Word) (w : Word) (v : ℕ) → move_of t e result ≡ moves ns (Symbol.More kind) w v b }
{
    if b == b']' {
        return push_when(true, pushes![]);
    }
    push_when(
        b == b',',
        pushes![Symbol::Byte(b' '), Symbol::Item(kind), Symbol::More(kind)],
    )
}

// The step of a part, perhaps backward.
fn step_turn(from: u32, b: u8) -> Option<Turn>
    ensures { (t : List ℕ) (e : ℕ) (ns : List Word) (w : Word) (v : ℕ) → move_of t e result ≡ moves ns (Symbol.Step from) w v b }
{
    if b == b'-' {
        return push_when(true, pushes![Symbol::Number(Number::Step(from, true))]);
    }
    digit_turn(
        Mark::Inside,
        pushes![Symbol::Digits(Number::Step(from, false))],
        b,
    )
}

// A word goes on, or begins, where it may still become one that may stand here.
fn word_turn(ok: bool, mark: Mark, symbol: Symbol, from: usize) -> Option<Turn>
    ensures { (t : List ℕ) (e : ℕ) → move_of t e result ≡ when ok (move (flag_of mark) [] (symbol ∷ []) (part t from e) 0) }
{
    if !ok {
        return None;
    }
    Some(Turn {
        mark,
        step: None,
        pushes: pushes![symbol],
        word: Some(from),
        value: 0,
    })
}

// The first byte of an expression, at `at`.
fn expr_turn(text: &[u8], names: &[Span], at: usize) -> Option<Turn>
    requires inside { at < length text.now }
    ensures { (w : Word) (v : ℕ) → move_of text.now (at + 1) result ≡ moves (spellings text.now names.now) Symbol.Expr w v (slice_index text.now at) }
{
    if text[at] == b'#' {
        return Some(Turn {
            mark: Mark::Begins,
            step: None,
            pushes: pushes![Symbol::Hex(16)],
            word: None,
            value: 0,
        });
    }
    let word = part_of(text, at, at + 1);
    let ok = is_viable(text, names, word);
    word_turn(ok, Mark::Begins, Symbol::Word, at)
}

// What becomes of the symbol with the byte at `at`, where its word began at `from`; none where it cannot be read.
// Not inlined, as endings are not.
#[inline(never)]
pub fn turn_symbol(
    text: &[u8],
    names: &[Span],
    symbol: Symbol,
    from: usize,
    at: usize,
    value: u64,
) -> Option<Turn>
    requires inside { at < length text.now }
    requires begun { from ≤ at }
    requires fit { Fit symbol value }
    ensures { move_of text.now (at + 1) result ≡ moves (spellings text.now names.now) symbol (part text.now from at) value (slice_index text.now at) }
{
    let b = text[at];
    let word = part_of(text, from, at + 1);
    match symbol {
        Symbol::Lines => line_turn(Symbol::Lines, b),
        Symbol::Body => body_turn(b),
        Symbol::Byte(c) => push_when(b == c, pushes![]),
        Symbol::Target(_) => word_turn(
            is_viable_name(text, names, word),
            Mark::Inside,
            symbol,
            from,
        ),
        Symbol::Expr => expr_turn(text, names, at),
        Symbol::Word => word_turn(is_viable(text, names, word), Mark::Inside, symbol, from),
        Symbol::Binary(_) => word_turn(begins_binary(word), Mark::Inside, symbol, from),
        Symbol::Number(number) => digit_turn(Mark::Inside, pushes![Symbol::Digits(number)], b),
        Symbol::Digits(number) => digits_turn(number, value, b),
        Symbol::Hex(left) => hex_turn(left, value, b),
        Symbol::Operands(more) => operands_turn(more, b),
        Symbol::First(kind) => first_turn(kind, b),
        Symbol::More(kind) => more_turn(kind, b),
        Symbol::Item(kind) => digit_turn(
            Mark::Begins,
            pushes![Symbol::Digits(item_number(kind))],
            b,
        ),
        Symbol::Step(start) => step_turn(start, b),
    }
}
