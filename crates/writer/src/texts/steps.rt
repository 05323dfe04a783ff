// The texts of steps.
ghost use Rattle.std.specs.Prelude.{◌≡◌, ◌+◌, ◌^◌, ◌<◌, ◌≤◌, [], ◌++◌, length, codes, decimal, slice_index_or};
ghost use Rattle.semantics.specs.Shapes.{pick};
ghost use Rattle.grammar.specs.Words.{binary_word};
ghost use Rattle.writer.specs.Overlay.{Laid};
ghost use Rattle.writer.specs.Spellings.{spellings};
ghost use Rattle.writer.specs.StepTexts.{step_text, wants, closer, listed};

use crate::digits::hex_digits;
use crate::texts::room::{put_bytes, put_name, put_number};
use grammar::words::{binary_word, unary_word};
use program::step::Step;
use semantics::operation::Binary;
use semantics::slice::Slice;

// What stands before the step of a slice: a minus where it goes backward.
fn sign_before(backward: bool) -> &'static [u8]
    ensures { result.now ≡ codes ":" ++ pick backward (codes "-") [] }
{
    if backward { b":-" } else { b":" }
}

fn put_both(room: &mut [u8], at: usize, before: &[u8], text: &[u8]) -> usize
    requires fits { at + length before.now + length text.now < 2 ^ 64 }
    ensures { Laid room.old at (before.now ++ text.now) room.new result }
{
    let start = put_bytes(room, at, before);
    put_bytes(room, start, text)
}

fn put_numbered(room: &mut [u8], at: usize, before: &[u8], n: u32, after: &[u8]) -> usize
    requires fits { at + length before.now + length after.now + 10 < 2 ^ 64 }
    ensures laid { Laid room.old at (before.now ++ decimal n ++ after.now) room.new result }
    ensures short { result ≤ at + length before.now + length after.now + 10 }
{
    let start = put_bytes(room, at, before);
    let behind = put_number(room, start, n);
    put_bytes(room, behind, after)
}

fn put_named(room: &mut [u8], at: usize, before: &[u8], k: u32, after: &[u8]) -> usize
    requires fits { at + length before.now + length after.now + 2 < 2 ^ 64 }
    ensures laid { Laid room.old at (before.now ++ slice_index_or spellings k [] ++ after.now) room.new result }
    ensures short { result ≤ at + length before.now + length after.now + 2 }
{
    let start = put_bytes(room, at, before);
    let behind = put_name(room, start, k);
    put_bytes(room, behind, after)
}

// An operation on two numbers, and the axis along which it goes.
fn put_along(room: &mut [u8], at: usize, before: &[u8], k: Binary, axis: u32) -> usize
    requires fits { at + length before.now + 20 < 2 ^ 64 }
    ensures laid { Laid room.old at (before.now ++ binary_word k ++ (codes " " ++ decimal axis ++ codes "(")) room.new result }
    ensures short { result ≤ at + length before.now + 20 }
{
    let word = put_both(room, at, before, binary_word(k));
    put_numbered(room, word, b" ", axis, b"(")
}

fn put_slice(room: &mut [u8], at: usize, slice: Slice) -> usize
    requires fits { at + 40 < 2 ^ 64 }
    ensures laid { Laid room.old at (decimal slice.from ++ (codes ":" ++ pick slice.backward (codes "-") []) ++ (decimal slice.step ++ (codes ":" ++ decimal slice.many ++ []))) room.new result }
    ensures short { result ≤ at + 40 }
{
    let sign = put_number(room, at, slice.from);
    let step = put_bytes(room, sign, sign_before(slice.backward));
    let colon = put_number(room, step, slice.step);
    put_numbered(room, colon, b":", slice.many, b"")
}

pub(crate) fn put_step(room: &mut [u8], at: usize, step: Step) -> usize
    requires fits { at + 48 < 2 ^ 64 }
    ensures laid { Laid room.old at (step_text step) room.new result }
    ensures short { result ≤ at + 48 }
{
    match step {
        Step::End => put_bytes(room, at, b"end\n"),
        Step::Let(k) => put_named(room, at, b"let ", k, b" = "),
        Step::Put(k) => put_named(room, at, b"put ", k, b" ["),
        Step::Show => put_bytes(room, at, b"show "),
        Step::Again(n) => put_numbered(room, at, b"again ", n, b"\n"),
        Step::Name(k) => put_name(room, at, k),
        Step::Input(k) => put_numbered(room, at, b"in ", k, b""),
        Step::Constant(x) => put_both(room, at, b"#", &hex_digits(x)),
        Step::Count(m) => put_numbered(room, at, b"count ", m, b""),
        Step::Each(k) => put_both(room, at, unary_word(k), b"("),
        Step::Both(k) => put_both(room, at, binary_word(k), b"("),
        Step::Choose => put_bytes(room, at, b"choose("),
        Step::Fold(k, x) => put_along(room, at, b"fold ", k, x),
        Step::Scan(k, x) => put_along(room, at, b"scan ", k, x),
        Step::Shape => put_bytes(room, at, b"shape ["),
        Step::Turn => put_bytes(room, at, b"turn ["),
        Step::Part => put_bytes(room, at, b"part ["),
        Step::Join(x) => put_numbered(room, at, b"join ", x, b"("),
        Step::Rows => put_bytes(room, at, b"rows("),
        Step::Item(k) => put_number(room, at, k),
        Step::Slice(slice) => put_slice(room, at, slice),
    }
}

// How many expressions come behind a step and its brackets.
pub(crate) fn count_wanted(step: Step) -> usize
    ensures { result ≡ wants step }
{
    match step {
        Step::Let(_) | Step::Put(_) | Step::Show => 1,
        Step::Each(_) | Step::Fold(_, _) | Step::Scan(_, _) => 1,
        Step::Shape | Step::Turn | Step::Part => 1,
        Step::Both(_) | Step::Join(_) | Step::Rows => 2,
        Step::Choose => 3,
        Step::End | Step::Again(_) | Step::Item(_) | Step::Slice(_) => 0,
        Step::Name(_) | Step::Input(_) | Step::Constant(_) | Step::Count(_) => 0,
    }
}

// What closes the brackets of a step, and nothing where it has none.
pub(crate) fn find_closer(step: Step) -> &'static [u8]
    ensures { result.now ≡ closer step }
{
    match step {
        Step::Put(_) => b"] = ",
        Step::Shape | Step::Turn | Step::Part => b"](",
        _ => b"",
    }
}

// Whether a step stands between brackets.
pub(crate) fn is_listed(step: Step) -> bool
    ensures { result ≡ listed step }
{
    matches!(step, Step::Item(_) | Step::Slice(_))
}
