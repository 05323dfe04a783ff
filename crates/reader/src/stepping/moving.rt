// One byte after the other, on the machine.
ghost use Rattle.std.specs.Prelude.{◌≡◌, ℕ, ◌+◌, ◌<◌, ◌≤◌, true, List, [], ◌∷◌, ◌++◌, length, take, slice_set, OnSome};
ghost use Rattle.semantics.specs.Shapes.{pick};
ghost use Rattle.reader.specs.Names.{part};
ghost use Rattle.reader.specs.Turning.{word_from};
ghost use Rattle.reader.specs.Machines.{Good, Hinted, Standing, Settles, Turns, Advances};

use crate::endings::{end_symbol, goes_on};
use crate::machine::Machine;
use crate::names::{Span, part_of};
use crate::stepping::known::{end_known, sum_of};
use crate::stepping::skimming::{begin_again, begin_mark, take_plain};
use crate::stepping::{Advance, Said};
use crate::turn::Mark;
use crate::turns::turn_symbol;

// Adds a name where it is new; answers how many there are now.
fn add_name(names: &mut [Span], count: usize, new: bool, span: Span) -> usize
    requires few { count ≤ length names.old }
    requires room { new ≡ true → count < length names.old }
    ensures { (take result names.new ≡ pick new (take count names.old ++ span ∷ []) (take count names.old)) × (result ≤ length names.new) }
{
    if !new {
        return count;
    }
    names[count] = span;
    count + 1
}

// Where the word so far begins, with `next` bytes read: where it began, or here.
fn word_start(word: Option<usize>, next: usize) -> usize
    ensures is { (t : List ℕ) → part t result next ≡ word_from t next word }
    ensures begun { result ≤ next }
{
    let Some(from) = word else {
        return next;
    };
    if from > next {
        return next;
    }
    from
}

// Keeps the hint to a new name.
fn note_name(hints: &mut [u8], at: usize, new: bool, name: usize)
    requires there { at < length hints.old }
    requires few { name ≤ 64 }
    ensures { hints.new ≡ pick new (slice_set hints.old at name) hints.old }
{
    if !new {
        return;
    }
    hints[at] = name as u8;
}

// A word or number on top ends where byte `b` does not belong to it; none where it cannot end so.
pub fn settle_top(machine: &mut Machine, text: &[u8], i: usize, b: u8) -> Option<Said>
    requires good { Good i 16 machine.old }
    ensures settles { Settles text.now i b machine.old machine.new result }
    ensures kept { Hinted text.now i machine.old → OnSome result (Hinted text.now i machine.new) }
{
    let symbol = machine.top_symbol()?;
    if goes_on(symbol, b) {
        return Some(Said { step: None });
    }
    let count = machine.count;
    let from = machine.word;
    let word = part_of(text, from, i);
    // Stays: ? copies the ending once more, and a text of 58,000 bytes takes 3.7 ms with it, 3.5 without.
    let Some(ending) = end_symbol(text, &machine.names[..count], symbol, word, machine.value) else {
        return None;
    };
    machine.count = add_name(
        &mut machine.names,
        count,
        ending.named,
        Span { from, to: i },
    );
    note_name(&mut machine.hints, sum_of(word), ending.named, count);
    machine.replace_top(ending.pushes.as_slice(), i);
    Some(Said { step: ending.step })
}

// The byte at `i` is read by the topmost symbol; none where it cannot be.
fn turn_top(machine: &mut Machine, text: &[u8], i: usize) -> Option<Advance>
    requires inside { i < length text.now }
    requires good { Good i 8 machine.old }
    ensures turns { Turns text.now i machine.old machine.new result }
    ensures kept { Hinted text.now i machine.old → OnSome result (Hinted text.now (i + 1) machine.new) }
{
    let symbol = machine.top_symbol()?;
    let count = machine.count;
    // Stays: the same of a turn.
    let Some(turn) = turn_symbol(
        text,
        &machine.names[..count],
        symbol,
        machine.word,
        i,
        machine.value,
    ) else {
        return None;
    };
    machine.replace_top(turn.pushes.as_slice(), word_start(turn.word, i + 1));
    machine.value = turn.value;
    Some(Advance {
        before: None,
        step: turn.step,
        mark: turn.mark,
    })
}

// Reads the byte at `i`: a word or number that ends before it, then the byte. None where no program goes on so.
pub fn advance(machine: &mut Machine, text: &[u8], i: usize) -> Option<Advance>
    requires inside { i < length text.now }
    requires good { Good i 16 machine.old }
    ensures advances { Advances text.now i machine.old machine.new result }
    ensures kept { Hinted text.now i machine.old → OnSome result (Hinted text.now (i + 1) machine.new) }
{
    let before = settle_top(machine, text, i, text[i])?;
    let turned = turn_top(machine, text, i)?;
    Some(Advance {
        before: before.step,
        step: turned.step,
        mark: turned.mark,
    })
}

// The same, the common ways first.
pub fn advance_quick(machine: &mut Machine, text: &[u8], i: usize) -> Option<Advance>
    requires inside { i < length text.now }
    requires standing { Standing text.now i machine.old }
    ensures advances { Advances text.now i machine.old machine.new result }
    ensures kept { OnSome result (Hinted text.now (i + 1) machine.new) }
{
    if begin_mark(machine, text, i) {
        return Some(Advance {
            before: None,
            step: None,
            mark: Mark::Begins,
        });
    }
    let Some(before) = end_known(machine, text, i, text[i]) else {
        if begin_again(machine, text, i) {
            return Some(Advance {
                before: None,
                step: None,
                mark: Mark::Opens,
            });
        }
        return advance(machine, text, i);
    };
    if take_plain(machine, text, i) {
        return Some(Advance {
            before: before.step,
            step: None,
            mark: Mark::Inside,
        });
    }
    let turned = turn_top(machine, text, i)?;
    Some(Advance {
        before: before.step,
        step: turned.step,
        mark: turned.mark,
    })
}
