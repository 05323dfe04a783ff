// One pass over a text that writes only its own steps and places.
ghost use Rattle.std.specs.Prelude.{◌≡◌, ℕ, ◌+◌, ◌<◌, ◌≤◌, true, List, [], ◌++◌, length, take, drop};
ghost use Rattle.std.specs.Option.{option_to_list};
ghost use Rattle.grammar.specs.Letters.{tally_flag};
ghost use Rattle.grammar.specs.Automaton.{start, is_lines};
ghost use Rattle.reader.specs.Turning.{flag_of};
ghost use Rattle.reader.specs.Machines.{state_of, Good, Hinted};
ghost use Rattle.reader.specs.Judging.{tally_of, is_newline, only_lines, line_ends, place_of, ReadsText};

use crate::judging::{Count, Flaw};
use crate::machine::{DEPTH, Machine};
use crate::names::Span;
use crate::stepping::moving::{advance_quick, settle_top};
use crate::stepping::skimming::skim;
use crate::turn::Mark;
use grammar::symbol::Symbol;
use program::step::Step;

const MOST_BYTES: usize = 131_072;

const MOST_MARKS: usize = 2048;

const MOST_LEVELS: usize = 8;

// Before the first byte.
fn fresh_machine() -> Machine
    ensures good { Good 0 16 result }
    ensures is { (t : List ℕ) → state_of t 0 result [] ≡ start }
    ensures hinted { (t : List ℕ) → Hinted t 0 result }
{
    Machine {
        stack: [Symbol::Lines; 2112],
        top: 2111,
        names: [Span { from: 0, to: 0 }; 64],
        count: 0,
        word: 0,
        value: 0,
        hints: [0; 256],
        clean: false,
    }
}

fn count_mark(count: Count, mark: Mark) -> Count
    requires few { count.marks ≤ 2048 }
    requires low { count.level ≤ 8 }
    ensures { tally_of result ≡ tally_flag (flag_of mark) (tally_of count) }
{
    match mark {
        Mark::Inside => count,
        Mark::Begins => Count {
            marks: count.marks + 1,
            level: count.level,
        },
        Mark::Opens => Count {
            marks: count.marks + 1,
            level: count.level + 1,
        },
        Mark::Closes => Count {
            marks: count.marks + 1,
            level: count.level.saturating_sub(1),
        },
    }
}

// Stores a step behind those said so far; answers how many there are now.
fn store_step(steps: &mut [Step], said: usize, step: Option<Step>) -> usize
    requires room { said + length (option_to_list step) ≤ length steps.old }
    ensures is { take result steps.new ≡ take said steps.old ++ option_to_list step }
    ensures more { result ≡ said + length (option_to_list step) }
{
    let Some(it) = step else {
        return said;
    };
    steps[said] = it;
    said + 1
}

// Stores where a mark begins behind those so far.
fn store_place(places: &mut [u32], marks: usize, mark: Mark, i: u32)
    requires room { marks + length (place_of mark i) ≤ length places.old }
    ensures { take (marks + length (place_of mark i)) places.new ≡ take marks places.old ++ place_of mark i }
{
    if let Mark::Inside = mark {
        return;
    }
    places[marks] = i;
}

#[tactic(auto, unfolding(grammar::specs::Automaton::is_lines))]
fn is_lines(symbol: Symbol) -> bool
    ensures { result ≡ is_lines symbol }
{
    matches!(symbol, Symbol::Lines)
}

fn is_newline(symbol: Symbol) -> bool
    ensures { result ≡ is_newline symbol }
{
    matches!(symbol, Symbol::Byte(b'\n'))
}

// Whether the text is between lines, outside of every `again`.
fn at_lines(stack: &[Symbol], top: usize) -> bool
    ensures { result ≡ only_lines (drop top stack.now) }
{
    let len = stack.len();
    if top >= len {
        return false;
    }
    if len - top > 1 {
        return false;
    }
    is_lines(stack[top])
}

// Whether just the newline of a last line is still to come.
fn at_last_newline(stack: &[Symbol], top: usize) -> bool
    ensures { result ≡ line_ends (drop top stack.now) }
{
    if top >= stack.len() {
        return false;
    }
    if !is_newline(stack[top]) {
        return false;
    }
    at_lines(stack, top + 1)
}

// Reads a text: its steps and where their marks begin, in order, and how many they are; or why and where it is refused.
// A mark's place is stored where it begins and its step where that is said, mostly later, so the two are stored apart.
// Stays: in one array of pairs a place would stand beside a step that is not yet known.
pub fn read_text(text: &[u8], steps: &mut [Step], places: &mut [u32]) -> Result<usize, Flaw>
    requires steps_long { length steps.old ≡ 2048 }
    requires places_long { length places.old ≡ 2048 }
    ensures { ReadsText text.now steps.new places.new result }
{
    let mut machine = fresh_machine();
    let mut count = Count { marks: 0, level: 0 };
    let mut said = 0;
    // Stays: every way reads the text around its place, so places are counted, and not bytes.
    for i in 0..text.len() {
        if i == MOST_BYTES {
            return Err(Flaw::TooMuch(i));
        }
        if skim(&mut machine, text, i) {
            continue;
        }
        let Some(turn) = advance_quick(&mut machine, text, i) else {
            return Err(Flaw::NoProgram(i));
        };
        let counted = count_mark(count, turn.mark);
        if counted.marks > MOST_MARKS {
            return Err(Flaw::TooMuch(i));
        }
        if counted.level > MOST_LEVELS {
            return Err(Flaw::TooMuch(i));
        }
        said = store_step(steps, said, turn.before);
        said = store_step(steps, said, turn.step);
        store_place(places, count.marks, turn.mark, i as u32);
        count = counted;
    }
    let len = text.len();
    if at_lines(&machine.stack, machine.top) {
        return Ok(said);
    }
    let Some(last) = settle_top(&mut machine, text, len, b'\n') else {
        return Err(Flaw::NoProgram(len));
    };
    said = store_step(steps, said, last.step);
    if at_last_newline(&machine.stack, machine.top) {
        return Ok(said);
    }
    Err(Flaw::NoProgram(len))
}
