// What ends with a word or number: the step that it says, where it says one, and what follows it.
ghost use Rattle.std.specs.Prelude.{◌≡◌, [], ◌∷◌};
ghost use Rattle.std.specs.Option.{option_to_list};
ghost use Rattle.grammar.specs.declared.symbol.Symbol.{Symbol};
ghost use Rattle.grammar.specs.Moves.{operands, bracket, head_step, head_rest, target_step, target_rest, along_step, number_step, number_rest, item_number};
ghost use Rattle.reader.specs.Pushed.{symbols_of};
ghost use Rattle.reader.specs.Turning.{Opens};

use crate::pushes::Pushes;
use crate::pushes::making::{first_eight, how_many, pushes};
use grammar::symbol::{Along, Bracket, Head, Number, Symbol, Target};
use program::step::Step;
use semantics::operation::Binary;
use semantics::slice::Slice;

// Behind an operation: its operands, so many more than one.
fn open_operands(more: u8) -> Pushes
    ensures { symbols_of result ≡ operands more }
{
    pushes![Symbol::Byte(b'('), Symbol::Expr, Symbol::Operands(more)]
}

// A bracket, and then the one operand.
fn open_bracket(kind: Bracket) -> Pushes
    ensures { symbols_of result ≡ bracket kind (operands 0) }
{
    pushes![
        Symbol::Byte(b' '),
        Symbol::Byte(b'['),
        Symbol::First(kind),
        Symbol::Byte(b'('),
        Symbol::Expr,
        Symbol::Operands(0),
    ]
}

fn open_number(number: Number) -> Pushes
    ensures { symbols_of result ≡ Symbol.Byte 32 ∷ Symbol.Number number ∷ [] }
{
    pushes![Symbol::Byte(b' '), Symbol::Number(number)]
}

// The step that a head says by itself, where it says one.
#[tactic(auto, unfolding(grammar::specs::Moves::head_step))]
pub fn head_step(head: Head) -> Option<Step>
    ensures { option_to_list result ≡ head_step head }
{
    match head {
        Head::Each(k) => Some(Step::Each(k)),
        Head::Both(k) => Some(Step::Both(k)),
        Head::Choose => Some(Step::Choose),
        Head::Shape => Some(Step::Shape),
        Head::Turn => Some(Step::Turn),
        Head::Part => Some(Step::Part),
        Head::Rows => Some(Step::Rows),
        Head::In | Head::Count | Head::Fold | Head::Scan | Head::Join => None,
    }
}

#[tactic(auto, unfolding(grammar::specs::Moves::head_rest))]
pub fn head_rest(head: Head) -> Pushes
    ensures { symbols_of result ≡ head_rest head }
{
    match head {
        Head::In => open_number(Number::Input),
        Head::Count => open_number(Number::Count),
        Head::Join => open_number(Number::Join),
        Head::Each(_) => open_operands(0),
        Head::Both(_) | Head::Rows => open_operands(1),
        Head::Choose => open_operands(2),
        Head::Fold => pushes![Symbol::Byte(b' '), Symbol::Binary(Along::Fold)],
        Head::Scan => pushes![Symbol::Byte(b' '), Symbol::Binary(Along::Scan)],
        Head::Shape | Head::Turn => open_bracket(Bracket::Numbers),
        Head::Part => open_bracket(Bracket::Parts),
    }
}

#[tactic(auto, unfolding(grammar::specs::Moves::target_step))]
pub fn target_step(target: Target, place: u32) -> Step
    ensures { result ≡ target_step target place }
{
    match target {
        Target::Let => Step::Let(place),
        Target::Put => Step::Put(place),
    }
}

#[tactic(auto, unfolding(grammar::specs::Moves::target_rest))]
pub fn target_rest(target: Target) -> Pushes
    ensures { symbols_of result ≡ target_rest target }
{
    match target {
        Target::Let => pushes![
            Symbol::Byte(b' '),
            Symbol::Byte(b'='),
            Symbol::Byte(b' '),
            Symbol::Expr,
        ],
        Target::Put => pushes![
            Symbol::Byte(b' '),
            Symbol::Byte(b'['),
            Symbol::First(Bracket::Parts),
            Symbol::Byte(b' '),
            Symbol::Byte(b'='),
            Symbol::Byte(b' '),
            Symbol::Expr,
        ],
    }
}

#[tactic(auto, unfolding(grammar::specs::Moves::along_step))]
fn along_step(along: Along, k: Binary, axis: u32) -> Step
    ensures { result ≡ along_step along k axis }
{
    match along {
        Along::Fold => Step::Fold(k, axis),
        Along::Scan => Step::Scan(k, axis),
    }
}

// The step that ends with a number, where one does.
#[tactic(auto, unfolding(grammar::specs::Moves::number_step))]
pub fn number_step(number: Number, value: u32) -> Option<Step>
    ensures { option_to_list result ≡ number_step number value }
{
    match number {
        Number::Input => Some(Step::Input(value)),
        Number::Count => Some(Step::Count(value)),
        Number::Along(along, k) => Some(along_step(along, k, value)),
        Number::Join => Some(Step::Join(value)),
        Number::Again => Some(Step::Again(value)),
        Number::Item => Some(Step::Item(value)),
        Number::From | Number::Step(_, _) => None,
        Number::Many(from, backward, step) => Some(Step::Slice(Slice {
            from,
            backward,
            step,
            many: value,
        })),
    }
}

// Stays: not inlined, and each arm returns its symbols, which are so written in place, as in line_turn; where the arms do
// not return, a text of many numbers takes up to 5 % more instructions.
#[tactic(auto, unfolding(grammar::specs::Moves::number_rest))]
#[inline(never)]
pub fn number_rest(number: Number, value: u32) -> Pushes
    ensures { symbols_of result ≡ number_rest number value }
{
    match number {
        Number::Input | Number::Count | Number::Item | Number::Many(_, _, _) => return pushes![],
        Number::Along(_, _) => return open_operands(0),
        Number::Join => return open_operands(1),
        Number::Again => return pushes![Symbol::Byte(b'\n'), Symbol::Body],
        Number::From => return pushes![Symbol::Byte(b':'), Symbol::Step(value)],
        Number::Step(from, backward) => return pushes![
            Symbol::Byte(b':'),
            Symbol::Number(Number::Many(from, backward, value)),
        ],
    }
}

// What the items of a bracket begin with.
#[tactic(auto, unfolding(grammar::specs::Moves::item_number))]
pub fn item_number(kind: Bracket) -> Number
    ensures { result ≡ item_number kind }
{
    match kind {
        Bracket::Numbers => Number::Item,
        Bracket::Parts => Number::From,
    }
}

// How many operands more than one follow the head at once; none where something else does.
#[tactic(auto, unfolding(grammar::specs::Moves::head_rest, grammar::specs::Moves::operands, grammar::specs::Moves::bracket))]
pub fn more_operands(head: Head) -> Option<u8>
    ensures { Opens head result }
{
    match head {
        Head::Each(_) => Some(0),
        Head::Both(_) | Head::Rows => Some(1),
        Head::Choose => Some(2),
        _ => None,
    }
}
