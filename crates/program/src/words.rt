// Steps in words: five words a step, one step after another from word 0.
ghost use Rattle.std.specs.Prelude.{◌≡◌, ◌*◌, ◌/◌, ◌<◌, ◌≤◌, length, take, drop, None, MatchOption};
ghost use Rattle.program.specs.Standing.{steps_from};
ghost use Rattle.program.specs.Closing.{closing, EndsAt};
ghost use Rattle.program.specs.Behind.{awaits, behind, BehindAt};
ghost use Rattle.program.specs.Words.{unary_code, binary_code, unary_of, binary_of, sliced, words_of, step_of, steps_in, place_in, At, Stores};

use crate::step::Step;
use crate::steps::Steps;
use semantics::operation::{Binary, Unary};
use semantics::slice::Slice;

// How many words a step takes.
pub const STEP_WORDS: usize = 5;

// The operations in the order of their codes.
const UNARIES: [Unary; 5] = [
    Unary::Neg,
    Unary::Abs,
    Unary::Sqrt,
    Unary::Floor,
    Unary::Not,
];

const BINARIES: [Binary; 8] = [
    Binary::Add,
    Binary::Sub,
    Binary::Mul,
    Binary::Div,
    Binary::Less,
    Binary::Same,
    Binary::Least,
    Binary::Most,
];

fn find_unary(code: u32) -> Option<Unary>
    ensures { result ≡ unary_of code }
{
    UNARIES.get(code as usize).copied()
}

fn find_binary(code: u32) -> Option<Binary>
    ensures { result ≡ binary_of code }
{
    BINARIES.get(code as usize).copied()
}

fn code_unary(k: Unary) -> u32
    ensures { result ≡ unary_code k }
{
    k as u32
}

fn code_binary(k: Binary) -> u32
    ensures { result ≡ binary_code k }
{
    k as u32
}

fn read_slice(from: u32, backward: bool, step: u32, many: u32) -> Step
    ensures { result ≡ sliced from backward step many }
{
    Step::Slice(Slice {
        from,
        backward,
        step,
        many,
    })
}

// The step of a tag and three numbers; `End` where there is none.
fn read_step(tag: u32, a: u32, b: u32, c: u32) -> Step
    ensures { result ≡ step_of tag a b c }
{
    match tag {
        1 => Step::Let(a),
        2 => Step::Put(a),
        3 => Step::Show,
        4 => Step::Again(a),
        5 => Step::Name(a),
        6 => Step::Input(a),
        7 => Step::Constant(u64::from(a) + u64::from(b) * 4_294_967_296),
        8 => Step::Count(a),
        9 => find_unary(a).map_or(Step::End, |k| Step::Each(k)),
        10 => find_binary(a).map_or(Step::End, |k| Step::Both(k)),
        11 => Step::Choose,
        12 => find_binary(a).map_or(Step::End, |k| Step::Fold(k, b)),
        13 => find_binary(a).map_or(Step::End, |k| Step::Scan(k, b)),
        14 => Step::Shape,
        15 => Step::Turn,
        16 => Step::Part,
        17 => Step::Join(a),
        18 => Step::Rows,
        19 => Step::Item(a),
        20 => read_slice(a, false, b, c),
        21 => read_slice(a, true, b, c),
        _ => Step::End,
    }
}

// The words of a step whose text begins at `place`.
fn write_step(step: Step, place: u32) -> [u32; 5]
    ensures { result ≡ words_of step place }
{
    match step {
        Step::End => [0, place, 0, 0, 0],
        Step::Let(k) => [1, place, k, 0, 0],
        Step::Put(k) => [2, place, k, 0, 0],
        Step::Show => [3, place, 0, 0, 0],
        Step::Again(n) => [4, place, n, 0, 0],
        Step::Name(k) => [5, place, k, 0, 0],
        Step::Input(k) => [6, place, k, 0, 0],
        Step::Constant(x) => [
            7,
            place,
            (x % 4_294_967_296) as u32,
            (x / 4_294_967_296) as u32,
            0,
        ],
        Step::Count(n) => [8, place, n, 0, 0],
        Step::Each(k) => [9, place, code_unary(k), 0, 0],
        Step::Both(k) => [10, place, code_binary(k), 0, 0],
        Step::Choose => [11, place, 0, 0, 0],
        Step::Fold(k, x) => [12, place, code_binary(k), x, 0],
        Step::Scan(k, x) => [13, place, code_binary(k), x, 0],
        Step::Shape => [14, place, 0, 0, 0],
        Step::Turn => [15, place, 0, 0, 0],
        Step::Part => [16, place, 0, 0, 0],
        Step::Join(x) => [17, place, x, 0, 0],
        Step::Rows => [18, place, 0, 0, 0],
        Step::Item(k) => [19, place, k, 0, 0],
        Step::Slice(slice) => [
            if slice.backward { 21 } else { 20 },
            place,
            slice.from,
            slice.step,
            slice.many,
        ],
    }
}

// How many steps the words are.
pub fn count_steps(words: &[u32]) -> usize
    ensures fifth { result ≡ length words.now / 5 }
    ensures steps { result ≡ length (steps_in words.now) }
{
    words.len() / STEP_WORDS
}

// The words of step `node`, or none where it is past the last.
fn words_at(words: &[u32], node: usize) -> Option<[u32; STEP_WORDS]>
    ensures { MatchOption result (length (steps_in words.now) ≤ node) (λ five. (node < length (steps_in words.now)) × (five ≡ take 5 (drop (5 * node) words.now))) }
{
    let (steps, _) = words.as_chunks();
    steps.get(node).copied()
}

// Step `node`, or none where it is past the last.
pub fn step_at(words: &[u32], node: usize) -> Option<Step>
    ensures { MatchOption result (length (steps_in words.now) ≤ node) (λ s. At words.now node s) }
{
    let [tag, _, a, b, c] = words_at(words, node)?;
    Some(read_step(tag, a, b, c))
}

// Where the text of step `node` begins, or none where it is past the last.
pub fn place_at(words: &[u32], node: usize) -> Option<u32>
    ensures { MatchOption result (length (steps_in words.now) ≤ node) (λ p. (node < length (steps_in words.now)) × (p ≡ place_in words.now node)) }
{
    let [_, place, ..] = words_at(words, node)?;
    Some(place)
}

// Stores a step and where its text begins at `node`; `false`, with nothing stored, where that is past the last.
// Stays: nothing is known of what a slice holds after `as_chunks_mut` or `get_mut`.
pub fn put_step(words: &mut [u32], node: usize, step: Step, place: u32) -> bool
    ensures { Stores words.old words.new node step place result }
{
    if node >= count_steps(words) {
        return false;
    }
    let at = STEP_WORDS * node;
    words[at..at + STEP_WORDS].copy_from_slice(&write_step(step, place));
    true
}

// The step behind the `End` that closes the lines from `node` on, or none where nothing closes them.
pub fn find_end(words: &[u32], node: usize) -> Option<usize>
    ensures { MatchOption result (closing 0 (steps_from words.now node) ≡ None) (λ j. EndsAt words.now node j) }
{
    let mut inside: usize = 0;
    let mut steps = Steps { words, node };
    while let Some(step) = steps.next() {
        match step {
            Step::Again(_) => inside += 1,
            Step::End => {
                if inside == 0 {
                    return Some(steps.node);
                }
                inside -= 1;
            }
            _ => {}
        }
    }
    None
}

// How many expressions a step awaits behind it.
fn awaited(step: Step) -> usize
    ensures { result ≡ awaits step }
{
    match step {
        Step::End
        | Step::Let(_)
        | Step::Put(_)
        | Step::Show
        | Step::Again(_)
        | Step::Name(_)
        | Step::Input(_)
        | Step::Constant(_)
        | Step::Count(_) => 0,
        Step::Each(_)
        | Step::Fold(_, _)
        | Step::Scan(_, _)
        | Step::Shape
        | Step::Turn
        | Step::Part
        | Step::Item(_)
        | Step::Slice(_) => 1,
        Step::Both(_) | Step::Join(_) | Step::Rows => 2,
        Step::Choose => 3,
    }
}

// The step behind the expression at `node`, or none where the steps end before it does.
pub fn find_behind(words: &[u32], node: usize) -> Option<usize>
    ensures { MatchOption result (behind 1 (steps_from words.now node) ≡ None) (λ j. BehindAt words.now node j) }
{
    let mut wanted: usize = 1;
    let mut steps = Steps { words, node };
    while wanted > 0 {
        wanted = wanted - 1 + awaited(steps.next()?);
    }
    Some(steps.node)
}
