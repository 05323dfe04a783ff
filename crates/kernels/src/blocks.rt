// Operations over blocks of numbers: which one is chosen outside the loop, so that each is one simple loop.
ghost use Rattle.std.specs.Prelude.{◌≡◌, length};
ghost use Rattle.kernels.specs.Blocks.{Applied, Joined, Chosen, ChosenFloat};

use numbers::operators::*;
use numbers::truth_of;
use semantics::operation::{Binary, Unary};

fn apply_one<O: OnOne>(block: &mut [f64])
    ensures { Applied O.OnOne.name block.old block.new }
{
    for x in block.iter_mut() {
        *x = O::apply(*x);
    }
}

fn apply_two<O: OnTwo>(left: &mut [f64], right: &[f64])
    requires { length right.now ≡ length left.old }
    ensures { Joined O.OnTwo.name left.old right.now left.new }
{
    for (k, x) in left.iter_mut().enumerate() {
        *x = O::apply(*x, right[k]);
    }
}

// Each number of the block, by one operation.
pub fn apply_unary(op: Unary, block: &mut [f64])
    ensures { Applied op block.old block.new }
{
    // Stays: the match on the operation is outside of the loop.
    match op {
        Unary::Neg => apply_one::<Negation>(block),
        Unary::Abs => apply_one::<Absolute>(block),
        Unary::Sqrt => apply_one::<Root>(block),
        Unary::Floor => apply_one::<Floored>(block),
        Unary::Not => apply_one::<Negated>(block),
    }
}

// Each number of the left block with that of the right one, into the left one.
pub fn apply_binary(op: Binary, left: &mut [f64], right: &[f64])
    requires { length right.now ≡ length left.old }
    ensures { Joined op left.old right.now left.new }
{
    // Stays: the match on the operation is outside of the loop.
    match op {
        Binary::Add => apply_two::<Sum>(left, right),
        Binary::Sub => apply_two::<Difference>(left, right),
        Binary::Mul => apply_two::<Product>(left, right),
        Binary::Div => apply_two::<Quotient>(left, right),
        Binary::Less => apply_two::<Lower>(left, right),
        Binary::Same => apply_two::<Equal>(left, right),
        Binary::Least => apply_two::<Lesser>(left, right),
        Binary::Most => apply_two::<Greater>(left, right),
    }
}

fn choose_float(c: f64, x: f64, y: f64) -> f64
    ensures { ChosenFloat c x y result }
{
    if truth_of(c) { x } else { y }
}

// Each number of the left or of the right block, by whether that of the first counts as true, into the first.
pub fn choose_blocks(block: &mut [f64], left: &[f64], right: &[f64])
    requires left { length left.now ≡ length block.old }
    requires right { length right.now ≡ length block.old }
    ensures { Chosen block.old left.now right.now block.new }
{
    for (k, x) in block.iter_mut().enumerate() {
        *x = choose_float(*x, left[k], right[k]);
    }
}
