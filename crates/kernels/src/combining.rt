// One operation over two operands, of which at least one is read where it lies: no block is filled only to be read
// once.
ghost use Rattle.std.specs.Prelude.{ℕ, ◌<◌, length};
ghost use Rattle.kernels.specs.Operands.{Readable, Combined};

use crate::feeds::*;
use crate::operand::Operand;
use numbers::operators::*;
use semantics::operation::Binary;
use views::lent::Lent;

fn combine_two<O: OnTwo, F: Feed, G: Feed>(out: &mut [f64], lent: Lent, left: usize, right: usize)
    requires left { (k : ℕ) → k < length out.old → Readable (F.Feed.operand left) lent.area.now lent.bytes.now k }
    requires right { (k : ℕ) → k < length out.old → Readable (G.Feed.operand right) lent.area.now lent.bytes.now k }
    ensures { Combined O.OnTwo.name (F.Feed.operand left) (G.Feed.operand right) lent.entry.area.now lent.entry.bytes.now out.old out.new }
{
    for (k, own) in out.iter_mut().enumerate() {
        let x = F::get(lent, left, k, *own);
        let y = G::get(lent, right, k, *own);
        *own = O::apply(x, y);
    }
}

fn combine_from<F: Feed, G: Feed>(
    op: Binary,
    out: &mut [f64],
    lent: Lent,
    left: usize,
    right: usize,
)
    requires left { (k : ℕ) → k < length out.old → Readable (F.Feed.operand left) lent.area.now lent.bytes.now k }
    requires right { (k : ℕ) → k < length out.old → Readable (G.Feed.operand right) lent.area.now lent.bytes.now k }
    ensures { Combined op (F.Feed.operand left) (G.Feed.operand right) lent.entry.area.now lent.entry.bytes.now out.old out.new }
{
    // Stays: the match on the operation is outside of the loop.
    match op {
        Binary::Add => combine_two::<Sum, F, G>(out, lent, left, right),
        Binary::Sub => combine_two::<Difference, F, G>(out, lent, left, right),
        Binary::Mul => combine_two::<Product, F, G>(out, lent, left, right),
        Binary::Div => combine_two::<Quotient, F, G>(out, lent, left, right),
        Binary::Less => combine_two::<Lower, F, G>(out, lent, left, right),
        Binary::Same => combine_two::<Equal, F, G>(out, lent, left, right),
        Binary::Least => combine_two::<Lesser, F, G>(out, lent, left, right),
        Binary::Most => combine_two::<Greater, F, G>(out, lent, left, right),
    }
}

fn combine_with<F: Feed>(op: Binary, out: &mut [f64], lent: Lent, left: usize, right: Operand)
    requires left { (k : ℕ) → k < length out.old → Readable (F.Feed.operand left) lent.area.now lent.bytes.now k }
    requires right { (k : ℕ) → k < length out.old → Readable right lent.area.now lent.bytes.now k }
    ensures { Combined op (F.Feed.operand left) right lent.entry.area.now lent.entry.bytes.now out.old out.new }
{
    match right {
        Operand::Own => combine_from::<F, FromBlock>(op, out, lent, left, 0),
        Operand::Words(at) => combine_from::<F, FromWords>(op, out, lent, left, at),
        Operand::Bytes(at) => combine_from::<F, FromBytes>(op, out, lent, left, at),
    }
}

// Each number of the left operand with that of the right one, into the block.
pub fn combine(op: Binary, left: Operand, right: Operand, lent: Lent, out: &mut [f64])
    requires left { (k : ℕ) → k < length out.old → Readable left lent.area.now lent.bytes.now k }
    requires right { (k : ℕ) → k < length out.old → Readable right lent.area.now lent.bytes.now k }
    ensures { Combined op left right lent.entry.area.now lent.entry.bytes.now out.old out.new }
{
    match left {
        Operand::Own => combine_with::<FromBlock>(op, out, lent, 0, right),
        Operand::Words(at) => combine_with::<FromWords>(op, out, lent, at, right),
        Operand::Bytes(at) => combine_with::<FromBytes>(op, out, lent, at, right),
    }
}
