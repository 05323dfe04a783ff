// All places of a tree's result, block after block: into the number area, or as bytes for what is shown.
ghost use Rattle.std.specs.Prelude.{◌≡◌, ℕ, ◌+◌, ◌*◌, ◌<◌, ◌≤◌, List, length, take, slice_index};
ghost use Rattle.semantics.specs.Shapes.{size};
ghost use Rattle.encoding.specs.ShapeOf.{shape_of};
ghost use Rattle.numbers.specs.Patterns.{Pattern};
ghost use Rattle.kernels.specs.Blocks.{StandFor};
ghost use Rattle.kernels.specs.Filling.{Ready, Able, Shallow, PartStored, Stored};

use crate::env::Env;
use crate::trees::{cost_of, fill};
use encoding::shape::Shape;
use numbers::pattern_of;
use views::lent::Lent;
use views::view::View;

// How many numbers a block has at most, and how many all spare blocks have together.
pub(crate) const BLOCK: usize = 256;

const SPARE: usize = 4096;

// How many numbers of scratch `store` and `show` work in. They need not be zeroed, and hold nothing that lasts.
// Stays: scratch is a slice of so many numbers or more, where a struct of two arrays would take just so many.
pub const SCRATCH: usize = 4352;

// How long blocks may be so that so many of them fit the spare slice.
pub(crate) fn block_length(blocks: usize) -> usize
    requires { blocks ≤ 4096 }
    ensures some { 0 < result }
    ensures few { result ≤ 256 }
    ensures fits { blocks * result ≤ 4096 }
{
    if blocks == 0 {
        return BLOCK;
    }
    BLOCK.min(SPARE / blocks)
}

// A block as patterns.
pub(crate) fn write_block(block: &[f64], out: &mut [u64])
    requires { length out.old ≡ length block.now }
    ensures { (f : ℕ → ℕ) → StandFor block.now f → ((k : ℕ) → k < length block.now → Pattern (f k)) → (k : ℕ) → k < length block.now → slice_index out.new k ≡ f k }
{
    for (i, a) in out.iter_mut().enumerate() {
        *a = pattern_of(block[i]);
    }
}

// A block of the numbers of the tree at `node`, from place `first` on, at its words behind `to`.
// Stays: no `Env` is handed over, since the area is lent whole to be written, and only below `to` for the tree.
fn store_block<'a>(
    words: &'a [u32],
    node: usize,
    names: &'a [Option<View>; 64],
    area: &'a mut [u64],
    bytes: &'a [u8],
    shape: Shape,
    to: usize,
    first: usize,
    block: &mut [f64],
    spare: &mut [f64],
)
    requires able { Able words.now node names.now (take to area.old) bytes.now (shape_of shape) (length block.old) (length spare.old) }
    requires within { first + length block.old ≤ size (shape_of shape) }
    requires room { to + size (shape_of shape) ≤ length area.old }
    ensures { PartStored words.now node names.now bytes.now (shape_of shape) to first (length block.old) area.old area.new }
{
    let env = Env {
        words,
        names,
        lent: Lent {
            area: &area[0..to],
            bytes,
        },
        shape,
    };
    fill(&env, node, first, block, spare);
    let at = to + first;
    write_block(block, &mut area[at..at + block.len()]);
}

// The numbers of the tree at `node`, rows first from word `to` on. Its leaves lie below. The scratch need not be
// zeroed, and holds nothing that lasts.
// Stays: the parts of an `Env` come by themselves, as for `store_block`.
pub fn store_with(
    words: &[u32],
    node: usize,
    names: &[Option<View>; 64],
    area: &mut [u64],
    bytes: &[u8],
    shape: Shape,
    to: usize,
    scratch: &mut [f64],
)
    requires ready { Ready words.now node names.now (take to area.old) bytes.now (shape_of shape) }
    requires shallow { Shallow words.now node }
    requires room { to + size (shape_of shape) ≤ length area.old }
    requires scratch { 4352 ≤ length scratch.old }
    ensures { Stored words.now node names.now bytes.now (shape_of shape) to area.old area.new }
{
    let count = shape.size() as usize;
    let len = block_length(cost_of(words, node).blocks);
    let (block, spare) = scratch.split_at_mut(BLOCK);
    let mut done = 0;
    while done < count {
        let many = len.min(count - done);
        store_block(
            words,
            node,
            names,
            area,
            bytes,
            shape,
            to,
            done,
            &mut block[0..many],
            spare,
        );
        done += many;
    }
}

// The same with scratch of its own.
// Stays: the parts of an `Env` come by themselves, as for `store_block`.
pub fn store(
    words: &[u32],
    node: usize,
    names: &[Option<View>; 64],
    area: &mut [u64],
    bytes: &[u8],
    shape: Shape,
    to: usize,
)
    requires ready { Ready words.now node names.now (take to area.old) bytes.now (shape_of shape) }
    requires shallow { Shallow words.now node }
    requires room { to + size (shape_of shape) ≤ length area.old }
    ensures { Stored words.now node names.now bytes.now (shape_of shape) to area.old area.new }
{
    let mut scratch = [0.0; SCRATCH];
    store_with(words, node, names, area, bytes, shape, to, &mut scratch);
}
