// All numbers of a tree as bytes, for what is shown.
ghost use Rattle.std.specs.Prelude.{◌≡◌, ◌+◌, ◌*◌, ◌<◌, ◌≤◌, length};
ghost use Rattle.semantics.specs.Shapes.{size};
ghost use Rattle.encoding.specs.ShapeOf.{shape_of};
ghost use Rattle.kernels.specs.Filling.{Ready, Able, Shallow, BlockShown, Shown};

use crate::env::Env;
use crate::storing::{BLOCK, SCRATCH, block_length, write_block};
use crate::trees::{cost_of, fill};
use encoding::writing::write_numbers;

// A block of the numbers of the tree at `node`, from place `first` on, as bytes of `room`.
fn show_block(
    env: &Env,
    node: usize,
    first: usize,
    room: &mut [u8],
    index: usize,
    block: &mut [f64],
    spare: &mut [f64],
    patterns: &mut [u64],
)
    requires able { Able env.now.words.now node env.now.names.now env.now.lent.area.now env.now.lent.bytes.now (shape_of env.now.shape) (length block.old) (length spare.old) }
    requires within { first + length block.old ≤ size (shape_of env.now.shape) }
    requires same { length patterns.old ≡ length block.old }
    requires fits { index + 8 * size (shape_of env.now.shape) ≤ length room.old }
    ensures { BlockShown env.now.words.now node env.now.names.now env.now.lent.area.now env.now.lent.bytes.now (shape_of env.now.shape) first index (length block.old) room.old room.new }
{
    fill(env, node, first, block, spare);
    write_block(block, patterns);
    let Some(_) = write_numbers(room, index + 8 * first, patterns) else {
        return unreachable();
    };
}

// The numbers of the tree at `node`, eight bytes each, low byte first, from byte `index` of `room` on. The
// scratch need not be zeroed, and holds nothing that lasts.
pub fn show_with(env: &Env, node: usize, room: &mut [u8], index: usize, scratch: &mut [f64])
    requires ready { Ready env.now.words.now node env.now.names.now env.now.lent.area.now env.now.lent.bytes.now (shape_of env.now.shape) }
    requires shallow { Shallow env.now.words.now node }
    requires fits { index + 8 * size (shape_of env.now.shape) ≤ length room.old }
    requires scratch { 4352 ≤ length scratch.old }
    ensures { Shown env.now.words.now node env.now.names.now env.now.lent.area.now env.now.lent.bytes.now (shape_of env.now.shape) index (size (shape_of env.now.shape)) room.old room.new }
{
    let count = env.shape.size() as usize;
    let len = block_length(cost_of(env.words, node).blocks);
    let (block, spare) = scratch.split_at_mut(BLOCK);
    let mut patterns = [0; BLOCK];
    let mut done = 0;
    while done < count {
        let many = len.min(count - done);
        show_block(
            env,
            node,
            done,
            room,
            index,
            &mut block[0..many],
            spare,
            &mut patterns[0..many],
        );
        done += many;
    }
}

// The same with scratch of its own.
pub fn show(env: &Env, node: usize, room: &mut [u8], index: usize)
    requires ready { Ready env.now.words.now node env.now.names.now env.now.lent.area.now env.now.lent.bytes.now (shape_of env.now.shape) }
    requires shallow { Shallow env.now.words.now node }
    requires fits { index + 8 * size (shape_of env.now.shape) ≤ length room.old }
    ensures { Shown env.now.words.now node env.now.names.now env.now.lent.area.now env.now.lent.bytes.now (shape_of env.now.shape) index (size (shape_of env.now.shape)) room.old room.new }
{
    let mut scratch = [0.0; SCRATCH];
    show_with(env, node, room, index, &mut scratch);
}
