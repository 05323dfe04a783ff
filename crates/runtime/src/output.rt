// What is shown: an array as bytes behind those that were shown before, whole or not at all.
ghost use Rattle.std.specs.Prelude.{◌^◌, ◌≤◌, length};
ghost use Rattle.semantics.specs.Shapes.{size};
ghost use Rattle.encoding.specs.ShapeOf.{shape_of};
ghost use Rattle.kernels.specs.Filling.{Ready, Shallow};
ghost use Rattle.runtime.specs.Showing.{TreeShown};

use encoding::writing::write_head;
use kernels::env::Env;
use kernels::showing::show_with;

// The numbers of the tree at `node` as an array of `room`, from byte `shown` on; gives the byte behind it, or none,
// with nothing written, where it does not fit.
pub fn show_tree(
    env: &Env,
    node: usize,
    room: &mut [u8],
    shown: usize,
    scratch: &mut [f64],
) -> Option<usize>
    requires ready { Ready env.now.words.now node env.now.names.now env.now.lent.area.now env.now.lent.bytes.now (shape_of env.now.shape) }
    requires shallow { Shallow env.now.words.now node }
    requires small { size (shape_of env.now.shape) ≤ 2 ^ 26 }
    requires behind { shown ≤ length room.old }
    requires scratch { 4352 ≤ length scratch.old }
    ensures { TreeShown env.now.words.now node env.now.names.now env.now.lent.area.now env.now.lent.bytes.now (shape_of env.now.shape) shown room.old room.new result }
{
    let bytes = 1 + 4 * env.shape.rank + 8 * env.shape.size() as usize;
    if bytes > room.len() - shown {
        return None;
    }
    let Some(start) = write_head(room, shown, env.shape) else {
        return unreachable();
    };
    show_with(env, node, room, start, scratch);
    Some(shown + bytes)
}
