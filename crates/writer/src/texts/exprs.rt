// Expressions as text.
ghost use Rattle.std.specs.Prelude.{◌+◌, ◌*◌, ◌^◌, ◌<◌, ◌≤◌, length};
ghost use Rattle.program.specs.Words.{steps_in};
ghost use Rattle.writer.specs.Overlay.{Laid};
ghost use Rattle.writer.specs.Writes.{gap_text, StandAll, Writes};

use crate::texts::heads::write_head;
use crate::texts::reached::Reached;
use crate::texts::room::{put_byte, put_bytes};
use crate::texts::steps::count_wanted;
use program::words::step_at;

// What comes behind the first of `many` expressions.
fn put_gap(room: &mut [u8], at: usize, many: usize, close: u8) -> usize
    requires fits { at + 2 < 2 ^ 64 }
    ensures laid { Laid room.old at (gap_text many close) room.new result }
    ensures short { result ≤ at + 2 }
{
    if many == 1 {
        return put_byte(room, at, close);
    }
    put_bytes(room, at, b", ")
}

// The `many` expressions from `node` on, parted by commas, with the byte `close` behind the last.
pub(crate) fn write_exprs(
    words: &[u32],
    node: usize,
    many: usize,
    close: u8,
    room: &mut [u8],
    at: usize,
) -> Reached
    requires few { length words.now < 2 ^ 40 }
    requires stand { StandAll words.now node many }
    requires inside { node ≤ length (steps_in words.now) }
    requires low { at ≤ 64 * node }
    ensures { Writes many close words.now node room.old at room.new result.node result.at }
{
    if many == 0 {
        return Reached { node, at };
    }
    let Some(step) = step_at(words, node) else {
        return unreachable();
    };
    let head = write_head(words, node + 1, step, room, at);
    let inner = write_exprs(words, head.node, count_wanted(step), b')', room, head.at);
    let gap = put_gap(room, inner.at, many, close);
    write_exprs(words, inner.node, many - 1, close, room, gap)
}
