// Lines as text.
ghost use Rattle.std.specs.Prelude.{◌≡◌, ℕ, ◌*◌, ◌^◌, ◌<◌, ◌≤◌, [], length};
ghost use Rattle.semantics.specs.Programs.{Program};
ghost use Rattle.program.specs.Spelling.{spell_program};
ghost use Rattle.program.specs.Words.{steps_in};
ghost use Rattle.writer.specs.Overlay.{Laid};
ghost use Rattle.writer.specs.WrittenAs.{text_of};
ghost use Rattle.writer.specs.Writes.{IsProgram, LinesStand, WritesLine};

use crate::texts::exprs::write_exprs;
use crate::texts::heads::write_head;
use crate::texts::reached::Reached;
use crate::texts::steps::count_wanted;
use program::words::{count_steps, step_at};

// The statement at `node` without the lines of an `again`, or the end of an `again`.
fn write_line(words: &[u32], node: usize, room: &mut [u8], at: usize) -> Reached
    requires few { length words.now < 2 ^ 40 }
    requires stand { LinesStand words.now node }
    requires there { node < length (steps_in words.now) }
    requires low { at ≤ 64 * node }
    ensures { WritesLine words.now node room.old at room.new result.node result.at }
{
    let Some(step) = step_at(words, node) else {
        return unreachable();
    };
    let head = write_head(words, node + 1, step, room, at);
    write_exprs(words, head.node, count_wanted(step), b'\n', room, head.at)
}

// All lines, from the beginning of the room on: what does not fit is left out. The length of the text.
pub(crate) fn write_lines(words: &[u32], room: &mut [u8]) -> usize
    requires few { length words.now < 2 ^ 40 }
    requires stands { IsProgram words.now }
    ensures { (p : Program ℕ) → steps_in words.now ≡ spell_program p [] → Laid room.old 0 (text_of p) room.new result }
{
    let count = count_steps(words);
    let mut node = 0;
    let mut at = 0;
    while node < count {
        let line = write_line(words, node, room, at);
        node = line.node;
        at = line.at;
    }
    at
}
