// Steps with what stands between their brackets.
ghost use Rattle.std.specs.Prelude.{◌+◌, ◌*◌, ◌^◌, ◌<◌, ◌≤◌, length};
ghost use Rattle.program.specs.Words.{steps_in};
ghost use Rattle.writer.specs.StepTexts.{more_text, list_text};
ghost use Rattle.writer.specs.Writes.{Lists, Heads};

use crate::texts::reached::Reached;
use crate::texts::room::put_bytes;
use crate::texts::steps::{find_closer, is_listed, put_step};
use program::step::Step;
use program::words::step_at;

// The items or slices from `node` on, each behind a comma.
fn write_more(words: &[u32], node: usize, room: &mut [u8], at: usize) -> Reached
    requires few { length words.now < 2 ^ 40 }
    requires inside { node ≤ length (steps_in words.now) }
    requires low { at ≤ 64 * node }
    ensures { Lists more_text words.now node room.old at room.new result.node result.at }
{
    let mut next = node;
    let mut behind = at;
    while let Some(step) = step_at(words, next) {
        if !is_listed(step) {
            return Reached {
                node: next,
                at: behind,
            };
        }
        let gap = put_bytes(room, behind, b", ");
        behind = put_step(room, gap, step);
        next += 1;
    }
    Reached {
        node: next,
        at: behind,
    }
}

// The items or slices from `node` on, parted by commas.
fn write_list(words: &[u32], node: usize, room: &mut [u8], at: usize) -> Reached
    requires few { length words.now < 2 ^ 40 }
    requires inside { node ≤ length (steps_in words.now) }
    requires low { at ≤ 64 * node }
    ensures { Lists list_text words.now node room.old at room.new result.node result.at }
{
    let Some(step) = step_at(words, node) else {
        return Reached { node, at };
    };
    if !is_listed(step) {
        return Reached { node, at };
    }
    let first = put_step(room, at, step);
    write_more(words, node + 1, room, first)
}

// A step, and its brackets where it has some: `node` is behind the step.
pub(crate) fn write_head(
    words: &[u32],
    node: usize,
    step: Step,
    room: &mut [u8],
    at: usize,
) -> Reached
    requires few { length words.now < 2 ^ 40 }
    requires inside { node ≤ length (steps_in words.now) }
    requires low { at + 64 ≤ 64 * node }
    ensures { Heads step words.now node room.old at room.new result.node result.at }
{
    let head = put_step(room, at, step);
    let close = find_closer(step);
    if close.is_empty() {
        return Reached { node, at: head };
    }
    let list = write_list(words, node, room, head);
    Reached {
        node: list.node,
        at: put_bytes(room, list.at, close),
    }
}
