// Trees of operations, number by number over their leaves, a block of places at a time.
ghost use Rattle.std.specs.Prelude.{◌+◌, ◌^◌, ◌<◌, ◌≤◌, length};
ghost use Rattle.semantics.specs.Shapes.{size};
ghost use Rattle.encoding.specs.ShapeOf.{shape_of};
ghost use Rattle.program.specs.Standing.{Skips};
ghost use Rattle.kernels.specs.Filling.{Able, Filled, TreeStands, Costs};

use crate::blocks::{apply_binary, apply_unary, choose_blocks};
use crate::combining::combine;
use crate::cost::Cost;
use crate::env::Env;
use crate::leaves::{fill_count, fill_input, fill_name};
use crate::operand::Operand;
use crate::rows::fill_with;
use crate::runs::find_run;
use numbers::float_of;
use program::step::Step;
use program::words::step_at;

// What the tree at `node` takes.
pub fn cost_of(words: &[u32], node: usize) -> Cost
    requires { TreeStands words.now node }
    ensures { Costs words.now node result }
{
    let Some(step) = step_at(words, node) else {
        return unreachable();
    };
    match step {
        Step::Name(_) | Step::Input(_) | Step::Constant(_) | Step::Count(_) => Cost {
            next: node + 1,
            blocks: 0,
        },
        Step::Each(_) => cost_of(words, node + 1),
        Step::Both(_) => {
            let left = cost_of(words, node + 1);
            let right = cost_of(words, left.next);
            Cost {
                next: right.next,
                blocks: left.blocks.max(1 + right.blocks),
            }
        }
        Step::Choose => {
            let first = cost_of(words, node + 1);
            let left = cost_of(words, first.next);
            let right = cost_of(words, left.next);
            Cost {
                next: right.next,
                blocks: first.blocks.max((1 + left.blocks).max(2 + right.blocks)),
            }
        }
        _ => unreachable(),
    }
}

// The numbers of the tree at `node` from place `first` on, and the node behind the tree. An operand that lies ready
// is read where it is; an operation's later operands go into blocks of the spare slice, which holds nothing that
// lasts.
pub fn fill(env: &Env, node: usize, first: usize, out: &mut [f64], spare: &mut [f64]) -> usize
    requires able { Able env.now.words.now node env.now.names.now env.now.lent.area.now env.now.lent.bytes.now (shape_of env.now.shape) (length out.old) (length spare.old) }
    requires within { first + length out.old ≤ size (shape_of env.now.shape) }
    requires short { first + length out.old < 2 ^ 64 }
    ensures skips { Skips env.now.words.now node result }
    ensures filled { Filled env.now.words.now node env.now.names.now env.now.lent.area.now env.now.lent.bytes.now (shape_of env.now.shape) first out.new }
{
    let Some(step) = step_at(env.words, node) else {
        return unreachable();
    };
    match step {
        Step::Name(k) => {
            fill_name(env, k, first, out);
            node + 1
        }
        Step::Input(k) => {
            fill_input(env, k, first, out);
            node + 1
        }
        Step::Constant(x) => {
            fill_with(float_of(x), out);
            node + 1
        }
        Step::Count(m) => {
            fill_count(m, env.shape, first, out);
            node + 1
        }
        Step::Each(op) => {
            let next = fill(env, node + 1, first, out, spare);
            apply_unary(op, out);
            next
        }
        Step::Both(op) => {
            let start = node + 1;
            let count = out.len();
            let left = find_run(env, start, first, count);
            match left {
                Operand::Own => {
                    let middle = fill(env, start, first, out, spare);
                    let right = find_run(env, middle, first, count);
                    match right {
                        Operand::Own => {
                            let (block, rest) = spare.split_at_mut(count);
                            let next = fill(env, middle, first, block, rest);
                            apply_binary(op, out, block);
                            next
                        }
                        _ => {
                            combine(op, Operand::Own, right, env.lent, out);
                            middle + 1
                        }
                    }
                }
                _ => {
                    let middle = start + 1;
                    let right = find_run(env, middle, first, count);
                    match right {
                        Operand::Own => {
                            let next = fill(env, middle, first, out, spare);
                            combine(op, left, Operand::Own, env.lent, out);
                            next
                        }
                        _ => {
                            combine(op, left, right, env.lent, out);
                            middle + 1
                        }
                    }
                }
            }
        }
        Step::Choose => {
            let second = fill(env, node + 1, first, out, spare);
            let (left, rest) = spare.split_at_mut(out.len());
            let third = fill(env, second, first, left, rest);
            let (right, last) = rest.split_at_mut(out.len());
            let next = fill(env, third, first, right, last);
            choose_blocks(out, left, right);
            next
        }
        _ => unreachable(),
    }
}
