// Operands that can be read where they lie.
ghost use Rattle.std.specs.Prelude.{◌≡◌, ◌+◌, ◌-◌, ◌<◌, ◌≤◌, true, [], ◌∷◌, ◌++◌, take};
ghost use Rattle.semantics.specs.Shapes.{size};
ghost use Rattle.encoding.specs.ShapeOf.{shape_of};
ghost use Rattle.views.specs.Views.{Good, Reaches};
ghost use Rattle.kernels.specs.Filling.{Ready};
ghost use Rattle.kernels.specs.Operands.{Lined, ViewRun, FoundRun};

use crate::env::Env;
use crate::operand::Operand;
use crate::rows::no_nan_bytes;
use encoding::shape::Shape;
use numbers::no_nans;
use program::step::Step;
use program::words::step_at;
use views::reshape::is_packed;
use views::view::{Source, View};

// The numbers of a view that lie one after another, in place unless there is a NaN among them.
fn packed_run(view: &View, env: &Env, first: usize, count: usize) -> Operand
    requires { Lined env.now.lent.area.now env.now.lent.bytes.now view.now first count }
    ensures { ViewRun env.now.lent.area.now env.now.lent.bytes.now view.now (shape_of view.now.shape) first count result }
{
    let at = view.start + first;
    match view.source {
        Source::Area => {
            if no_nans(&env.lent.area[at..at + count]) {
                Operand::Words(at)
            } else {
                Operand::Own
            }
        }
        Source::Input(base) => {
            let from = base + 8 * at;
            if no_nan_bytes(env.lent.bytes, from, count) {
                Operand::Bytes(from)
            } else {
                Operand::Own
            }
        }
    }
}

// The length of the last axis.
fn last_length(shape: Shape) -> u32
    requires { 0 < shape.rank }
    ensures { shape_of shape ≡ take (shape.rank - 1) (shape_of shape) ++ result ∷ [] }
{
    shape.lens[shape.rank - 1]
}

// Whether a shape is one axis of this length.
fn is_row(shape: Shape, len: u32) -> bool
    ensures { result ≡ true → shape_of shape ≡ len ∷ [] }
{
    if shape.rank != 1 {
        return false;
    }
    shape.lens[0] == len
}

// The numbers of a view that is one row, and that a tree's last axis is as long as: in place as long as the places do
// not go on behind that axis.
fn row_run(view: &View, env: &Env, first: usize, count: usize) -> Operand
    requires good { Good view.now }
    requires there { Reaches view.now.source env.now.lent.area.now env.now.lent.bytes.now view.now.high }
    requires within { first + count ≤ size (shape_of env.now.shape) }
    requires any { 0 < count }
    ensures { ViewRun env.now.lent.area.now env.now.lent.bytes.now view.now (shape_of env.now.shape) first count result }
{
    if env.shape.rank == 0 {
        return Operand::Own;
    }
    let len = last_length(env.shape);
    if !is_row(view.shape, len) {
        return Operand::Own;
    }
    if !is_packed(*view) {
        return Operand::Own;
    }
    let column = first % len as usize;
    if count > len as usize - column {
        return Operand::Own;
    }
    packed_run(view, env, column, count)
}

// The numbers of a view from place `first` on, in place where its shape is the tree's and they can be read so.
fn view_run(view: &View, env: &Env, first: usize, count: usize) -> Operand
    requires good { Good view.now }
    requires there { Reaches view.now.source env.now.lent.area.now env.now.lent.bytes.now view.now.high }
    requires within { first + count ≤ size (shape_of env.now.shape) }
    ensures { ViewRun env.now.lent.area.now env.now.lent.bytes.now view.now (shape_of env.now.shape) first count result }
{
    if count == 0 {
        return Operand::Own;
    }
    if view.shape != env.shape {
        return row_run(view, env, first, count);
    }
    if !is_packed(*view) {
        return Operand::Own;
    }
    packed_run(view, env, first, count)
}

// The numbers of the tree at `node` from place `first` on: in place where it is a name that can be read so.
pub fn find_run(env: &Env, node: usize, first: usize, count: usize) -> Operand
    requires ready { Ready env.now.words.now node env.now.names.now env.now.lent.area.now env.now.lent.bytes.now (shape_of env.now.shape) }
    requires within { first + count ≤ size (shape_of env.now.shape) }
    ensures { FoundRun env.now.words.now node env.now.names.now env.now.lent.area.now env.now.lent.bytes.now (shape_of env.now.shape) first count result }
{
    let Some(Step::Name(k)) = step_at(env.words, node) else {
        return Operand::Own;
    };
    let Some(view) = &env.names[k as usize] else {
        return Operand::Own;
    };
    view_run(view, env, first, count)
}
