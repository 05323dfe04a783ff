// Leaves of a tree: their numbers at the places from a number on, rows first, as a block.
ghost use Rattle.std.specs.Prelude.{◌≡◌, ℕ, ◌+◌, ◌%◌, ◌^◌, ◌<◌, ◌≤◌, true, List, [], ◌∷◌, length, slice_index, slice_index_or};
ghost use Rattle.semantics.specs.Shapes.{size, unflat};
ghost use Rattle.semantics.specs.Broadcast.{narrow};
ghost use Rattle.semantics.specs.Arrays.{Array};
ghost use Rattle.semantics.specs.Values.{Cell, none, some, given};
ghost use Rattle.semantics.proofs.Inside.{Spreads};
ghost use Rattle.encoding.specs.ShapeOf.{shape_of};
ghost use Rattle.encoding.specs.Format.{inputs_of};
ghost use Rattle.numbers.specs.Operations.{binary64};
ghost use Rattle.views.specs.Views.{Good, Reaches, Holds, seen};
ghost use Rattle.views.specs.Broadcasting.{Spread};
ghost use Rattle.kernels.specs.Blocks.{StandFor};
ghost use Rattle.kernels.specs.Trees.{CellLeaf};
ghost use Rattle.kernels.specs.Filling.{Tabled, NameReady, InputReady, CellFilled};

use crate::env::Env;
use crate::rows::{fill_with, read_row, row_at};
use encoding::inputs::find_input;
use encoding::shape::Shape;
use numbers::{float_of, whole_float};
use views::broadcast::broadcast;
use views::lent::Lent;
use views::place::number_at;
use views::reshape::is_packed;
use views::view::View;
use views::whole::of_input;

// The numbers of a view, row after row.
fn fill_rows(view: &View, lent: Lent, first: usize, out: &mut [f64])
    requires good { Good view.now }
    requires there { Reaches view.now.source lent.area.now lent.bytes.now view.now.high }
    requires within { first + length out.old ≤ size (shape_of view.now.shape) }
    requires short { first + length out.old < 2 ^ 64 }
    ensures { StandFor out.new (λ k. seen lent.entry.area.now lent.entry.bytes.now view.now (unflat (shape_of view.now.shape) (first + k))) }
{
    let mut done = 0;
    while done < out.len() {
        let row = row_at(view, first + done);
        let count = row.left.min(out.len() - done);
        read_row(
            view.source,
            lent,
            row.from,
            row.stride,
            &mut out[done..done + count],
        );
        done += count;
    }
}

// The numbers of a view, row after row; with no gaps between its rows, they are one.
pub fn fill_view(view: &View, lent: Lent, first: usize, out: &mut [f64])
    requires good { Good view.now }
    requires there { Reaches view.now.source lent.area.now lent.bytes.now view.now.high }
    requires within { first + length out.old ≤ size (shape_of view.now.shape) }
    requires short { first + length out.old < 2 ^ 64 }
    ensures { StandFor out.new (λ k. seen lent.entry.area.now lent.entry.bytes.now view.now (unflat (shape_of view.now.shape) (first + k))) }
{
    if out.len() == 0 {
        return;
    }
    if is_packed(*view) {
        read_row(view.source, lent, view.start + first, 1, out);
        return;
    }
    fill_rows(view, lent, first, out);
}

// The numbers of a view that is broadcast to a shape. One of the shape itself, or with a single number, needs no
// other strides.
fn fill_broadcast(view: View, env: &Env, first: usize, out: &mut [f64])
    requires good { Good view }
    requires there { Reaches view.source env.now.lent.area.now env.now.lent.bytes.now view.high }
    requires spread { Spread (shape_of view.shape) (shape_of env.now.shape) }
    requires within { first + length out.old ≤ size (shape_of env.now.shape) }
    requires short { first + length out.old < 2 ^ 64 }
    ensures { (a : Array ℕ) → Holds env.now.lent.area.now env.now.lent.bytes.now view a → CellFilled (shape_of env.now.shape) first out.new (some a) }
{
    if view.shape == env.shape {
        fill_view(&view, env.lent, first, out);
        return;
    }
    if view.shape.rank == 0 {
        let x = number_at(view.source, env.lent, view.start);
        fill_with(float_of(x), out);
        return;
    }
    let wide = broadcast(view, env.shape);
    fill_view(&wide, env.lent, first, out);
}

// The numbers of a name.
pub fn fill_name(env: &Env, name: u32, first: usize, out: &mut [f64])
    requires ready { NameReady env.now.names.now env.now.lent.area.now env.now.lent.bytes.now (shape_of env.now.shape) name }
    requires within { first + length out.old ≤ size (shape_of env.now.shape) }
    requires short { first + length out.old < 2 ^ 64 }
    ensures { (ns : List (Cell ℕ)) → Tabled env.now.lent.area.now env.now.lent.bytes.now env.now.names.now ns → CellFilled (shape_of env.now.shape) first out.new (slice_index_or ns name none) }
{
    let Some(view) = &env.names[name as usize] else {
        return unreachable();
    };
    fill_broadcast(*view, env, first, out);
}

// The numbers of an input, where they are.
pub fn fill_input(env: &Env, input: u32, first: usize, out: &mut [f64])
    requires ready { InputReady env.now.lent.bytes.now (shape_of env.now.shape) input }
    requires within { first + length out.old ≤ size (shape_of env.now.shape) }
    requires short { first + length out.old < 2 ^ 64 }
    ensures { CellFilled (shape_of env.now.shape) first out.new (given (inputs_of env.now.lent.bytes.now) input) }
{
    let Some(head) = find_input(env.lent.bytes, input as usize) else {
        return unreachable();
    };
    fill_broadcast(of_input(head), env, first, out);
}

// The index behind an index, round after the last.
fn next_index(index: usize, len: usize) -> usize
    requires { index < len }
    ensures { (n : ℕ) → index ≡ n % len → result ≡ (n + 1) % len }
{
    if index + 1 == len { 0 } else { index + 1 }
}

// The numbers 0, 1, .. along the last axis; 0 everywhere where they are only one.
pub fn fill_count(many: u32, shape: Shape, first: usize, out: &mut [f64])
    requires spreads { Spreads (many ∷ []) (shape_of shape) }
    requires within { first + length out.old ≤ size (shape_of shape) }
    requires short { first + length out.old < 2 ^ 64 }
    ensures { StandFor out.new (λ k. binary64.of (slice_index (narrow (many ∷ []) (unflat (shape_of shape) (first + k))) 0)) }
{
    if out.len() == 0 {
        return;
    }
    if many == 1 {
        fill_with(whole_float(0), out);
        return;
    }
    let len = shape.lens[shape.rank - 1] as usize;
    let mut index = first % len;
    for x in out.iter_mut() {
        *x = whole_float(index as u64);
        index = next_index(index, len);
    }
}
