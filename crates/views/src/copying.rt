// The numbers of a view, written out rows first.
ghost use Rattle.std.specs.Prelude.{◌≡◌, ℕ, ◌+◌, ◌<◌, ◌≤◌, List, [], ◌∷◌, length, pos, ◌+ℤ◌, ◌*ℤ◌, slice_index, unsigned_abs};
ghost use Rattle.semantics.specs.Shapes.{size, In, flat, up_to};
ghost use Rattle.semantics.specs.Arrays.{Array};
ghost use Rattle.semantics.specs.Programs.{numbers_at};
ghost use Rattle.encoding.specs.ShapeOf.{shape_of};
ghost use Rattle.views.specs.declared.view.Source.TheVariants.{Area, Input};
ghost use Rattle.views.specs.Views.{Good, Reaches, Holds, number_from, seen};
ghost use Rattle.views.specs.Copying.{Moves, Walk, Copied};

use crate::lent::Lent;
use crate::place::number_at;
use crate::reshape::is_packed;
use crate::view::{Source, View};
use encoding::words::read_number;

// The address `index` strides from `from`.
pub fn step_to(from: usize, stride: i64, index: usize) -> usize
    requires { Moves from stride index }
    ensures { pos from +ℤ stride *ℤ pos index ≡ pos result }
{
    (from as i64 + stride * index as i64) as usize
}

// Words of the number area that lie one after another.
fn copy_run(area: &[u64], from: usize, out: &mut [u64])
    requires { from + length out.old ≤ length area.now }
    ensures { (j : ℕ) → j < length out.old → slice_index out.new j ≡ slice_index area.now (from + j) }
{
    out.copy_from_slice(&area[from..from + out.len()]);
}

// A row of words of the number area, `stride` apart.
fn copy_words(area: &[u64], from: usize, stride: i64, out: &mut [u64])
    requires { Walk Area area.now [] (length out.old ∷ []) (stride ∷ []) from }
    ensures { (j : ℕ) → j < length out.old → slice_index out.new j ≡ slice_index area.now (unsigned_abs (pos from +ℤ stride *ℤ pos j)) }
{
    for (index, word) in out.iter_mut().enumerate() {
        *word = area[step_to(from, stride, index)];
    }
}

// A row of numbers of an input, `stride` apart.
fn copy_numbers(bytes: &[u8], base: usize, from: usize, stride: i64, out: &mut [u64])
    requires { Walk (Input base) [] bytes.now (length out.old ∷ []) (stride ∷ []) from }
    ensures { (j : ℕ) → j < length out.old → slice_index out.new j ≡ number_from (Input base) [] bytes.now (unsigned_abs (pos from +ℤ stride *ℤ pos j)) }
{
    for (index, number) in out.iter_mut().enumerate() {
        *number = read_number(bytes, base + 8 * step_to(from, stride, index)).unwrap();
    }
}

// A row of places.
fn copy_row(source: Source, lent: Lent, from: usize, stride: i64, out: &mut [u64])
    requires { Walk source lent.area.now lent.bytes.now (length out.old ∷ []) (stride ∷ []) from }
    ensures { Copied source lent.entry.area.now lent.entry.bytes.now (length out.old ∷ []) (stride ∷ []) from out.new }
{
    match source {
        Source::Area => {
            if stride == 1 && !out.is_empty() {
                copy_run(lent.area, from, out);
            } else {
                copy_words(lent.area, from, stride, out);
            }
        }
        Source::Input(base) => copy_numbers(lent.bytes, base, from, stride, out),
    }
}

// All places of a shape, axis after axis: along the first axis the places behind it, the last axis as a row.
fn copy_axes(
    source: Source,
    lent: Lent,
    lens: &[u32],
    strides: &[i64],
    from: usize,
    out: &mut [u64],
)
    requires axes { length lens.now ≤ length strides.now }
    requires walk { Walk source lent.area.now lent.bytes.now lens.now strides.now from }
    requires room { length out.old ≡ size lens.now }
    ensures { Copied source lent.entry.area.now lent.entry.bytes.now lens.now strides.now from out.new }
{
    if out.is_empty() {
        return;
    }
    match lens {
        [] => out[0] = number_at(source, lent, from),
        [_] => copy_row(source, lent, from, strides[0], out),
        [len, inner @ ..] => {
            let count = *len as usize;
            let below = out.len() / count;
            // Stays: what `chunks_exact_mut` lends is not known to a proof once it is written
            for i in 0..count {
                let first = i * below;
                copy_axes(
                    source,
                    lent,
                    inner,
                    &strides[1..],
                    step_to(from, strides[0], i),
                    &mut out[first..first + below],
                );
            }
        }
    }
}

// All numbers of a view, each place once, rows first.
pub fn copy_out(view: View, lent: Lent, out: &mut [u64])
    requires good { Good view }
    requires there { Reaches view.source lent.area.now lent.bytes.now view.high }
    requires room { length out.old ≡ size (shape_of view.shape) }
    ensures each { (is : List ℕ) → In (shape_of view.shape) is → slice_index out.new (flat (shape_of view.shape) is) ≡ seen lent.entry.area.now lent.entry.bytes.now view is }
    ensures holds { (a : Array ℕ) → Holds lent.entry.area.now lent.entry.bytes.now view a → out.new ≡ numbers_at a (up_to 0 (size a.shape)) }
{
    if is_packed(view) {
        copy_row(view.source, lent, view.start, 1, out);
        return;
    }
    copy_axes(
        view.source,
        lent,
        view.shape.lengths(),
        &view.strides,
        view.start,
        out,
    );
}
