// Rows of a view: the places that follow one another along its last axis.
ghost use Rattle.std.specs.Prelude.{◌≡◌, ℕ, ◌+◌, ◌*◌, ◌<◌, ◌≤◌, true, List, [], ◌∷◌, length, take, slice_index};
ghost use Rattle.semantics.specs.Shapes.{size, unflat};
ghost use Rattle.encoding.specs.ShapeOf.{shape_of};
ghost use Rattle.encoding.specs.Words.{word8};
ghost use Rattle.encoding.specs.Format.{number_at};
ghost use Rattle.numbers.specs.Plain.{NoNan};
ghost use Rattle.numbers.specs.Standing.{StandsFor};
ghost use Rattle.views.specs.declared.view.Source.TheVariants.{Area, Input};
ghost use Rattle.views.specs.Views.{Good};
ghost use Rattle.views.specs.Copying.{Walk};
ghost use Rattle.kernels.specs.Blocks.{at, StandFor};
ghost use Rattle.kernels.specs.Reading.{RowAt, along};

use crate::row::Row;
use encoding::shape::Shape;
use encoding::words::read_number;
use numbers::{canonical, float_of, is_clear, look, no_nans, plain_float};
use views::copying::step_to;
use views::lent::Lent;
use views::place::{address_of, number_at};
use views::view::{Source, View};

// The place that has a number, rows first.
pub fn place_of(shape: Shape, number: usize) -> [u32; 8]
    requires { number < size (shape_of shape) }
    ensures { take shape.rank result ≡ unflat (shape_of shape) number }
{
    let mut place = [0; 8];
    let mut rest = number;
    // Stays: two arrays by one axis, the last axis first.
    for k in (0..shape.rank).rev() {
        let len = shape.lens[k] as usize;
        place[k] = (rest % len) as u32;
        rest /= len;
    }
    place
}

// Where the place that has a number lies, and how the places behind it in its row do.
pub fn row_at(view: &View, number: usize) -> Row
    requires good { Good view.now }
    requires there { number < size (shape_of view.now.shape) }
    ensures { RowAt view.now number result }
{
    let rank = view.shape.rank;
    let place = place_of(view.shape, number);
    let from = address_of(view, &place[0..rank]);
    if rank == 0 {
        return Row {
            from,
            stride: 0,
            left: 1,
        };
    }
    let len = view.shape.lens[rank - 1] as usize;
    Row {
        from,
        stride: view.strides[rank - 1],
        left: len - number % len,
    }
}

// One number in all places.
pub fn fill_with(x: f64, out: &mut [f64])
    ensures { (a : ℕ) → StandsFor x a → StandFor out.new (λ _. a) }
{
    out.fill(x);
}

// Words of which none is a NaN's pattern.
fn read_plain(words: &[u64], out: &mut [f64])
    requires same { length words.now ≡ length out.old }
    requires plain { (k : ℕ) → k < length words.now → NoNan (slice_index words.now k) }
    ensures { StandFor out.new (λ j. slice_index words.now j) }
{
    for (i, x) in out.iter_mut().enumerate() {
        *x = plain_float(words[i]);
    }
}

// Words of any patterns.
fn read_patterns(words: &[u64], out: &mut [f64])
    requires { length words.now ≡ length out.old }
    ensures { StandFor out.new (λ j. slice_index words.now j) }
{
    for (i, x) in out.iter_mut().enumerate() {
        *x = float_of(words[i]);
    }
}

// Words of the number area that lie one after another. A pass that looks for NaNs is cheaper than a test for
// each number.
fn read_run(area: &[u64], from: usize, out: &mut [f64])
    requires { from + length out.old ≤ length area.now }
    ensures { StandFor out.new (λ j. slice_index area.now (from + j)) }
{
    let words = &area[from..from + out.len()];
    if no_nans(words) {
        read_plain(words, out);
    } else {
        read_patterns(words, out);
    }
}

// Words of the number area, `stride` apart.
fn read_words(area: &[u64], from: usize, stride: i64, out: &mut [f64])
    requires { Walk Area area.now [] (length out.old ∷ []) (stride ∷ []) from }
    ensures { StandFor out.new (along Area area.now [] from stride) }
{
    for (i, x) in out.iter_mut().enumerate() {
        *x = float_of(area[step_to(from, stride, i)]);
    }
}

// The word at a byte, with all of its bytes there: one load.
// Stays: `read_u64` tests for each word what is known here of the whole run, and gives it in an Option.
pub(crate) fn word_at(bytes: &[u8], at: usize) -> u64
    requires { at + 8 ≤ length bytes.now }
    ensures { result ≡ word8 bytes.now at }
{
    u64::from_le_bytes([
        bytes[at],
        bytes[at + 1],
        bytes[at + 2],
        bytes[at + 3],
        bytes[at + 4],
        bytes[at + 5],
        bytes[at + 6],
        bytes[at + 7],
    ])
}

// Whether none of so many words from a byte on is a NaN's pattern.
pub(crate) fn no_nan_bytes(bytes: &[u8], base: usize, count: usize) -> bool
    requires { base + 8 * count ≤ length bytes.now }
    ensures { result ≡ true → (k : ℕ) → k < count → NoNan (word8 bytes.now (base + 8 * k)) }
{
    let mut seen = 0;
    // Stays: k is a word's number among bytes, and no element.
    for k in 0..count {
        seen = look(seen, word_at(bytes, base + 8 * k));
    }
    is_clear(seen)
}

// Numbers of an input, none of which is a NaN.
fn read_plain_bytes(bytes: &[u8], base: usize, out: &mut [f64])
    requires there { base + 8 * length out.old ≤ length bytes.now }
    requires plain { (k : ℕ) → k < length out.old → NoNan (word8 bytes.now (base + 8 * k)) }
    ensures { StandFor out.new (λ j. number_at bytes.now (base + 8 * j)) }
{
    for (i, x) in out.iter_mut().enumerate() {
        *x = plain_float(word_at(bytes, base + 8 * i));
    }
}

fn read_any_bytes(bytes: &[u8], base: usize, out: &mut [f64])
    requires { base + 8 * length out.old ≤ length bytes.now }
    ensures { StandFor out.new (λ j. number_at bytes.now (base + 8 * j)) }
{
    for (i, x) in out.iter_mut().enumerate() {
        *x = float_of(canonical(word_at(bytes, base + 8 * i)));
    }
}

// Numbers of an input that lie one after another from a byte on.
fn read_bytes_run(bytes: &[u8], base: usize, out: &mut [f64])
    requires { base + 8 * length out.old ≤ length bytes.now }
    ensures { StandFor out.new (λ j. number_at bytes.now (base + 8 * j)) }
{
    if no_nan_bytes(bytes, base, out.len()) {
        read_plain_bytes(bytes, base, out);
    } else {
        read_any_bytes(bytes, base, out);
    }
}

// Numbers of an input, `stride` apart.
fn read_numbers(bytes: &[u8], base: usize, from: usize, stride: i64, out: &mut [f64])
    requires { Walk (Input base) [] bytes.now (length out.old ∷ []) (stride ∷ []) from }
    ensures { StandFor out.new (along (Input base) [] bytes.now from stride) }
{
    for (i, x) in out.iter_mut().enumerate() {
        let Some(a) = read_number(bytes, base + 8 * step_to(from, stride, i)) else {
            return unreachable();
        };
        *x = float_of(a);
    }
}

// A row of places, at least one: the same number again, numbers one after another, or numbers `stride` apart.
pub fn read_row(source: Source, lent: Lent, from: usize, stride: i64, out: &mut [f64])
    requires walk { Walk source lent.area.now lent.bytes.now (length out.old ∷ []) (stride ∷ []) from }
    requires some { 0 < length out.old }
    ensures { StandFor out.new (along source lent.entry.area.now lent.entry.bytes.now from stride) }
{
    if stride == 0 {
        fill_with(float_of(number_at(source, lent, from)), out);
        return;
    }
    match source {
        Source::Area => {
            if stride == 1 {
                read_run(lent.area, from, out);
            } else {
                read_words(lent.area, from, stride, out);
            }
        }
        Source::Input(base) => {
            if stride == 1 {
                read_bytes_run(lent.bytes, base + 8 * from, out);
            } else {
                read_numbers(lent.bytes, base, from, stride, out);
            }
        }
    }
}
