// The head of an array in bytes: its shape, and where its numbers lie.
ghost use Rattle.std.specs.Prelude.{◌≡◌, ◌+◌, ◌*◌, ◌<◌, ◌≤◌, true, false, length, take, MatchOption, MatchResult};
ghost use Rattle.semantics.specs.Shapes.{size};
ghost use Rattle.encoding.specs.Format.{rank_at, words_at, shape_at, start_at, next_at, good_at};
ghost use Rattle.encoding.specs.Headers.{Heads, Flawed};

use crate::shape::Shape;
use crate::words::read_u32;

#[derive(Clone, Copy)]
pub struct Header {
    pub shape: Shape,
    // where the numbers begin
    pub start: usize,
    // behind the last number
    pub next: usize,
}

// Why bytes are no array.
#[derive(Clone, Copy, PartialEq, Eq)]
pub enum Flaw {
    // the bytes end before it does
    Short,
    // more than 8 axes
    Axes,
}

// The array that begins at `at`. Lengths whose product passes what the bytes can hold are short.
pub fn header_at(bytes: &[u8], at: usize) -> Result<Header, Flaw>
    ensures { MatchResult result (λ h. Heads bytes.now at h) (λ f. Flawed bytes.now at f) }
{
    let Some(rank) = bytes.get(at) else {
        return Err(Flaw::Short);
    };
    let rank = usize::from(*rank);
    if rank > 8 {
        return Err(Flaw::Axes);
    }
    let Some(lens) = read_lens(bytes, at + 1, rank) else {
        return Err(Flaw::Short);
    };
    let shape = Shape { rank, lens };
    let start = at + 1 + 4 * rank;
    let places = shape.size();
    if places > ((bytes.len() - start) / 8) as u64 {
        return Err(Flaw::Short);
    }
    let next = start + 8 * places as usize;
    Ok(Header { shape, start, next })
}

// The first `count` lengths, of four bytes each, from `at` on, or none where the slice ends before they do.
fn read_lens(bytes: &[u8], at: usize, count: usize) -> Option<[u32; 8]>
    requires few { count ≤ 8 }
    requires there { at ≤ length bytes.now }
    ensures { MatchOption result (length bytes.now < at + 4 * count) (λ lens. (at + 4 * count ≤ length bytes.now) × (take count lens ≡ words_at bytes.now at count)) }
{
    let mut lens = [0; 8];
    for (k, len) in lens[..count].iter_mut().enumerate() {
        *len = read_u32(bytes, at + 4 * k)?;
    }
    Some(lens)
}
