// Arrays as text, from their bytes.
ghost use Rattle.std.specs.Prelude.{◌≡◌, ◌∷◌, ◌++◌, IfOk, decimal, OnOk};
ghost use Rattle.semantics.specs.Programs.{listed};
ghost use Rattle.encoding.specs.ShapeOf.{shape_of};
ghost use Rattle.encoding.specs.Format.{array_at};
ghost use Rattle.encoding.specs.Headers.{Heads};
ghost use Rattle.writer.specs.Listing.{shape_text, row_length, gap, numbers_text, Lists};

use crate::digits::hex_digits;
use encoding::header::{Header, header_at};
use encoding::shape::Shape;
use encoding::words::read_number;
use std::alloc::{AllocError, Global};

fn push_length(heap: Global, out: &mut Vec<u8>, len: u32) -> Result<(), AllocError>
    ensures { OnOk result (out.new.items ≡ out.old.items ++ 32 ∷ decimal len) }
{
    let text = len.to_string(heap)?;
    out.push(b' ')?;
    out.extend_from_slice(text.as_bytes())?;
    Ok(())
}

fn list_shape(heap: Global, out: &mut Vec<u8>, shape: &Shape) -> Result<(), AllocError>
    ensures { OnOk result (out.new.items ≡ out.old.items ++ shape_text (shape_of shape.now)) }
{
    out.extend_from_slice(b"shape")?;
    for len in shape.lengths() {
        push_length(heap, out, *len)?;
    }
    out.push(b'\n')?;
    Ok(())
}

// How many numbers a line has.
fn row_of(shape: &Shape) -> u64
    ensures { result ≡ row_length (shape_of shape.now) }
{
    shape.lengths().last().map_or(1, |len| u64::from(*len))
}

// A line's end behind the last number of a row, else a space.
fn gap_after(row: u64, count: u64) -> u8
    ensures { result ≡ gap row count }
{
    if row > 0 && count % row == 0 {
        b'\n'
    } else {
        b' '
    }
}

// The numbers of the array whose head was read at `at`.
fn list_numbers(out: &mut Vec<u8>, bytes: &[u8], at: usize, head: &Header) -> Result<(), AllocError>
    requires heads { Heads bytes.now at head.now }
    ensures { OnOk result (out.new.items ≡ out.old.items ++ numbers_text (row_length (shape_of head.now.shape)) 0 (listed (array_at bytes.now at)).numbers) }
{
    let row = row_of(&head.shape);
    let count = head.shape.size();
    // Stays: a number's place says what comes behind it, and its bytes are no slice of numbers.
    for k in 0..count {
        let Some(number) = read_number(bytes, head.start + 8 * k as usize) else {
            return unreachable();
        };
        out.extend_from_slice(&hex_digits(number))?;
        out.push(gap_after(row, k + 1))?;
    }
    Ok(())
}

// Appends the array at `at` as text and gives the index behind it; or none, with nothing appended, where there
// is no array.
pub fn list_array(
    heap: Global,
    out: &mut Vec<u8>,
    bytes: &[u8],
    at: usize,
) -> Result<Option<usize>, AllocError>
    ensures { IfOk result (λ n. Lists bytes.now at out.old.items out.new.items n) }
{
    let Ok(head) = header_at(bytes, at) else {
        return Ok(None);
    };
    list_shape(heap, out, &head.shape)?;
    list_numbers(out, bytes, at, &head)?;
    Ok(Some(head.next))
}
