// Shown arrays as bytes.
ghost use Rattle.std.specs.Prelude.{◌≡◌, IfOk};
ghost use Rattle.encoding.specs.ShapeOf.{shape_of};
ghost use Rattle.encoding.specs.Writing.{head_bytes, array_bytes};

use crate::array::Array;
use encoding::shape::Shape;
use std::alloc::{AllocError, Global};

// The number of axes and the lengths.
fn encode_head(heap: Global, shape: Shape) -> Result<Vec<u8>, AllocError>
    ensures { IfOk result (λ v. v.items ≡ head_bytes (shape_of shape)) }
{
    let mut out = Vec::new(heap);
    out.push(shape.rank as u8)?;
    for len in shape.lengths() {
        out.extend_from_slice(&len.to_le_bytes())?;
    }
    Ok(out)
}

// The head and the numbers.
pub fn encode(heap: Global, array: &Array) -> Result<Vec<u8>, AllocError>
    ensures { IfOk result (λ v. v.items ≡ array_bytes (shape_of array.now.shape) array.now.numbers.items) }
{
    let mut out = encode_head(heap, array.shape)?;
    for number in &array.numbers {
        out.extend_from_slice(&number.to_le_bytes())?;
    }
    Ok(out)
}
