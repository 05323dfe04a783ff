// Writing arrays into lent bytes: what does not fit is not begun.
ghost use Rattle.std.specs.Prelude.{◌≡◌, ◌+◌, ◌<◌, ◌≤◌, length, MatchOption};
ghost use Rattle.encoding.specs.Words.{bytes4, bytes8, written};
ghost use Rattle.encoding.specs.Writing.{Writes, head_bytes, number_bytes, array_bytes};
ghost use Rattle.encoding.specs.ShapeOf.{shape_of};

use crate::shape::Shape;

// Behind `size` more bytes from `at` on, or none where they do not fit into `room` bytes.
fn end_of(room: usize, at: usize, size: usize) -> Option<usize>
    ensures { MatchOption result (room < at + size) (λ e. (e ≡ at + size) × (e ≤ room)) }
{
    at.checked_add(size).filter(|end| *end <= room)
}

fn put(room: &mut [u8], at: usize, bytes: &[u8])
    requires { at + length bytes.now ≤ length room.old }
    ensures { room.new ≡ written room.old at bytes.now }
{
    room[at..at + bytes.len()].copy_from_slice(bytes);
}

// The number of axes and the lengths at `at`; gives the index behind them, or none, with nothing written,
// where they do not fit.
pub fn write_head(room: &mut [u8], at: usize, shape: Shape) -> Option<usize>
    ensures { Writes room.old room.new at (head_bytes (shape_of shape)) result }
{
    let end = end_of(room.len(), at, 1 + 4 * shape.rank)?;
    room[at] = shape.rank as u8;
    for (k, len) in shape.lengths().iter().enumerate() {
        put(room, at + 1 + 4 * k, &len.to_le_bytes());
    }
    Some(end)
}

// Numbers one after another at `at`; gives the index behind them, or none, with nothing written, where they
// do not fit.
pub fn write_numbers(room: &mut [u8], at: usize, numbers: &[u64]) -> Option<usize>
    ensures { Writes room.old room.new at (number_bytes numbers.now) result }
{
    let end = end_of(room.len(), at, 8 * numbers.len())?;
    for (k, number) in numbers.iter().enumerate() {
        put(room, at + 8 * k, &number.to_le_bytes());
    }
    Some(end)
}

// A whole array at `at`; gives the index behind it, or none, with nothing written, where it does not fit.
pub fn write_array(room: &mut [u8], at: usize, shape: Shape, numbers: &[u64]) -> Option<usize>
    ensures { Writes room.old room.new at (array_bytes (shape_of shape) numbers.now) result }
{
    end_of(room.len(), at, 1 + 4 * shape.rank + 8 * numbers.len())?;
    let start = write_head(room, at, shape)?;
    write_numbers(room, start, numbers)
}
