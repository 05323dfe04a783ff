// Bytes laid into a room from an index on. What falls outside the room is left out, and the index behind is given all
// the same: so a room of no bytes tells how long a text is.
ghost use Rattle.std.specs.Prelude.{◌+◌, ◌^◌, ◌<◌, ◌≤◌, [], ◌∷◌, length, decimal, slice_index_or};
ghost use Rattle.writer.specs.Overlay.{Laid};
ghost use Rattle.writer.specs.Spellings.{spellings};

pub(crate) fn put_byte(room: &mut [u8], at: usize, byte: u8) -> usize
    requires fits { at + 1 < 2 ^ 64 }
    ensures { Laid room.old at (byte ∷ []) room.new result }
{
    if at >= room.len() {
        return at + 1;
    }
    room[at] = byte;
    at + 1
}

pub(crate) fn put_bytes(room: &mut [u8], at: usize, text: &[u8]) -> usize
    requires fits { at + length text.now < 2 ^ 64 }
    ensures { Laid room.old at text.now room.new result }
{
    let mut behind = at;
    for b in text {
        behind = put_byte(room, behind, *b);
    }
    behind
}

// A number in decimal digits.
pub(crate) fn put_number(room: &mut [u8], at: usize, n: u32) -> usize
    requires fits { at + length (decimal n) < 2 ^ 64 }
    ensures laid { Laid room.old at (decimal n) room.new result }
    ensures short { result ≤ at + 10 }
{
    if n < 10 {
        return put_byte(room, at, b'0' + n as u8);
    }
    let front = put_number(room, at, n / 10);
    put_byte(room, front, b'0' + (n % 10) as u8)
}

// The spelling of name `k`, and nothing where there is none.
pub(crate) fn put_name(room: &mut [u8], at: usize, k: u32) -> usize
    requires fits { at + 2 < 2 ^ 64 }
    ensures laid { Laid room.old at (slice_index_or spellings k []) room.new result }
    ensures short { result ≤ at + 2 }
{
    if k >= 64 {
        return at;
    }
    let first = put_byte(room, at, b'a' + (k % 26) as u8);
    if k < 26 {
        return first;
    }
    put_byte(room, first, b'0' + (k / 26) as u8)
}
