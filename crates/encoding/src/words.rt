// Words of four and eight bytes, low byte first, in lent byte slices.
// Stays: a slice and an index, not a slice from there on: what callers keep of a lent slice are indices into it.
ghost use Rattle.std.specs.Prelude.{◌≡◌, ◌+◌, ◌<◌, ◌≤◌, length, MatchOption, slice_range};
ghost use Rattle.encoding.specs.Words.{word4, word8};
ghost use Rattle.encoding.specs.Format.{number_at};

use numbers::canonical;

// The `N` bytes at `at`, or none where the slice ends before they do.
fn bytes_at<const N: usize>(bytes: &[u8], at: usize) -> Option<[u8; N]>
    ensures { MatchOption result (length bytes.now < at + N) (λ w. (at + N ≤ length bytes.now) × (w ≡ slice_range bytes.now at (at + N))) }
{
    let end = at.checked_add(N)?;
    Some(*bytes.get(at..end)?.first_chunk()?)
}

// The word of four bytes at `at`, or none where the slice ends before it does.
pub fn read_u32(bytes: &[u8], at: usize) -> Option<u32>
    ensures { MatchOption result (length bytes.now < at + 4) (λ x. (at + 4 ≤ length bytes.now) × (x ≡ word4 bytes.now at)) }
{
    Some(u32::from_le_bytes(bytes_at(bytes, at)?))
}

// The word of eight bytes at `at`, or none where the slice ends before it does.
pub fn read_u64(bytes: &[u8], at: usize) -> Option<u64>
    ensures { MatchOption result (length bytes.now < at + 8) (λ x. (at + 8 ≤ length bytes.now) × (x ≡ word8 bytes.now at)) }
{
    Some(u64::from_le_bytes(bytes_at(bytes, at)?))
}

// The number at `at`, a NaN of any bits as the one, or none where the slice ends before it does.
pub fn read_number(bytes: &[u8], at: usize) -> Option<u64>
    ensures { MatchOption result (length bytes.now < at + 8) (λ x. (at + 8 ≤ length bytes.now) × (x ≡ number_at bytes.now at)) }
{
    Some(canonical(read_u64(bytes, at)?))
}
