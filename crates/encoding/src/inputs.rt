// Inputs, one after another in lent bytes.
ghost use Rattle.std.specs.Prelude.{◌≡◌, ◌≤◌, length, MatchOption, MatchResult};
ghost use Rattle.encoding.specs.Format.{offsets, stop};
ghost use Rattle.encoding.specs.Inputs.{AllGood, BadAt, Found, Walked, WalkedAll};

use crate::header::{Flaw, Header, header_at};

// Which input is none, counted from 0, and why.
#[derive(Clone, Copy)]
pub struct BadInput {
    pub input: usize,
    pub flaw: Flaw,
}

// How many inputs were walked over, and where the next begins.
#[derive(Clone, Copy)]
struct Walk {
    count: usize,
    at: usize,
}

// Over `most` inputs, or over all there are where these are fewer.
fn walk_over(bytes: &[u8], most: usize) -> Walk
    ensures { Walked bytes.now most result }
{
    let mut at = 0;
    for count in 0..most {
        let Ok(head) = header_at(bytes, at) else {
            return Walk { count, at };
        };
        at = head.next;
    }
    Walk { count: most, at }
}

// Over all inputs: each takes a byte at least.
fn walk_all(bytes: &[u8]) -> Walk
    ensures { WalkedAll bytes.now result }
{
    walk_over(bytes, bytes.len())
}

// How many inputs there are, or the first that is cut short or has too many axes.
pub fn count_inputs(bytes: &[u8]) -> Result<usize, BadInput>
    ensures { MatchResult result (λ n. AllGood bytes.now n) (λ b. BadAt bytes.now b) }
{
    let Walk { count, at } = walk_all(bytes);
    match header_at(bytes, at) {
        Err(flaw) if at < bytes.len() => Err(BadInput { input: count, flaw }),
        _ => Ok(count),
    }
}

// Input `index`, or none where there are not so many.
pub fn find_input(bytes: &[u8], index: usize) -> Option<Header>
    ensures { MatchOption result (length (offsets bytes.now) ≤ index) (λ h. Found bytes.now index h) }
{
    header_at(bytes, walk_over(bytes, index).at).ok()
}

// Behind the last of the arrays that lie whole in the bytes, one after another from the first byte on.
pub fn whole_end(bytes: &[u8]) -> usize
    ensures { result ≡ stop bytes.now }
{
    walk_all(bytes).at
}
