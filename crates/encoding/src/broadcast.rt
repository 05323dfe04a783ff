// Broadcasting: shapes with their last lengths under each other, where a length of 1 goes with any other.
ghost use Rattle.std.specs.Prelude.{◌≡◌, true, false, ◌||◌, ◌==◌, reverse, MatchOption, slice_index_or};
ghost use Rattle.semantics.specs.Shapes.{pick};
ghost use Rattle.semantics.specs.Broadcast.{fit, wide};
ghost use Rattle.encoding.specs.ShapeOf.{shape_of};

use crate::shape::Shape;

// Length `k` from the last on, and 1 before the first.
fn length_from_last(shape: &Shape, k: usize) -> u32
    ensures { result ≡ slice_index_or (reverse (shape_of shape.now)) k 1 }
{
    match shape.rank.checked_sub(k.saturating_add(1)) {
        Some(at) => shape.lens[at],
        None => 1,
    }
}

// Whether a length goes with another.
fn lengths_fit(a: u32, b: u32) -> bool
    ensures { result ≡ (a == b || (a == 1 || b == 1)) }
{
    a == b || a == 1 || b == 1
}

// The length of two that go together.
fn wider(a: u32, b: u32) -> u32
    ensures { result ≡ pick (a == 1) b a }
{
    if a == 1 { b } else { a }
}

// Whether two shapes can be broadcast together.
pub fn can_broadcast(left: &Shape, right: &Shape) -> bool
    ensures { result ≡ fit (shape_of left.now) (shape_of right.now) }
{
    let lengths = left.lengths().iter().rev();
    let others = right.lengths().iter().rev();
    lengths.zip(others).all(|(&a, &b)| lengths_fit(a, b))
}

// The shape of two shapes together.
pub fn broadcast_shape(left: &Shape, right: &Shape) -> Shape
    ensures { shape_of result ≡ wide (shape_of left.now) (shape_of right.now) }
{
    let rank = left.rank.max(right.rank);
    let mut lens = [0; 8];
    // Stays: the axes are counted from the last on, and either shape may have fewer than the other.
    for k in 0..rank {
        lens[rank - 1 - k] = wider(length_from_last(left, k), length_from_last(right, k));
    }
    Shape { rank, lens }
}

// The shape to which two are broadcast, or none where they do not fit together.
pub fn broadcast(left: &Shape, right: &Shape) -> Option<Shape>
    ensures { MatchOption result (fit (shape_of left.now) (shape_of right.now) ≡ false) (λ s. (fit (shape_of left.now) (shape_of right.now) ≡ true) × (shape_of s ≡ wide (shape_of left.now) (shape_of right.now))) }
{
    can_broadcast(left, right).then(|| broadcast_shape(left, right))
}
