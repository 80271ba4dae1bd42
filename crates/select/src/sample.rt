//! Samples, whose middle is the pivot of a large slice.
ghost use Rattle.std.specs.Prelude.{◌≡◌, ◌/◌, ◌^◌, ◌<◌, ◌≤◌, length};
ghost use Rattle.std.specs.List.Sorted.{IsPermutation};

use crate::pivot::place_of_rank;
use crate::{Axis, Element};

/// So many elements at the front of a slice, of which the one that order puts at `place` is to be the pivot.
#[derive(Clone, Copy)]
pub struct Sample {
    pub count: usize,
    pub place: usize,
    ghost inside: { place < count },
}

/// A sample at even distances. Its pivot is likely a little past the wanted element, on the side with more elements, so
/// that the smaller side is left: a sample of n^(2/3) / 2 elements errs by about the root of that, n^(1/3), in its own places.
pub fn draw_even<E: Element>(part: &mut [E], at: usize) -> Sample
    requires { (at < length part.old) × (2 ≤ length part.old) }
    ensures kept { IsPermutation part.old part.new }
    ensures count { result.count < length part.old }
{
    let root = cube_root(part.len());
    let stride = 2 * root;
    let count = gather_even(part, stride);
    let near = at / stride;
    let place = if at < part.len() - at {
        near + root
    } else {
        near.saturating_sub(root)
    };
    Sample {
        count,
        place: place.min(count - 1),
    }
}

/// A power of two near the cube root.
fn cube_root(number: usize) -> usize
    requires { 0 < number }
    ensures { (0 < result) × (result < 2 ^ 32) }
{
    1 << (number.ilog2() / 3)
}

/// Brings every element that is so many places from the last one to the front, and tells how many these are. By index, since
/// elements trade places within the slice.
fn gather_even<E: Element>(part: &mut [E], stride: usize) -> usize
    requires { (2 ≤ length part.old) × (2 ≤ stride) }
    ensures kept { IsPermutation part.old part.new }
    ensures count { (0 < result) × (result < length part.old) }
{
    let count = part.len().div_ceil(stride);
    for place in 0..count {
        part.swap(place, place * stride);
    }
    count
}

/// A sample of the middles of each five elements, whose own middle has about three in ten of all elements or more on either
/// side, in whatever order these stand.
pub fn draw_middles<E: Element>(axis: Axis, part: &mut [E]) -> Sample
    requires { 5 ≤ length part.old }
    ensures kept { IsPermutation part.old part.new }
    ensures count { result.count < length part.old }
{
    let count = gather_middles(axis, part);
    Sample {
        count,
        place: count / 2,
    }
}

/// Brings the middle one of each five elements to the front, and tells how many these are. By index, for the same reason.
fn gather_middles<E: Element>(axis: Axis, part: &mut [E]) -> usize
    ensures kept { IsPermutation part.old part.new }
    ensures count { result ≡ length part.old / 5 }
{
    let count = part.len() / 5;
    for place in 0..count {
        let five = 5 * place;
        let middle = five + place_of_rank(axis, &part[five..five + 5], 2);
        part.swap(place, middle);
    }
    count
}
