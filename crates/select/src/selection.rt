//! Selection.
ghost use Rattle.std.specs.Prelude.{◌≡◌, ◌+◌, ◌-◌, ◌<◌, ◌≤◌, true, length};
ghost use Rattle.std.specs.List.Sorted.{IsPermutation};
ghost use Rattle.select.specs.Divisions.{Narrowed};
ghost use Rattle.select.specs.Selections.{Selected, Settled};

use crate::partition::{gather, halve};
use crate::pivot::{COUNTED, near_pivot};
use crate::sample::{Sample, draw_even, draw_middles};
use crate::{Axis, Element};
use std::ops::Range;

/// Where at most one in so many elements is before the pivot, many may be level with it.
const FEW: usize = 16;

/// From so many elements on, a pivot is taken from a sample.
const SAMPLED: usize = 1_024;

/// After so many bad rounds a pivot is taken that surely has a fair share of the elements on either side.
const MOST_BAD: usize = 8;

/// Brings to place `at` the element that order puts there: none to its left is greater and none to its right is smaller.
/// By `select_nth_unstable_by` of the library, arranging random cells takes half as long again.
pub fn select<E: Element>(axis: Axis, part: &mut [E], at: usize)
    ensures { Selected (E.Element.before axis) part.old at part.new }
{
    if at < part.len() {
        settle(axis, part, at, 0);
    }
}

/// Brings to place `at` the element that order puts there, after so many bad rounds: a round is bad if it leaves more than
/// seven eighths of the elements.
/// On any input the work is in proportion to the elements: all rounds but a few leave at most fifteen sixteenths of them.
#[cycle(choose_settle)]
fn settle<E: Element>(axis: Axis, part: &mut [E], at: usize, bad: usize)
    requires { at < length part.old }
    ensures kept { IsPermutation part.old part.new }
    ensures settled { Settled (E.Element.before axis) part.new at }
{
    let count = part.len();
    if count < 2 {
        return;
    }
    let place = choose(axis, part, at, bad);
    let left = narrow(axis, part, at, place);
    let bad = bad.saturating_add(usize::from(left.len() > count / 8 * 7));
    let at = at - left.start;
    settle(axis, &mut part[left], at, bad);
}

/// The place of a pivot. It may move elements.
#[cycle(choose_settle)]
fn choose<E: Element>(axis: Axis, part: &mut [E], at: usize, bad: usize) -> usize
    requires { at < length part.old }
    ensures kept { IsPermutation part.old part.new }
    ensures place { result < length part.old }
{
    if !is_sampled(part.len(), bad) {
        return near_pivot(axis, part, at);
    }
    let sample = draw(axis, part, at, bad);
    settle(axis, &mut part[..sample.count], sample.place, 0);
    sample.place
}

/// Whether a sample makes up for its cost: in a large slice, and after many bad rounds in all but the smallest.
fn is_sampled(count: usize, bad: usize) -> bool
    ensures { result ≡ true → 5 ≤ count }
{
    if bad < MOST_BAD {
        count >= SAMPLED
    } else {
        count > COUNTED
    }
}

/// A sample that is likely good, and after many bad rounds one that surely is.
fn draw<E: Element>(axis: Axis, part: &mut [E], at: usize, bad: usize) -> Sample
    requires { (at < length part.old) × (5 ≤ length part.old) }
    ensures kept { IsPermutation part.old part.new }
    ensures count { result.count < length part.old }
{
    if bad < MOST_BAD {
        return draw_even(part, at);
    }
    draw_middles(axis, part)
}

/// Divides the elements at a pivot, the one at `place`, and tells the places among which `at` is left.
fn narrow<E: Element>(axis: Axis, part: &mut [E], at: usize, place: usize) -> Range<usize>
    requires { (at < length part.old) × (place < length part.old) }
    ensures kept { IsPermutation part.old part.new }
    ensures narrowed { Narrowed (E.Element.before axis) at result.start result.end part.new }
    ensures smaller { 1 < length part.old → result.end - result.start < length part.old }
{
    let middle = halve(axis, part, place);
    if at < middle {
        return 0..middle;
    }
    if at == middle {
        return at..at + 1;
    }
    if middle > part.len() / FEW {
        return middle + 1..part.len();
    }
    let pivot = part[middle];
    let level = gather(
        &mut part[middle + 1..],
        |element| !pivot.is_before(element, axis),
    );
    let border = middle + 1 + level;
    if at < border {
        return at..at + 1;
    }
    border..part.len()
}
