//! Pivots for slices of few elements. Any place serves: a good one leaves less to do.
ghost use Rattle.std.specs.Prelude.{◌≡◌, ◌<◌, length, count_by};

use crate::{Axis, Element};

/// Up to so many elements are counted through, so that the first pivot is already the wanted element.
pub const COUNTED: usize = 12;

/// From so many elements on, the middle of nine makes up for its cost.
const MIDDLE_OF_NINE: usize = 48;

/// The place of a pivot, by few of the elements.
pub fn near_pivot<E: Element>(axis: Axis, part: &[E], at: usize) -> usize
    requires { at < length part.now }
    ensures { result < length part.now }
{
    let count = part.len();
    if count <= COUNTED {
        return place_of_rank(axis, part, at);
    }
    if count < MIDDLE_OF_NINE {
        return middle_of_three(axis, part, 0, count / 2, count - 1);
    }
    middle_of_nine(axis, part)
}

/// The place of an element that has so many elements before it.
/// Where many are level none may have: then that of one with the next smaller number, which is level with the wanted one.
pub fn place_of_rank<E: Element>(axis: Axis, part: &[E], rank: usize) -> usize
    requires { 0 < length part.now }
    ensures { result < length part.now }
{
    let mut most = 0;
    let mut nearest = 0;
    for (place, element) in part.iter().enumerate() {
        let before = count_before(axis, part, *element);
        if before == rank {
            return place;
        }
        if before < rank && before >= most {
            most = before;
            nearest = place;
        }
    }
    nearest
}

/// How many elements are before this one. A `filter(..).count()` branches at each test, which takes twice as long.
fn count_before<E: Element>(axis: Axis, part: &[E], element: E) -> usize
    ensures { result ≡ count_by (λ e. E.Element.before axis e element) part.now }
{
    let mut count = 0;
    for other in part {
        count += usize::from(other.is_before(element, axis));
    }
    count
}

/// The place of the middle one of nine elements at even distances, by three groups of three.
fn middle_of_nine<E: Element>(axis: Axis, part: &[E]) -> usize
    requires { 0 < length part.now }
    ensures { result < length part.now }
{
    let step = part.len() / 9;
    let first = middle_of_three(axis, part, 0, step, 2 * step);
    let second = middle_of_three(axis, part, 3 * step, 4 * step, 5 * step);
    let third = middle_of_three(axis, part, 6 * step, 7 * step, 8 * step);
    middle_of_three(axis, part, first, second, third)
}

/// The place of the middle one of three elements.
fn middle_of_three<E: Element>(axis: Axis, part: &[E], a: usize, b: usize, c: usize) -> usize
    requires { (a < length part.now) × (b < length part.now) × (c < length part.now) }
    ensures { result < length part.now }
{
    let first = part[a];
    let second = part[b];
    let third = part[c];
    let rises = first.is_before(second, axis);
    if rises == second.is_before(third, axis) {
        return b;
    }
    if rises == first.is_before(third, axis) {
        return c;
    }
    a
}
