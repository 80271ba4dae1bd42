//! Partition of a slice around a pivot.
ghost use Rattle.std.specs.Prelude.{◌≡◌, ◌<◌, length};
ghost use Rattle.std.specs.List.{swap};
ghost use Rattle.std.specs.List.Sorted.{IsPermutation};
ghost use Rattle.select.specs.Divisions.{Parted, Halved};

use crate::{Axis, Element};

/// Two elements trade places. Both are written in any case: `swap` tests the places first, and arranging by it takes a third
/// longer.
fn exchange<E: Element>(part: &mut [E], a: usize, b: usize)
    requires { (a < length part.old) × (b < length part.old) }
    ensures { part.new ≡ swap part.old a b }
{
    let element = part[a];
    part[a] = part[b];
    part[b] = element;
}

/// Gathers the elements that pass a test at the front, and tells where the others begin.
/// Every turn does the same writes at two places, and the test only moves the border: nothing here can be guessed wrong.
pub fn gather<E: Element, F: Fn(E) -> bool>(part: &mut [E], is_front: F) -> usize
    requires { F.IsAlwaysCallable is_front }
    ensures kept { IsPermutation part.old part.new }
    ensures parted { Parted (F.post is_front) (length part.old) result part.new }
{
    let mut border = 0;
    for next in 0..part.len() {
        let element = part[next];
        exchange(part, next, border);
        border += usize::from(is_front(element));
    }
    border
}

/// Brings the pivot, the element at `place`, to the place behind all elements before it, and tells that place.
pub fn halve<E: Element>(axis: Axis, part: &mut [E], place: usize) -> usize
    requires { place < length part.old }
    ensures kept { IsPermutation part.old part.new }
    ensures halved { Halved (E.Element.before axis) result part.new }
{
    let pivot = part[place];
    part.swap(0, place);
    let middle = gather(&mut part[1..], |element| element.is_before(pivot, axis));
    part.swap(0, middle);
    middle
}
