//! Arranging.
ghost use Rattle.std.specs.Prelude.{◌≡◌, ◌<◌, true, length, slice_index_or};
ghost use Rattle.std.specs.List.{All};
ghost use Rattle.select.specs.Selections.{Selected};
ghost use Rattle.arrange.specs.Computed.{tree};
ghost use Rattle.arrange.specs.Trees.{Arranges, middle};

use crate::same::is_level;
use select::{Axis, Element, select};

/// From so many elements on it pays to look first whether they are all the same.
const LOOKED: usize = 16;

/// Arranges elements as a tree: the whole is cut by x, its sides by y, and so on in turn.
pub fn arrange<E: Element>(elements: &mut [E])
    ensures arranges { Arranges E.Element.before Axis.X elements.old elements.new }
    ensures is { elements.new ≡ tree E.Element.before Axis.X elements.old }
{
    arrange_by(Axis::X, elements);
}

/// Arranges a part that is cut by an axis, and its sides by the other one. The sides are half as long, so calls nest no
/// deeper than the tree.
fn arrange_by<E: Element>(axis: Axis, part: &mut [E])
    ensures { Arranges E.Element.before axis part.old part.new }
{
    if part.len() < 2 || is_flat(part) {
        return;
    }
    let middle = cut(axis, part);
    let sides = axis.other();
    arrange_by(sides, &mut part[..middle]);
    arrange_by(sides, &mut part[middle + 1..]);
}

/// Whether a part has one element only, many times: then it is arranged as it is.
fn is_flat<E: Element>(part: &[E]) -> bool
    ensures { (d : E) → result ≡ true → All (λ e. e ≡ slice_index_or part.now 0 d) part.now }
{
    part.len() >= LOOKED && part.iter().all(|e| is_level(*e, part[0]))
}

/// Cuts a part: brings the element into the middle that belongs there by the axis, and tells the place of the middle.
fn cut<E: Element>(axis: Axis, part: &mut [E]) -> usize
    requires { 0 < length part.old }
    ensures place { result ≡ middle (length part.old) }
    ensures cut { Selected (E.Element.before axis) part.old result part.new }
{
    let place = (part.len() - 1) / 2;
    select(axis, part, place);
    place
}
