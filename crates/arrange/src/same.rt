//! Lists with the same elements have the same tree.
ghost use Rattle.std.specs.Prelude.{◌≡◌, Decides};
ghost use Rattle.arrange.specs.Trees.{Arranges, EquallyOften, OneArrangement, level};

use crate::arrange;
use select::{Axis, Element};

/// Arranges two lists, and tells whether they have every element equally often. There is one arrangement of the same
/// elements, so then, and only then, both lists are now the same one.
pub fn same_tree<E: Element>(a: &mut [E], b: &mut [E]) -> bool
    ensures tells { Decides result (EquallyOften E.Element.before a.old b.old) }
    ensures one { OneArrangement E.Element.before }
    ensures first { Arranges E.Element.before Axis.X a.old a.new }
    ensures second { Arranges E.Element.before Axis.X b.old b.new }
{
    arrange(a);
    arrange(b);
    equal(a, b)
}

/// Whether two lists are the same, place by place.
fn equal<E: Element>(a: &[E], b: &[E]) -> bool
    ensures { Decides result (a.now ≡ b.now) }
{
    a.len() == b.len() && a.iter().zip(b).all(|(e, f)| is_level(*e, *f))
}

/// Whether two elements are the same: neither is before the other.
pub fn is_level<E: Element>(e: E, f: E) -> bool
    ensures { result ≡ level E.Element.before e f }
{
    !e.is_before(f, Axis::X) && !f.is_before(e, Axis::X)
}
