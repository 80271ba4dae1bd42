//! What can be selected.
ghost use Rattle.std.specs.Prelude.{◌≡◌, Bool};
ghost use Rattle.select.specs.Orders.{TotalOrders, other};
ghost use Rattle.select.specs.declared.element.Axis.{Axis};

/// The coordinate that is compared first.
#[derive(Clone, Copy, Debug, PartialEq, Eq)]
pub enum Axis {
    X,
    Y,
}

impl Axis {
    /// The axis that compares the other coordinate first.
    pub fn other(self) -> Axis
        ensures { result ≡ other self }
    {
        match self {
            Axis::X => Axis::Y,
            Axis::Y => Axis::X,
        }
    }
}

/// An element with two total orders, one for each axis.
pub trait Element: Copy {
    /// Whether the first comes before the second in the order of an axis.
    ghost before: { Axis → Self → Self → Bool };

    /// Whether this element comes before the other in the order of an axis.
    fn is_before(self, other: Self, axis: Axis) -> bool
        ensures { result ≡ before axis self other };

    /// Each order is total, and only the same element is neither before nor behind.
    ghost total: { TotalOrders before };
}
