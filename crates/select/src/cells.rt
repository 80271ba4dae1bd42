//! Cells as elements: one number for each axis compares them.
ghost use Rattle.std.specs.Prelude.{◌≡◌, ◌+◌, ◌*◌, ◌^◌};
ghost use Rattle.select.specs.CellOrders.{before, first, second};
ghost use Rattle.select.specs.Keys.{cells_total};

use crate::{Axis, Element};
use grid::Cell;

impl Element for Cell {
    ghost before = { before };

    ghost total = { cells_total };

    fn is_before(self, other: Cell, axis: Axis) -> bool {
        key(self, axis) < key(other, axis)
    }
}

/// A cell as one number, on top the coordinate that the axis compares first: cells compare as their numbers do. Tuples of the
/// coordinates compare by branches, and arranging random cells then takes twice as long.
fn key(cell: Cell, axis: Axis) -> u64
    ensures { result ≡ first axis cell * 2 ^ 32 + second axis cell }
{
    match axis {
        Axis::X => u64::from(cell),
        Axis::Y => u64::from(Cell {
            x: cell.y,
            y: cell.x,
        }),
    }
}
