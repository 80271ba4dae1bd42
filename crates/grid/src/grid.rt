//! The grid that the cells lie on.
ghost use Rattle.std.specs.Prelude.{◌≡◌, ◌≤◌, is_ok, IfOk};
ghost use Rattle.grid.specs.Cells.{on};
ghost use Rattle.grid.specs.Sides.{allowed};

use crate::{Cell, SideRefused};

/// The longest side of a grid.
const MOST_SIDE: u32 = 1_048_576;

/// A square grid of cells, with coordinates from 0 to side - 1.
#[derive(Clone, Copy, Debug)]
pub struct Grid {
    side: u32,
    ghost low: { 1 ≤ side },
    ghost high: { side ≤ 1048576 },
}

impl Grid {
    /// The grid of this side, which is from 1 to 1,048,576.
    pub fn new(side: u32) -> Result<Grid, SideRefused>
        ensures when { is_ok result ≡ allowed side }
        ensures made { IfOk result (λ g. g.side ≡ side) }
    {
        if !(1..=MOST_SIDE).contains(&side) {
            return Err(SideRefused);
        }
        Ok(Grid { side })
    }

    /// How many cells the grid has in a row and in a column.
    pub fn side(self) -> u32
        ensures { result ≡ self.side }
    {
        self.side
    }

    /// Whether the cell lies on the grid.
    pub fn has(self, cell: Cell) -> bool
        ensures { result ≡ on self.side cell }
    {
        cell.x < self.side && cell.y < self.side
    }
}
