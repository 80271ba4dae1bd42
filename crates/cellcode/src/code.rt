//! What a cell code is.
ghost use Rattle.std.specs.Prelude.{◌≡◌, ℕ, true};
ghost use Rattle.grid.specs.declared.cell.Cell.{Cell};
ghost use Rattle.grid.specs.Cells.{on};
ghost use Rattle.cellcode.specs.Codes.{CodeLaws, Encoded, Decodes};

use crate::OffGrid;
use grid::{Cell, Grid};

/// A way to store a cell as a number that says where it lies from its parent cell.
///
/// `encode` and `decode` are for everyone. `number` and `cell` are for callers that know that the cells which they name lie
/// on the grid, and test nothing.
pub trait CellCode {
    /// The number of a cell: by the side of the grid, the parent and the cell.
    ghost code: { Self → ℕ → Cell → Cell → ℕ };

    /// The number of a cell of the grid from a parent on it.
    fn number(&self, grid: Grid, parent: Cell, cell: Cell) -> u64
        requires parent { on grid.side parent ≡ true }
        requires cell { on grid.side cell ≡ true }
        ensures { result ≡ code self.now grid.side parent cell };

    /// The cell that has this number from a parent on the grid. There is none for many numbers.
    fn cell(&self, grid: Grid, parent: Cell, number: u64) -> Option<Cell>
        requires { on grid.side parent ≡ true }
        ensures { Decodes (code self.now) grid.side parent number result };

    /// The number of the cell, if it and its parent lie on the grid.
    fn encode(&self, grid: Grid, parent: Cell, cell: Cell) -> Result<u64, OffGrid>
        ensures { Encoded (code self.now) grid.side parent cell result }
    {
        if !(grid.has(parent) && grid.has(cell)) {
            return Err(OffGrid);
        }
        Ok(self.number(grid, parent, cell))
    }

    /// The cell that has this number. There is none for many numbers, and none if the parent is off the grid.
    fn decode(&self, grid: Grid, parent: Cell, number: u64) -> Option<Cell>
        ensures { Decodes (code self.now) grid.side parent number result }
    {
        if !grid.has(parent) {
            return None;
        }
        self.cell(grid, parent, number)
    }

    /// Each number is below 2^42, and from one parent no two cells of a grid have the same.
    ghost sound: { (s : Self) → CodeLaws (code s) };
}
