//! The row code: rows one after the other, whatever the parent.
ghost use Rattle.cellcode.specs.Row.{row};
ghost use Rattle.cellcode.specs.Rows.{row_laws};

use crate::CellCode;
use grid::{Cell, Grid};

/// Numbers the cells of a grid row by row, the same from every parent on the grid.
#[derive(Clone, Copy, Debug)]
pub struct RowCode;

impl CellCode for RowCode {
    ghost code = { λ s. row };

    ghost sound = { λ s. row_laws };

    fn number(&self, grid: Grid, _parent: Cell, cell: Cell) -> u64 {
        u64::from(cell.y) * u64::from(grid.side()) + u64::from(cell.x)
    }

    fn cell(&self, grid: Grid, _parent: Cell, number: u64) -> Option<Cell> {
        let side = u64::from(grid.side());
        let y = number / side;
        if y >= side {
            return None;
        }
        Some(Cell {
            x: (number % side) as u32,
            y: y as u32,
        })
    }
}
