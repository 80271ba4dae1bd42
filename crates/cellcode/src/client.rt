//! What code over any cell code can rely on.
ghost use Rattle.cellcode.specs.Codes.{RoundTrip, ComesBack};

use crate::{CellCode, OffGrid};
use grid::{Cell, Grid};

/// Encodes a cell and decodes its number, which gives the cell again.
pub fn round_trip<C: CellCode>(
    codes: &C,
    grid: Grid,
    parent: Cell,
    cell: Cell,
) -> Result<Option<Cell>, OffGrid>
    ensures result { RoundTrip grid.side parent cell result }
    ensures law { ComesBack (C.CellCode.code codes.now) grid.side parent cell }
{
    let number = codes.encode(grid, parent, cell)?;
    Ok(codes.decode(grid, parent, number))
}
