//! Cell codes, for one cell and for many.
ghost use Rattle.std.specs.Prelude.{◌≡◌, ℕ, ◌<◌, length, slice_index};
ghost use Rattle.grid.specs.declared.cell.Cell.{Cell};
ghost use Rattle.cellcode.specs.Ring.{ring};
ghost use Rattle.cellcode.specs.Row.{row};
ghost use Rattle.spot_c.specs.Refusals.{answer_told};
ghost use Rattle.spot_c.specs.Told.{encoded, told as found_told, Found, EncodedEach, FoundEach};

use crate::refusal::{Refused, told};
use cellcode::{CellCode, RingCode, RowCode};
use grid::{Cell, Grid};

/// What stands for no cell.
const NONE: u64 = u64::MAX;

/// The number of the cell.
fn encode<C: CellCode>(codes: &C, side: u32, parent: Cell, cell: Cell) -> Result<u64, Refused>
    ensures { answer_told result ≡ encoded (C.CellCode.code codes.now) side parent cell }
{
    let grid = Grid::new(side)?;
    Ok(codes.encode(grid, parent, cell)?)
}

/// The cell that has the number, if there is one. On no grid there is none.
fn decode<C: CellCode>(codes: &C, side: u32, parent: Cell, number: u64) -> Option<Cell>
    ensures { Found (C.CellCode.code codes.now) side parent number (found_told result) }
{
    let grid = Grid::new(side).ok()?;
    codes.decode(grid, parent, number)
}

/// The cell that was found, as one number, or that there is none.
fn found(cell: Option<Cell>) -> u64
    ensures { result ≡ found_told cell }
{
    cell.map_or(NONE, u64::from)
}

/// Puts in the place of each number what `f` makes of it.
fn each<F: Fn(u64) -> u64>(numbers: &mut [u64], f: F)
    requires { F.IsAlwaysCallable f }
    ensures { (k : ℕ) → k < length numbers.old
        → F.post f (slice_index numbers.old k) (slice_index numbers.new k) }
{
    for number in numbers.iter_mut() {
        *number = f(*number);
    }
}

/// The ring code's number of cell (x, y) from a parent.
#[unsafe(no_mangle)]
pub extern "C" fn spot_ring_encode(side: u32, px: u32, py: u32, x: u32, y: u32) -> u64
    ensures { result ≡ encoded ring side (record { x = px; y = py }) (record { x = x; y = y }) }
{
    told(encode(&RingCode, side, Cell { x: px, y: py }, Cell { x, y }))
}

/// The row code's number of cell (x, y).
#[unsafe(no_mangle)]
pub extern "C" fn spot_row_encode(side: u32, px: u32, py: u32, x: u32, y: u32) -> u64
    ensures { result ≡ encoded row side (record { x = px; y = py }) (record { x = x; y = y }) }
{
    told(encode(&RowCode, side, Cell { x: px, y: py }, Cell { x, y }))
}

/// The cell of the ring code's number from a parent.
#[unsafe(no_mangle)]
pub extern "C" fn spot_ring_decode(side: u32, px: u32, py: u32, number: u64) -> u64
    ensures { Found ring side (record { x = px; y = py }) number result }
{
    found(decode(&RingCode, side, Cell { x: px, y: py }, number))
}

/// The cell of the row code's number.
#[unsafe(no_mangle)]
pub extern "C" fn spot_row_decode(side: u32, px: u32, py: u32, number: u64) -> u64
    ensures { Found row side (record { x = px; y = py }) number result }
{
    found(decode(&RowCode, side, Cell { x: px, y: py }, number))
}

/// The ring code's number of each cell, in its place.
#[unsafe(no_mangle)]
pub extern "C" fn spot_ring_encode_each(side: u32, px: u32, py: u32, cells: &mut [u64])
    ensures { EncodedEach ring side (record { x = px; y = py }) cells.old cells.new }
{
    let parent = Cell { x: px, y: py };
    each(
        cells,
        |cell| told(encode(&RingCode, side, parent, Cell::from(cell))),
    );
}

/// The row code's number of each cell, in its place.
#[unsafe(no_mangle)]
pub extern "C" fn spot_row_encode_each(side: u32, px: u32, py: u32, cells: &mut [u64])
    ensures { EncodedEach row side (record { x = px; y = py }) cells.old cells.new }
{
    let parent = Cell { x: px, y: py };
    each(
        cells,
        |cell| told(encode(&RowCode, side, parent, Cell::from(cell))),
    );
}

/// The cell of each of the ring code's numbers, in its place.
#[unsafe(no_mangle)]
pub extern "C" fn spot_ring_decode_each(side: u32, px: u32, py: u32, numbers: &mut [u64])
    ensures { FoundEach ring side (record { x = px; y = py }) numbers.old numbers.new }
{
    let parent = Cell { x: px, y: py };
    each(
        numbers,
        |number| found(decode(&RingCode, side, parent, number)),
    );
}

/// The cell of each of the row code's numbers, in its place.
#[unsafe(no_mangle)]
pub extern "C" fn spot_row_decode_each(side: u32, px: u32, py: u32, numbers: &mut [u64])
    ensures { FoundEach row side (record { x = px; y = py }) numbers.old numbers.new }
{
    let parent = Cell { x: px, y: py };
    each(
        numbers,
        |number| found(decode(&RowCode, side, parent, number)),
    );
}
