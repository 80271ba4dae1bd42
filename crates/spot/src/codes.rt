//! The codes of a tree.
ghost use Rattle.std.specs.Prelude.{◌≡◌, ℕ, ◌<◌, ◌≤◌, true, length, slice_index_or};
ghost use Rattle.grid.specs.Cells.{on, origin};
ghost use Rattle.spot.specs.Codes.{codes_to, root};

use cellcode::CellCode;
use grid::{Cell, Grid};

/// The root of a tree, or the origin where it is empty.
pub(crate) fn root(tree: &[Cell]) -> Cell
    ensures { result ≡ root tree.now }
{
    let middle = tree.len().saturating_sub(1) / 2;
    tree.get(middle).copied().unwrap_or(Cell { x: 0, y: 0 })
}

/// Puts the code of each cell of a part in its place: that of the middle against the parent, those of both sides against
/// the middle. The sides are half as long, so calls nest no deeper than the tree. A part of one cell has no sides to call
/// for, which saves half of the calls.
pub(crate) fn put_codes<C: CellCode>(
    code: &C,
    grid: Grid,
    parent: Cell,
    part: &[Cell],
    out: &mut [u64],
)
    requires long { length out.old ≡ length part.now }
    requires parent { on grid.side parent ≡ true }
    requires placed { (k : ℕ) → k < length part.now → on grid.side (slice_index_or part.now k origin) ≡ true }
    ensures { (depth : ℕ) → length part.now ≤ depth → out.new ≡ codes_to depth (C.CellCode.code code.now grid.side) parent part.now }
{
    if part.is_empty() {
        return;
    }
    let middle = (part.len() - 1) / 2;
    let cut = part[middle];
    out[middle] = code.number(grid, parent, cut);
    if part.len() < 2 {
        return;
    }
    put_codes(code, grid, cut, &part[..middle], &mut out[..middle]);
    put_codes(code, grid, cut, &part[middle + 1..], &mut out[middle + 1..]);
}
