//! The ring code: a square spiral around the parent.
ghost use Rattle.std.specs.Prelude.{◌≡◌, ◌+◌, ◌*◌, ◌<◌, ◌≤◌, pos, MatchOption};
ghost use Rattle.cellcode.specs.Ring.{ring, along, step, first};
ghost use Rattle.cellcode.specs.Spiral.{far, across, down, Coordinate, InRing};
ghost use Rattle.cellcode.specs.Rings.{ring_laws};

use crate::CellCode;
use grid::{Cell, Grid};

/// Numbers the cells ring by ring around the parent, so that a near cell has a small number.
#[derive(Clone, Copy, Debug)]
pub struct RingCode;

impl CellCode for RingCode {
    ghost code = { λ s. ring };

    ghost sound = { λ s. ring_laws };

    fn number(&self, _grid: Grid, parent: Cell, cell: Cell) -> u64 {
        let d = parent.x.abs_diff(cell.x).max(parent.y.abs_diff(cell.y));
        if d == 0 {
            return 0;
        }
        let ring = Ring { d };
        ring.first() + u64::from(ring.step(parent, cell))
    }

    fn cell(&self, grid: Grid, parent: Cell, number: u64) -> Option<Cell> {
        let ring = Ring::of(number)?;
        let (across, down) = ring.place((number - ring.first()) as u32);
        let x = ring.coordinate(grid, parent.x, across)?;
        let y = ring.coordinate(grid, parent.y, down)?;
        Some(Cell { x, y })
    }
}

/// The cells whose distance from the parent is `d`, the greater of those by columns and by rows. A grid of the longest side
/// has no ring further out.
#[derive(Clone, Copy)]
struct Ring {
    d: u32,
    ghost small: { d ≤ 1048576 },
}

impl Ring {
    /// The ring that has the number, if the number is below 2^42: (2d - 1)² ≤ number < (2d + 1)².
    fn of(number: u64) -> Option<Ring>
        ensures { MatchOption result (4398046511104 ≤ number) (λ ring. InRing number ring.d) }
    {
        if number >= NUMBERS {
            return None;
        }
        Some(Ring {
            d: ((root(number) + 1) / 2) as u32,
        })
    }

    /// The first number of the ring.
    fn first(self) -> u64
        ensures { result ≡ first self.d }
    {
        let odd = (2 * u64::from(self.d)).saturating_sub(1);
        odd * odd
    }

    /// The step along the ring that leads to the cell.
    fn step(self, parent: Cell, cell: Cell) -> u32
        requires some { 1 ≤ self.d }
        requires far { far parent cell ≡ self.d }
        requires small { (parent.x < 1048576) × (parent.y < 1048576) }
        ensures { pos result ≡ step (pos self.d) (along parent.x cell.x) (along parent.y cell.y) }
    {
        let d = self.d;
        if cell.x == parent.x + d && cell.y + d > parent.y {
            return d + parent.y - cell.y;
        }
        if cell.y + d == parent.y && cell.x + d > parent.x {
            return 3 * d + parent.x - cell.x;
        }
        if cell.x + d == parent.x && cell.y < parent.y + d {
            return 5 * d + cell.y - parent.y;
        }
        7 * d + cell.x - parent.x
    }

    /// The place of the step in the square of the rings up to this one, by its column and its row: along the last column to
    /// lower rows, along the first row to lower columns, along the first column to higher rows, along the last row to
    /// higher columns. There is no branch, since the side of the next number cannot be predicted.
    fn place(self, step: u32) -> (u32, u32)
        ensures across { result.0 ≡ across self.d step }
        ensures down { result.1 ≡ down self.d step }
    {
        let d = self.d;
        let across = (4 * d)
            .saturating_sub(step)
            .min(2 * d)
            .max(step.saturating_sub(6 * d));
        let down = step
            .saturating_sub(4 * d)
            .min(2 * d)
            .max((2 * d).saturating_sub(step));
        (across, down)
    }

    /// The coordinate of the cell at that place around the parent's coordinate `from`, if the grid has it.
    fn coordinate(self, grid: Grid, from: u32, place: u32) -> Option<u32>
        ensures { Coordinate grid.side from self.d place result }
    {
        let at = from.saturating_add(place).checked_sub(self.d)?;
        (at < grid.side()).then_some(at)
    }
}

/// No number of a cell is that large: 2^42.
const NUMBERS: u64 = 4_398_046_511_104;

/// No root of a number below 2^42 is that large: 2^21.
const ROOTS: u64 = 2_097_152;

/// The square root, rounded down.
fn root(number: u64) -> u64
    requires { number < 4398046511104 }
    ensures root { result * result ≤ number }
    ensures next { number < (result + 1) * (result + 1) }
    ensures bound { result ≤ 2097152 }
{
    let root = near_root(number);
    if root * root <= number && number < (root + 1) * (root + 1) {
        return root;
    }
    number.isqrt()
}

/// The square root, rounded down, by two of Heron's steps. Between 4^k and 4^(k + 1) they start on the line
/// number / (3 · 2^k) + 2^k · 45 / 64, which is within 4 % of the root. Tried at both ends of each root below 2^21 this is
/// exact; no proof relies on that.
fn near_root(number: u64) -> u64
    requires { number < 4398046511104 }
    ensures { result ≤ 2097152 }
{
    let number = number.max(1);
    let half = number.ilog2() / 2;
    let first = (number >> half) / 3 + (45 << half) / 64 + 1;
    let second = (first + number / first) / 2 + 1;
    let third = ((second + number / second) / 2).min(ROOTS);
    if third * third > number {
        third - 1
    } else {
        third
    }
}
