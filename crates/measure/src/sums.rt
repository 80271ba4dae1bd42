//! Where hits lie on the whole.
ghost use Rattle.std.specs.Prelude.{◌≡◌};
ghost use Rattle.measure.specs.Sums.{sums, totals};
ghost use Rattle.measure.specs.Laws.{sums_laws};
ghost use Rattle.measure.specs.Plain.{summed};

use crate::Measure;
use grid::Cell;

/// Sums of x, of y and of x² + y² over hits, each modulo 2^64.
#[derive(Clone, Copy, Debug, PartialEq, Eq)]
pub struct Totals {
    pub x: u64,
    pub y: u64,
    pub squares: u64,
}

/// Adds up the coordinates of hits and the squares of their distances from the corner.
#[derive(Clone, Copy, Debug, PartialEq, Eq)]
pub struct Sums;

impl Measure for Sums {
    type Figure = Totals;

    ghost figures = { λ s. sums };

    ghost tells = { λ s hits sum. sum ≡ totals hits };

    ghost sound = { λ s. sums_laws };

    ghost told = { λ s. summed };

    fn none(&self) -> Totals {
        Totals {
            x: 0,
            y: 0,
            squares: 0,
        }
    }

    fn one(&self, cell: Cell) -> Totals {
        let x = u64::from(cell.x);
        let y = u64::from(cell.y);
        Totals {
            x,
            y,
            squares: x.wrapping_mul(x).wrapping_add(y.wrapping_mul(y)),
        }
    }

    fn join(&self, a: Totals, b: Totals) -> Totals {
        Totals {
            x: a.x.wrapping_add(b.x),
            y: a.y.wrapping_add(b.y),
            squares: a.squares.wrapping_add(b.squares),
        }
    }
}
