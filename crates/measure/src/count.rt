//! How many hits there are.
ghost use Rattle.std.specs.Prelude.{◌≡◌, ◌%◌, ◌^◌, length};
ghost use Rattle.measure.specs.Counts.{counts};
ghost use Rattle.measure.specs.Laws.{count_laws};
ghost use Rattle.measure.specs.Plain.{counted};

use crate::Measure;
use grid::Cell;

/// Counts hits, modulo 2^64.
#[derive(Clone, Copy, Debug, PartialEq, Eq)]
pub struct Count;

impl Measure for Count {
    type Figure = u64;

    ghost figures = { λ s. counts };

    ghost tells = { λ s hits n. n ≡ length hits % 2 ^ 64 };

    ghost sound = { λ s. count_laws };

    ghost told = { λ s. counted };

    fn none(&self) -> u64 {
        0
    }

    fn one(&self, _cell: Cell) -> u64 {
        1
    }

    fn join(&self, a: u64, b: u64) -> u64 {
        a.wrapping_add(b)
    }
}
