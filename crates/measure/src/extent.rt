//! How far hits reach.
ghost use Rattle.measure.specs.Extents.{Smallest, extents};
ghost use Rattle.measure.specs.Laws.{extent_laws};
ghost use Rattle.measure.specs.Plain.{smallest};

use crate::Measure;
use grid::Cell;

/// The least and the greatest x, `left` and `right`, and the least and the greatest y, `low` and `high`, of hits. Of no
/// hit each least is 4,294,967,295 and each greatest 0.
#[derive(Clone, Copy, Debug, PartialEq, Eq)]
pub struct Bounds {
    pub left: u32,
    pub right: u32,
    pub low: u32,
    pub high: u32,
}

/// Finds the smallest box that has all hits.
#[derive(Clone, Copy, Debug, PartialEq, Eq)]
pub struct Extent;

impl Measure for Extent {
    type Figure = Bounds;

    ghost figures = { λ s. extents };

    ghost tells = { λ s hits box. Smallest hits box };

    ghost sound = { λ s. extent_laws };

    ghost told = { λ s. smallest };

    fn none(&self) -> Bounds {
        Bounds {
            left: u32::MAX,
            right: 0,
            low: u32::MAX,
            high: 0,
        }
    }

    fn one(&self, cell: Cell) -> Bounds {
        Bounds {
            left: cell.x,
            right: cell.x,
            low: cell.y,
            high: cell.y,
        }
    }

    fn join(&self, a: Bounds, b: Bounds) -> Bounds {
        Bounds {
            left: a.left.min(b.left),
            right: a.right.max(b.right),
            low: a.low.min(b.low),
            high: a.high.max(b.high),
        }
    }
}
