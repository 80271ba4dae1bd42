//! Why no pile is made.
ghost use Rattle.std.specs.Prelude.{◌≡◌};
ghost use Rattle.pile.specs.Piles.{of_cut};
ghost use Rattle.pile.specs.Refusals.{number};
ghost use Rattle.pile.specs.declared.refusal.PileRefused.{PileRefused};

use numlist::{CutRefused, WidthRefused};

/// Why no pile is made.
#[derive(Clone, Copy, Debug, PartialEq, Eq)]
pub enum PileRefused {
    /// The width of the fixed list or of a cut is out of range.
    Width,
    /// The pile would reach more than 64 bits.
    Reach,
    /// There are more than four cuts.
    TooMany,
}

/// The fixed list is not made.
impl From<WidthRefused> for PileRefused {
    ghost from_gives = { λ refused pile. pile ≡ PileRefused.Width };

    fn from(_refused: WidthRefused) -> PileRefused {
        Self::Width
    }
}

/// A cut is not made.
impl From<CutRefused> for PileRefused {
    ghost from_gives = { λ refused pile. pile ≡ of_cut refused };

    fn from(refused: CutRefused) -> PileRefused {
        match refused {
            CutRefused::Width => PileRefused::Width,
            CutRefused::Reach => PileRefused::Reach,
        }
    }
}

/// The number by which this refusal is known.
impl From<PileRefused> for u8 {
    ghost from_gives = { λ refused n. n ≡ number refused };

    fn from(refused: PileRefused) -> u8 {
        match refused {
            PileRefused::Width => 10,
            PileRefused::Reach => 11,
            PileRefused::TooMany => 11,
        }
    }
}
