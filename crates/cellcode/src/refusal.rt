//! Why a cell gets no number.
ghost use Rattle.std.specs.Prelude.{◌≡◌};
ghost use Rattle.cellcode.specs.Refusals.{number};

/// The cell or its parent is off the grid.
#[derive(Clone, Copy, Debug, PartialEq, Eq)]
pub struct OffGrid;

/// The number by which this refusal is known.
impl From<OffGrid> for u8 {
    ghost from_gives = { λ refused n. n ≡ number refused };

    fn from(_refused: OffGrid) -> u8 {
        2
    }
}
