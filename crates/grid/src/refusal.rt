//! Why no grid is made.
ghost use Rattle.std.specs.Prelude.{◌≡◌};
ghost use Rattle.grid.specs.Refusals.{number};

/// The side is not from 1 to 1,048,576.
#[derive(Clone, Copy, Debug, PartialEq, Eq)]
pub struct SideRefused;

/// The number by which this refusal is known.
impl From<SideRefused> for u8 {
    ghost from_gives = { λ refused n. n ≡ number refused };

    fn from(_refused: SideRefused) -> u8 {
        1
    }
}
