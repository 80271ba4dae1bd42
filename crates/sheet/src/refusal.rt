//! Why a sheet refuses a call.
ghost use Rattle.std.specs.Prelude.{◌≡◌};
ghost use Rattle.sheet.specs.Refusals.{number};

/// Why a sheet refuses a call.
#[derive(Clone, Copy, Debug, PartialEq, Eq)]
pub enum Refusal {
    /// The cell is off the grid.
    OffGrid,
    /// The sheet has no place left.
    Full,
    /// The cell is not held.
    NotHeld,
}

/// The number by which a refusal is known.
impl From<Refusal> for u8 {
    ghost from_gives = { λ refused n. n ≡ number refused };

    fn from(refused: Refusal) -> u8 {
        match refused {
            Refusal::OffGrid => 2,
            Refusal::Full => 3,
            Refusal::NotHeld => 4,
        }
    }
}
