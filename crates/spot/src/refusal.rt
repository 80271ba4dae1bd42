//! Why no make is made, and why nothing is packed.
ghost use Rattle.std.specs.Prelude.{◌≡◌};
ghost use Rattle.spot.specs.Refusals.{make_number, pack_number};

/// The list does not reach 42 bits, which codes need.
#[derive(Clone, Copy, Debug, PartialEq, Eq)]
pub struct MakeRefused;

/// The number by which this refusal is known.
impl From<MakeRefused> for u8 {
    ghost from_gives = { λ refused n. n ≡ make_number refused };

    fn from(_refused: MakeRefused) -> u8 {
        11
    }
}

/// Why nothing is packed.
#[derive(Clone, Copy, Debug, PartialEq, Eq)]
pub enum PackRefused {
    /// The scratch for the codes is shorter than the hits held.
    NoScratch,
    /// The spot has more bytes than there are.
    NoRoom,
}

/// The number by which a refusal is known.
impl From<PackRefused> for u8 {
    ghost from_gives = { λ refused n. n ≡ pack_number refused };

    fn from(refused: PackRefused) -> u8 {
        match refused {
            PackRefused::NoScratch => 6,
            PackRefused::NoRoom => 5,
        }
    }
}
