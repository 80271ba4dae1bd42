//! Why a line is refused.
ghost use Rattle.std.specs.Prelude.{◌≡◌};
ghost use Rattle.book.specs.Refusals.{number};
ghost use Rattle.book.specs.declared.refusal.Refused.TheVariants.{Side, Sheet, Line};

use grid::SideRefused;
use line::NotUnderstood;
use sheet::Refusal;

/// Why a line is refused.
#[derive(Clone, Copy, Debug, PartialEq, Eq)]
pub enum Refused {
    /// The grid's side is out of range.
    Side(SideRefused),
    /// The sheet refuses the call.
    Sheet(Refusal),
    /// The line is not understood where it stands.
    Line(NotUnderstood),
}

/// The number by which this refusal is known.
impl From<Refused> for u8 {
    ghost from_gives = { λ refused n. n ≡ number refused };

    fn from(refused: Refused) -> u8 {
        match refused {
            Refused::Side(refused) => u8::from(refused),
            Refused::Sheet(refused) => u8::from(refused),
            Refused::Line(refused) => u8::from(refused),
        }
    }
}

impl From<SideRefused> for Refused {
    ghost from_gives = { λ refused r. r ≡ Side refused };

    fn from(refused: SideRefused) -> Refused {
        Refused::Side(refused)
    }
}

impl From<Refusal> for Refused {
    ghost from_gives = { λ refused r. r ≡ Sheet refused };

    fn from(refused: Refusal) -> Refused {
        Refused::Sheet(refused)
    }
}

impl From<NotUnderstood> for Refused {
    ghost from_gives = { λ refused r. r ≡ Line refused };

    fn from(refused: NotUnderstood) -> Refused {
        Refused::Line(refused)
    }
}
