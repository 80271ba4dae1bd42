//! Why a line is no command.
ghost use Rattle.std.specs.Prelude.{◌≡◌};
ghost use Rattle.line.specs.Refusals.{number};

/// The line is not understood: it is no command, or not one that may stand where it stands.
#[derive(Clone, Copy, Debug, PartialEq, Eq)]
pub struct NotUnderstood;

/// The number by which this refusal is known.
impl From<NotUnderstood> for u8 {
    ghost from_gives = { λ refused n. n ≡ number refused };

    fn from(_refused: NotUnderstood) -> u8 {
        17
    }
}
