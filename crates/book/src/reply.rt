//! What a line is answered with.
ghost use Rattle.std.specs.Prelude.{◌≡◌};
ghost use Rattle.book.specs.Session.{reply};

use crate::Refused;
use line::{Command, NotUnderstood};

/// The answer to a line: the letter of its command, and what came of it. An accepted command tells the number of hits that
/// are then held, or nothing but that it is done.
#[derive(Clone, Copy, Debug, PartialEq, Eq)]
pub struct Reply {
    pub letter: u8,
    pub outcome: Result<Option<usize>, Refused>,
}

impl Reply {
    /// The reply to a line. A line that is not understood has no letter.
    pub fn new(
        line: Result<Command, NotUnderstood>,
        outcome: Result<Option<usize>, Refused>,
    ) -> Reply
        ensures { result ≡ reply line outcome }
    {
        Reply {
            letter: line.map_or(b'?', |command| command.letter()),
            outcome,
        }
    }
}
