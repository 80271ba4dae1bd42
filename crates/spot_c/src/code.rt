//! The cell code of a number.
ghost use Rattle.spot_c.specs.Codes.{Names};

use crate::refusal::NoCode;

/// A cell code that is chosen at run time.
#[derive(Clone, Copy, Debug, PartialEq, Eq)]
pub(crate) enum Code {
    Ring,
    Row,
}

/// The cell code that callers know by a number.
impl TryFrom<u32> for Code {
    type Error = NoCode;

    ghost try_from_gives = { Names };

    fn try_from(number: u32) -> Result<Code, NoCode> {
        match number {
            0 => Ok(Code::Ring),
            1 => Ok(Code::Row),
            _ => Err(NoCode),
        }
    }
}
