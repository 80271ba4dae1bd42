//! Why a number list refuses a call.
ghost use Rattle.std.specs.Prelude.{◌≡◌};
ghost use Rattle.numlist.specs.Refusals.{write_number, open_number, read_number, cut_number};
ghost use Rattle.numlist.specs.declared.refusal.OpenRefused.{OpenRefused};
ghost use Rattle.numlist.specs.declared.refusal.ReadRefused.{ReadRefused};

use crate::ListFault;

/// Why numbers are not written.
#[derive(Clone, Copy, Debug, PartialEq, Eq)]
pub enum WriteRefused {
    /// There are more than 1,048,576 numbers.
    TooMany,
    /// A number has more bits than the list reaches.
    TooLarge,
    /// The string has more bytes than there are.
    NoRoom,
}

/// Why bytes are not opened.
#[derive(Clone, Copy, Debug, PartialEq, Eq)]
pub enum OpenRefused {
    /// More than 1,048,576 numbers are asked for.
    TooMany,
    /// The bytes begin with no string of so many numbers.
    Faulty(ListFault),
}

/// Why a number is not read.
#[derive(Clone, Copy, Debug, PartialEq, Eq)]
pub enum ReadRefused {
    /// More than 1,048,576 numbers are asked for.
    TooMany,
    /// There is no number at that place.
    NoNumber,
    /// The bytes begin with no string of so many numbers.
    Faulty(ListFault),
}

/// Why a list is not made: its own bits are too few or too many.
#[derive(Clone, Copy, Debug, PartialEq, Eq)]
pub struct WidthRefused;

/// Why a cut is not made.
#[derive(Clone, Copy, Debug, PartialEq, Eq)]
pub enum CutRefused {
    /// Its own bits are too few or too many.
    Width,
    /// It has more than 64 bits with the list below.
    Reach,
}

/// The bytes are faulty.
impl From<ListFault> for OpenRefused {
    ghost from_gives = { λ fault refused. refused ≡ OpenRefused.Faulty fault };

    fn from(fault: ListFault) -> OpenRefused {
        OpenRefused::Faulty(fault)
    }
}

/// The bytes are faulty.
impl From<ListFault> for ReadRefused {
    ghost from_gives = { λ fault refused. refused ≡ ReadRefused.Faulty fault };

    fn from(fault: ListFault) -> ReadRefused {
        ReadRefused::Faulty(fault)
    }
}

/// The number by which this refusal is known.
impl From<WriteRefused> for u8 {
    ghost from_gives = { λ refused n. n ≡ write_number refused };

    fn from(refused: WriteRefused) -> u8 {
        match refused {
            WriteRefused::TooMany => 11,
            WriteRefused::TooLarge => 11,
            WriteRefused::NoRoom => 5,
        }
    }
}

/// The number by which this refusal is known.
impl From<OpenRefused> for u8 {
    ghost from_gives = { λ refused n. n ≡ open_number refused };

    fn from(refused: OpenRefused) -> u8 {
        match refused {
            OpenRefused::TooMany => 11,
            OpenRefused::Faulty(_) => 13,
        }
    }
}

/// The number by which this refusal is known.
impl From<ReadRefused> for u8 {
    ghost from_gives = { λ refused n. n ≡ read_number refused };

    fn from(refused: ReadRefused) -> u8 {
        match refused {
            ReadRefused::TooMany => 11,
            ReadRefused::NoNumber => 11,
            ReadRefused::Faulty(_) => 13,
        }
    }
}

/// The number by which this refusal is known.
impl From<WidthRefused> for u8 {
    ghost from_gives = { λ refused n. n ≡ 10 };

    fn from(_refused: WidthRefused) -> u8 {
        u8::from(CutRefused::Width)
    }
}

/// The number by which this refusal is known.
impl From<CutRefused> for u8 {
    ghost from_gives = { λ refused n. n ≡ cut_number refused };

    fn from(refused: CutRefused) -> u8 {
        match refused {
            CutRefused::Width => 10,
            CutRefused::Reach => 11,
        }
    }
}
