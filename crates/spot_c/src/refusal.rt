//! Why an exported function refuses what it is asked, and how that is told in one number.
ghost use Rattle.std.specs.Prelude.{◌≡◌, ◌^◌, ◌<◌};
ghost use Rattle.spot_c.specs.Lists.{refused};
ghost use Rattle.spot_c.specs.Refusals.{fault_number, number, answer_told};
ghost use Rattle.spot_c.specs.declared.refusal.Refused.{Refused};

use cellcode::OffGrid;
use grid::SideRefused;
use numlist::{ListFault, OpenRefused, ReadRefused, WriteRefused};
use pile::PileRefused;
use sheet::Refusal;
use spot::{MakeRefused, PackRefused};

/// Refusals are told by their number above this.
const REFUSED: u64 = 1 << 63;

/// No cell code has the number.
#[derive(Clone, Copy, Debug, PartialEq, Eq)]
pub(crate) struct NoCode;

/// Why an exported function refuses: the refusal of the layer that it asked.
#[derive(Clone, Copy, Debug, PartialEq, Eq)]
pub(crate) enum Refused {
    Side(SideRefused),
    OffGrid(OffGrid),
    Sheet(Refusal),
    Pile(PileRefused),
    Write(WriteRefused),
    Open(OpenRefused),
    Read(ReadRefused),
    Make(MakeRefused),
    Pack(PackRefused),
    Code(NoCode),
}

impl Refused {
    /// The number of a refusal: that of its layer, and of faulty bytes also their test and level.
    fn number(self) -> u64
        ensures value { result ≡ number self }
        ensures small { result < 2 ^ 32 }
    {
        let number = match self {
            Refused::Open(OpenRefused::Faulty(fault)) => return fault_number(fault),
            Refused::Read(ReadRefused::Faulty(fault)) => return fault_number(fault),
            Refused::Side(why) => u8::from(why),
            Refused::OffGrid(why) => u8::from(why),
            Refused::Sheet(why) => u8::from(why),
            Refused::Pile(why) => u8::from(why),
            Refused::Write(why) => u8::from(why),
            Refused::Open(why) => u8::from(why),
            Refused::Read(why) => u8::from(why),
            Refused::Make(why) => u8::from(why),
            Refused::Pack(why) => u8::from(why),
            Refused::Code(NoCode) => 11,
        };
        u64::from(number)
    }
}

/// The number of a fault of bytes, with its test and its level above. No pile has 255 levels.
fn fault_number(fault: ListFault) -> u64
    ensures value { result ≡ fault_number fault }
    ensures small { result < 2 ^ 32 }
{
    13 + 256 * u64::from(u8::from(fault.test)) + 65_536 * fault.level.min(255) as u64
}

/// A refusal in one number that is no answer.
impl From<Refused> for u64 {
    ghost from_gives = { λ why n. n ≡ refused (number why) };

    fn from(why: Refused) -> u64 {
        REFUSED + why.number()
    }
}

/// The answer of an exported function: what it found, or its refusal.
pub(crate) fn told(answer: Result<u64, Refused>) -> u64
    ensures { result ≡ answer_told answer }
{
    answer.unwrap_or_else(u64::from)
}

impl From<SideRefused> for Refused {
    ghost from_gives = { λ why whole. whole ≡ Refused.Side why };

    fn from(side: SideRefused) -> Refused {
        Refused::Side(side)
    }
}

impl From<OffGrid> for Refused {
    ghost from_gives = { λ why whole. whole ≡ Refused.OffGrid why };

    fn from(cell: OffGrid) -> Refused {
        Refused::OffGrid(cell)
    }
}

impl From<Refusal> for Refused {
    ghost from_gives = { λ why whole. whole ≡ Refused.Sheet why };

    fn from(put: Refusal) -> Refused {
        Refused::Sheet(put)
    }
}

impl From<PileRefused> for Refused {
    ghost from_gives = { λ why whole. whole ≡ Refused.Pile why };

    fn from(pile: PileRefused) -> Refused {
        Refused::Pile(pile)
    }
}

impl From<WriteRefused> for Refused {
    ghost from_gives = { λ why whole. whole ≡ Refused.Write why };

    fn from(write: WriteRefused) -> Refused {
        Refused::Write(write)
    }
}

impl From<OpenRefused> for Refused {
    ghost from_gives = { λ why whole. whole ≡ Refused.Open why };

    fn from(open: OpenRefused) -> Refused {
        Refused::Open(open)
    }
}

impl From<ReadRefused> for Refused {
    ghost from_gives = { λ why whole. whole ≡ Refused.Read why };

    fn from(read: ReadRefused) -> Refused {
        Refused::Read(read)
    }
}

impl From<MakeRefused> for Refused {
    ghost from_gives = { λ why whole. whole ≡ Refused.Make why };

    fn from(make: MakeRefused) -> Refused {
        Refused::Make(make)
    }
}

impl From<PackRefused> for Refused {
    ghost from_gives = { λ why whole. whole ≡ Refused.Pack why };

    fn from(pack: PackRefused) -> Refused {
        Refused::Pack(pack)
    }
}

impl From<NoCode> for Refused {
    ghost from_gives = { λ why whole. whole ≡ Refused.Code why };

    fn from(code: NoCode) -> Refused {
        Refused::Code(code)
    }
}
