//! Whole runs of calls that end with packing.
ghost use Rattle.std.specs.Prelude.{◌≡◌, map, length};
ghost use Rattle.sheet.specs.Counts.{counts, answers};
ghost use Rattle.sheet.specs.Runs.{call_of, answer_of};
ghost use Rattle.spot.specs.Packs.{Packs, SameBytes};
ghost use Rattle.spot.specs.Spots.{meant};

use crate::{Make, PackRefused, pack};
use cellcode::CellCode;
use grid::{Cell, Grid};
use numlist::NumberList;
use sheet::{Entry, run_new};

/// Makes the calls of a journal on a new sheet, writes each answer beside its call, and packs the sheet. Whatever the order
/// of the calls, the bytes are those of the counts: two runs with the same counts pack to the same bytes.
pub fn run_and_pack<C: CellCode, L: NumberList>(
    make: &Make<C, L>,
    grid: Grid,
    cells: &mut [Cell],
    journal: &mut [Entry],
    scratch: &mut [u64],
    out: &mut [u8],
) -> Result<usize, PackRefused>
    ensures packs { Packs (meant make.now) grid.side (counts grid.side (length cells.old) (map call_of journal.old)) (length scratch.old) out.old out.new result }
    ensures answers { map answer_of journal.new ≡ answers grid.side (length cells.old) (map call_of journal.old) }
    ensures calls { map call_of journal.new ≡ map call_of journal.old }
    ensures one { SameBytes (meant make.now) }
{
    let mut sheet = run_new(grid, cells, journal);
    pack(make, &mut sheet, scratch, out)
}
