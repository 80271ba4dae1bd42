//! Packing: the spot of hits that are given one by one.
ghost use Rattle.std.specs.Prelude.{◌≡◌, true, length, OnOk, Ok};
ghost use Rattle.std.specs.Result.{result_err};
ghost use Rattle.grid.specs.Sides.{allowed};
ghost use Rattle.pile.specs.Piles.{pile_of};
ghost use Rattle.sheet.specs.Counts.{counts_from};
ghost use Rattle.sheet.specs.Memory.{places, hits as hits_of, tally};
ghost use Rattle.spot.specs.Spots.{meant};
ghost use Rattle.spot_c.specs.Refusals.{answer_told};
ghost use Rattle.spot_c.specs.Spots.{puts, first_refusal, code_by, made_by, HitsTold};

use crate::code::Code;
use crate::refusal::{Refused, told};
use cellcode::{CellCode, RingCode, RowCode};
use grid::{Cell, Grid};
use numlist::NumberList;
use pile::new_pile;
use sheet::{Refusal, Sheet};
use spot::{Make, pack};

/// Puts the hits up to the first that is refused.
fn put_each(sheet: &mut Sheet<'_>, hits: &[u64]) -> Result<(), Refusal>
    ensures first { result_err result
        ≡ first_refusal sheet.old.grid.side (places sheet.old.lent) (tally (hits_of sheet.old.lent)) (puts hits.now) }
    ensures counts { OnOk result (tally (hits_of sheet.new.lent)
        ≡ counts_from sheet.old.grid.side (places sheet.old.lent) (tally (hits_of sheet.old.lent)) (puts hits.now)) }
    ensures grid { sheet.new.grid ≡ sheet.old.grid }
{
    for hit in hits {
        sheet.put(Cell::from(*hit))?;
    }
    Ok(())
}

/// Puts the hits on a new sheet and packs it. Gives the bytes that the spot has.
fn pack_hits<C: CellCode, L: NumberList>(
    make: &Make<C, L>,
    grid: Grid,
    hits: &[u64],
    cells: &mut [Cell],
    scratch: &mut [u64],
    out: &mut [u8],
) -> Result<u64, Refused>
    ensures { HitsTold true (Ok (meant make.now)) grid.side (length cells.old) hits.now
        (length scratch.old) out.old out.new (answer_told result) }
{
    let mut sheet = Sheet::new(grid, cells);
    put_each(&mut sheet, hits)?;
    Ok(pack(make, &mut sheet, scratch, out)? as u64)
}

/// Puts hits, each a cell in one number, on a new sheet in the memory lent, and packs it: by the ring code (0) or the row
/// code (1), a fixed list of so many bits under cuts of these widths, the lowest first, and a make number. Tells how many
/// bytes the spot has, or the refusal.
#[unsafe(no_mangle)]
pub extern "C" fn spot_pack(
    code: u32,
    bits: u32,
    cuts: &[u32],
    number: u16,
    side: u32,
    hits: &[u64],
    cells: &mut [Cell],
    scratch: &mut [u64],
    out: &mut [u8],
) -> u64
    ensures { HitsTold (allowed side) (made_by (code_by code) (pile_of bits cuts.now) number) side (length cells.old)
        hits.now (length scratch.old) out.old out.new result }
{
    told(pack_new(code, bits, cuts, number, side, hits, cells, scratch, out))
}

/// The same before it is told in one number. The memory stays three slices, as C lends it: a struct of them would owe in each
/// contract that its fields still lend what they lent.
fn pack_new(
    code: u32,
    bits: u32,
    cuts: &[u32],
    number: u16,
    side: u32,
    hits: &[u64],
    cells: &mut [Cell],
    scratch: &mut [u64],
    out: &mut [u8],
) -> Result<u64, Refused>
    ensures { HitsTold (allowed side) (made_by (code_by code) (pile_of bits cuts.now) number) side (length cells.old)
        hits.now (length scratch.old) out.old out.new (answer_told result) }
{
    let grid = Grid::new(side)?;
    let pile = new_pile(bits, cuts)?;
    match Code::try_from(code)? {
        Code::Ring => {
            let make = Make::new(RingCode, pile, number)?;
            pack_hits(&make, grid, hits, cells, scratch, out)
        }
        Code::Row => {
            let make = Make::new(RowCode, pile, number)?;
            pack_hits(&make, grid, hits, cells, scratch, out)
        }
    }
}
