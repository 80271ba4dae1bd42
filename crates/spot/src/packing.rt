//! Packing.
ghost use Rattle.std.specs.Prelude.{◌≡◌, ℕ, ◌+◌, ◌*◌, ◌<◌, ◌≤◌, true, length, is_ok, slice_index_or};
ghost use Rattle.grid.specs.Cells.{on, origin};
ghost use Rattle.sheet.specs.Arranged.{Keeps};
ghost use Rattle.sheet.specs.Memory.{hits, tally};
ghost use Rattle.spot.specs.Packs.{Packs, spot_answer, left_by};
ghost use Rattle.spot.specs.Spots.{meant, spot};

use crate::codes::{put_codes, root};
use crate::{Make, PackRefused, TRAILER_BYTES, Trailer};
use cellcode::CellCode;
use grid::{Cell, Grid};
use numlist::NumberList;
use sheet::Sheet;

/// Packs the hits of a sheet into the bytes, and tells how many bytes the spot has. Refused or not, the hits may lie in
/// another order then, and none comes or goes. The scratch takes the codes, and may hold anything afterwards. A scratch as
/// long as the hits, and for n hits (n + 16) × reach + 24 bytes, are always enough.
pub fn pack<C: CellCode, L: NumberList>(
    make: &Make<C, L>,
    sheet: &mut Sheet<'_>,
    scratch: &mut [u64],
    out: &mut [u8],
) -> Result<usize, PackRefused>
    ensures packs { Packs (meant make.now) sheet.old.grid.side (tally (hits sheet.old.lent)) (length scratch.old) out.old out.new result }
    ensures fits { length (hits sheet.old.lent) ≤ length scratch.old → (length (hits sheet.old.lent) + 16) * (L.NumberList.meaning make.now.list).reach + 24 ≤ length out.old → is_ok result ≡ true }
    ensures keeps { Keeps sheet.old sheet.new }
{
    let held = sheet.held();
    if scratch.len() < held {
        return Err(PackRefused::NoScratch);
    }
    sheet.arrange();
    write_spot(make, sheet.grid(), sheet.hits(), &mut scratch[..held], out)
}

/// Writes the spot of a tree.
fn write_spot<C: CellCode, L: NumberList>(
    make: &Make<C, L>,
    grid: Grid,
    tree: &[Cell],
    codes: &mut [u64],
    out: &mut [u8],
) -> Result<usize, PackRefused>
    requires long { length codes.old ≡ length tree.now }
    requires few { length tree.now ≤ 1048576 }
    requires placed { (k : ℕ) → k < length tree.now → on grid.side (slice_index_or tree.now k origin) ≡ true }
    ensures answer { result ≡ spot_answer (spot (meant make.now) grid.side tree.now) (length out.old) }
    ensures bytes { out.new ≡ left_by (spot (meant make.now) grid.side tree.now) out.old (is_ok result) }
{
    let root = root(tree);
    put_codes(&make.code, grid, root, tree, codes);
    let room = out
        .len()
        .checked_sub(TRAILER_BYTES)
        .ok_or(PackRefused::NoRoom)?;
    let length = make
        .list
        .write(codes, &mut out[..room])
        .map_err(|_| PackRefused::NoRoom)?;
    let trailer = Trailer {
        length: length as u32,
        hits: tree.len() as u32,
        root,
        side: grid.side(),
        make: make.number,
    };
    trailer.put(&mut out[length..]);
    Ok(length + TRAILER_BYTES)
}
