//! Number lists: piles that are given by their widths.
ghost use Rattle.std.specs.Prelude.{◌≡◌, ◌≤◌, [], ◌∷◌, length, IfSome, Ok};
ghost use Rattle.numlist.specs.Cuts.{cut};
ghost use Rattle.numlist.specs.Fixed.{fixed};
ghost use Rattle.pile.specs.Piles.{pile_of};
ghost use Rattle.spot_c.specs.Lists.{pile_write_told, pile_written, pile_open_told, ReadTold, PileReadTold};
ghost use Rattle.spot_c.specs.Refusals.{answer_told, done_told};

use crate::refusal::{Refused, told};
use numlist::{Count, Cut, Fixed, NumberList, ReadRefused};
use pile::new_pile;

/// Writes the string of the numbers at the front of the bytes, by a fixed list of so many bits under cuts of these
/// widths, the lowest first. Tells the length of the string, or the refusal.
#[unsafe(no_mangle)]
pub extern "C" fn spot_list_write(bits: u32, cuts: &[u32], numbers: &[u64], out: &mut [u8]) -> u64
    ensures answer { result ≡ pile_write_told (pile_of bits cuts.now) numbers.now (length out.old) }
    ensures bytes { out.new ≡ pile_written (pile_of bits cuts.now) numbers.now out.old }
{
    told(write(bits, cuts, numbers, out))
}

/// Writes the string, and gives its length.
fn write(bits: u32, cuts: &[u32], numbers: &[u64], out: &mut [u8]) -> Result<u64, Refused>
    ensures answer { answer_told result ≡ pile_write_told (pile_of bits cuts.now) numbers.now (length out.old) }
    ensures bytes { out.new ≡ pile_written (pile_of bits cuts.now) numbers.now out.old }
{
    let pile = new_pile(bits, cuts)?;
    Ok(pile.write(numbers, out)? as u64)
}

/// The length of the string of so many numbers with which the bytes begin, or the refusal.
#[unsafe(no_mangle)]
pub extern "C" fn spot_list_open(bits: u32, cuts: &[u32], bytes: &[u8], count: usize) -> u64
    ensures { result ≡ pile_open_told (pile_of bits cuts.now) bytes.now count }
{
    told(open(bits, cuts, bytes, count))
}

/// The length of the string.
fn open(bits: u32, cuts: &[u32], bytes: &[u8], count: usize) -> Result<u64, Refused>
    ensures { answer_told result ≡ pile_open_told (pile_of bits cuts.now) bytes.now count }
{
    let pile = new_pile(bits, cuts)?;
    Ok(pile.open(bytes, count)? as u64)
}

/// Puts the number at each place in that place, up to the first refusal, and tells that or 0.
#[unsafe(no_mangle)]
pub extern "C" fn spot_list_read(
    bits: u32,
    cuts: &[u32],
    bytes: &[u8],
    count: usize,
    places: &mut [u64],
) -> u64
    ensures { PileReadTold (pile_of bits cuts.now) bytes.now count places.old places.new result }
{
    told(read(bits, cuts, bytes, count, places).map(|()| 0))
}

/// Reads the places of a string. Two cuts are read as a type of their own: reading looks through no layers then, which
/// takes half the time.
fn read(
    bits: u32,
    cuts: &[u32],
    bytes: &[u8],
    count: usize,
    places: &mut [u64],
) -> Result<(), Refused>
    ensures { PileReadTold (pile_of bits cuts.now) bytes.now count places.old places.new (done_told result) }
{
    if let [lower, upper] = *cuts {
        if let Some(list) = two_cuts(bits, lower, upper) {
            return read_each(&list, bytes, count, places);
        }
    }
    let pile = new_pile(bits, cuts)?;
    read_each(&pile, bytes, count, places)
}

/// The pile of two cuts as a type of its own, where it can be made.
fn two_cuts(bits: u32, lower: u32, upper: u32) -> Option<Cut<Cut<Fixed>>>
    ensures { IfSome result (λ list. pile_of bits (lower ∷ upper ∷ [])
        ≡ Ok (cut list.width.bits (cut list.below.width.bits (fixed list.below.below.width.bits)))) }
{
    let fixed = Fixed::new(bits).ok()?;
    let low = Cut::new(lower, fixed).ok()?;
    Cut::new(upper, low).ok()
}

/// Reads the places of a string, whose sections are found one time.
fn read_each<L: NumberList>(
    list: &L,
    bytes: &[u8],
    count: usize,
    places: &mut [u64],
) -> Result<(), Refused>
    ensures { (L.NumberList.meaning list.now).reach ≤ 64
        → ReadTold (L.NumberList.meaning list.now) bytes.now count places.old places.new (done_told result) }
{
    let count = Count::new(count).ok_or(ReadRefused::TooMany)?;
    let layout = list.layout(bytes, count).map_err(ReadRefused::from)?;
    read_each_at(list, &layout, bytes, count, places)
}

/// Reads the places of a string whose sections are known.
fn read_each_at<L: NumberList>(
    list: &L,
    layout: &L::Layout,
    bytes: &[u8],
    count: Count,
    places: &mut [u64],
) -> Result<(), Refused>
    requires { L.NumberList.laid list.now bytes.now count.numbers layout.now }
    ensures { (L.NumberList.meaning list.now).reach ≤ 64
        → ReadTold (L.NumberList.meaning list.now) bytes.now count.numbers places.old places.new (done_told result) }
{
    for place in places.iter_mut() {
        if *place >= count.get() as u64 {
            return Err(Refused::Read(ReadRefused::NoNumber));
        }
        *place = list
            .read_at(layout, bytes, count, *place as usize)
            .map_err(ReadRefused::from)?;
    }
    Ok(())
}
