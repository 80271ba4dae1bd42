//! The parts of numbers that a list takes.
ghost use Rattle.std.specs.Prelude.{◌≡◌, ◌+◌, ◌*◌, ◌^◌, ◌≤◌, ◌++◌, length, drop, nat_lt};
ghost use Rattle.bits.specs.Packing.{packed, unpacked};
ghost use Rattle.numlist.specs.Calls.{narrow};
ghost use Rattle.numlist.specs.Parts.{part_of, marked, entries, directory};

use crate::Count;
use bits::{Width, Writer, ones};

/// Whether each number has at most so many bits.
pub(crate) fn is_narrow(numbers: &[u64], bits: u32) -> bool
    ensures { result ≡ narrow bits numbers.now }
{
    numbers.iter().all(|number| fits(*number, bits))
}

fn fits(number: u64, bits: u32) -> bool
    ensures { result ≡ nat_lt number (2 ^ bits) }
{
    bits >= 64 || number >> bits == 0
}

/// What a list `skip` bits up takes of a number: none where no bit is left.
pub(crate) fn part(number: u64, skip: u32) -> Option<u64>
    requires { skip ≤ 64 }
    ensures { result ≡ part_of skip number }
{
    if skip == 0 {
        return Some(number);
    }
    if skip == 64 || number >> skip == 0 {
        return None;
    }
    Some(number >> skip)
}

/// Whether a number has more bits than the width.
pub(crate) fn is_marked(number: u64, width: Width) -> bool
    ensures { result ≡ marked width.bits number }
{
    number >> width.bits() != 0
}

/// Puts the directory of so many marks. A loop, since each entry is the sum of all groups before it.
pub(crate) fn put_directory(marks: &[u8], count: Count, out: &mut [u8])
    ensures { 4 * entries count.numbers ≤ length out.old → out.new ≡ packed 32 (directory (unpacked 1 count.numbers marks.now)) ++ drop (4 * entries count.numbers) out.old }
{
    let mut writer = Writer::new(out);
    let mut before = 0;
    for group in 0..(count.numbers + 255) / 256 {
        writer.push_count(before as u32);
        before += ones(marks, 32 * group, (count.numbers - 256 * group).min(256));
    }
    writer.finish();
}
