//! The fixed list: every number takes the same number of bits.
ghost use Rattle.std.specs.Prelude.{◌≡◌, ◌^◌, ◌<◌, is_ok, IfOk, slice_index};
ghost use Rattle.bits.specs.Packing.{room, unpacked};
ghost use Rattle.bits.specs.Widths.{allowed};
ghost use Rattle.numlist.specs.Fixed.{fixed};
ghost use Rattle.numlist.specs.FixedSound.{fixed_sound};

use crate::{Above, Count, ListFault, NumberList, Test, WidthRefused};
use bits::{Width, is_filled, read};

/// Numbers of the same width, one after another.
#[derive(Clone, Copy)]
pub struct Fixed {
    width: Width,
}

impl Fixed {
    /// The list of numbers of so many bits, from 1 to 48.
    pub fn new(bits: u32) -> Result<Fixed, WidthRefused>
        ensures refused { is_ok result ≡ allowed bits }
        ensures made { IfOk result (λ s. s.width.bits ≡ bits) }
    {
        let width = Width::new(bits).ok_or(WidthRefused)?;
        Ok(Fixed { width })
    }
}

/// The bytes that so many numbers of a width take.
pub(crate) fn room(width: Width, count: Count) -> usize
    ensures { result ≡ room width.bits count.numbers }
{
    (width.bits() as usize * count.get() + 7) / 8
}

/// Number `i` of the numbers of a width with which bytes begin.
pub(crate) fn number_at(width: Width, count: Count, bytes: &[u8], i: usize) -> u64
    requires { i < count.numbers }
    ensures number { result ≡ slice_index (unpacked width.bits count.numbers bytes.now) i }
    ensures small { result < 2 ^ width.bits }
    ensures word { result < 281474976710656 }
{
    read(bytes, width.bits() as usize * i, width)
}

impl NumberList for Fixed {
    type Layout = ();

    ghost meaning = { λ s. fixed s.width.bits };

    ghost laid = { λ s bytes m layout. Unit {0} };

    ghost sound = { λ s. fixed_sound s.width.bits s.width.low };

    fn reach(&self) -> u32 {
        self.width.bits()
    }

    fn is_past_64(&self) -> bool {
        false
    }

    fn size(&self, numbers: &Above<'_>) -> usize {
        room(self.width, numbers.count())
    }

    fn put(&self, numbers: &Above<'_>, out: &mut [u8]) {
        numbers.put_lows(self.width, out);
    }

    fn judge(&self, bytes: &[u8], count: Count) -> Result<usize, ListFault> {
        let room = room(self.width, count);
        if bytes.len() < room {
            return Err(ListFault::here(Test::TooFew));
        }
        if !is_filled(bytes, self.width.bits() as usize * count.get()) {
            return Err(ListFault::here(Test::Fill));
        }
        Ok(room)
    }

    fn has_no_zero(&self, bytes: &[u8], count: Count) -> bool {
        (0..count.get()).all(|i| number_at(self.width, count, bytes, i) != 0)
    }

    fn layout(&self, _bytes: &[u8], _count: Count) -> Result<(), ListFault> {
        Ok(())
    }

    fn read_at(
        &self,
        _layout: &(),
        bytes: &[u8],
        count: Count,
        i: usize,
    ) -> Result<u64, ListFault> {
        Ok(number_at(self.width, count, bytes, i))
    }
}
