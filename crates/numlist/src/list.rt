//! What every number list can do.
ghost use Rattle.std.specs.Prelude.{◌≡◌, ℕ, ◌-◌, ◌%◌, ◌^◌, ◌<◌, ◌≤◌, min, List, ◌++◌, length, drop, is_ok, nat_lt, Ok, Err, ◌≢◌, slice_index};
ghost use Rattle.bits.specs.Packing.{Narrow};
ghost use Rattle.numlist.specs.Calls.{write_answer, written, open_answer};
ghost use Rattle.numlist.specs.Cuts.{nonzero};
ghost use Rattle.numlist.specs.Lists.{Meaning, Sound, most};
ghost use Rattle.numlist.specs.Refusals.{read_number};

use crate::parts::is_narrow;
use crate::{Above, Count, ListFault, OpenRefused, ReadRefused, WriteRefused};

/// The most numbers of a list.
pub const MOST_NUMBERS: usize = 1_048_576;

/// A way to make one string of bytes of many numbers, and to read them in it.
///
/// `write`, `open`, `read`, `reach` and `is_past_64` are for everyone. The other calls are what a list built over another one
/// asks of it.
pub trait NumberList {
    /// Where the sections of a string lie, found one time for many reads.
    type Layout: Copy;

    ghost meaning: { Self → Meaning };

    ghost laid: { Self → List ℕ → ℕ → Self.Layout → Type 0 };

    /// The most bits of a number, at most 64.
    fn reach(&self) -> u32
        ensures { result ≡ min 64 (meaning self.now).reach };

    /// Whether a number may have more than 64 bits.
    fn is_past_64(&self) -> bool
        ensures { result ≡ nat_lt 64 (meaning self.now).reach };

    /// The bytes that the string of the numbers takes, or as many as can be told.
    fn size(&self, numbers: &Above<'_>) -> usize
        ensures { result ≡ min (2 ^ 64 - 1) (length ((meaning self.now).string numbers.now)) };

    /// Puts the string of the numbers at the front of bytes that have room for it.
    fn put(&self, numbers: &Above<'_>, out: &mut [u8])
        ensures { Narrow (meaning self.now).reach numbers.now → length ((meaning self.now).string numbers.now) ≤ length out.old → out.new ≡ (meaning self.now).string numbers.now ++ drop (length ((meaning self.now).string numbers.now)) out.old };

    /// The bytes of the string of so many numbers with which bytes begin, or their first fault.
    fn judge(&self, bytes: &[u8], count: Count) -> Result<usize, ListFault>
        ensures bound { elim result [ Ok n ↦ n ≤ length bytes.now | Err fault ↦ fault.level < (meaning self.now).reach ] }
        ensures verdict { (meaning self.now).reach ≤ 64 → result ≡ (meaning self.now).verdict bytes.now count.numbers };

    /// Whether none of the numbers of a string is 0.
    fn has_no_zero(&self, bytes: &[u8], count: Count) -> bool
        ensures { (n : ℕ) → (meaning self.now).verdict bytes.now count.numbers ≡ Ok n → result ≡ nonzero ((meaning self.now).numbers bytes.now count.numbers) };

    /// Where the sections of the string of so many numbers lie, or a fault if bytes do not begin with one.
    fn layout(&self, bytes: &[u8], count: Count) -> Result<Self::Layout, ListFault>
        ensures { elim result [ Ok layout ↦ laid self.now bytes.now count.numbers layout | Err _ ↦ ((n : ℕ) → (meaning self.now).verdict bytes.now count.numbers ≢ Ok n) ] };

    /// Number `i` of a string, the lowest 64 bits of it. Of other bytes any number or a fault.
    fn read_at(
        &self,
        layout: &Self::Layout,
        bytes: &[u8],
        count: Count,
        i: usize,
    ) -> Result<u64, ListFault>
        requires inside { i < count.numbers }
        requires laid { laid self.now bytes.now count.numbers layout.now }
        ensures { (n : ℕ) → (meaning self.now).verdict bytes.now count.numbers ≡ Ok n → result ≡ Ok (slice_index ((meaning self.now).numbers bytes.now count.numbers) i % 2 ^ 64) };

    /// Writes the string of the numbers at the front of the bytes, leaves the bytes behind it, and tells its length. A
    /// refusal leaves all bytes as they are.
    fn write(&self, numbers: &[u64], out: &mut [u8]) -> Result<usize, WriteRefused>
        ensures answer { result ≡ write_answer (meaning self.now) numbers.now (length out.old) }
        ensures bytes { out.new ≡ written (meaning self.now) numbers.now out.old (is_ok result) }
    {
        let all = Above::new(numbers).ok_or(WriteRefused::TooMany)?;
        if !is_narrow(numbers, self.reach()) {
            return Err(WriteRefused::TooLarge);
        }
        let size = self.size(&all);
        if size > out.len() {
            return Err(WriteRefused::NoRoom);
        }
        self.put(&all, out);
        Ok(size)
    }

    /// The bytes of the string of `m` numbers with which bytes begin, or why they begin with none.
    fn open(&self, bytes: &[u8], m: usize) -> Result<usize, OpenRefused>
        ensures { (meaning self.now).reach ≤ 64 → result ≡ open_answer (meaning self.now) bytes.now m }
    {
        let count = Count::new(m).ok_or(OpenRefused::TooMany)?;
        Ok(self.judge(bytes, count)?)
    }

    /// Number `i` of the string of `m` numbers with which bytes begin. Of other bytes any number or a fault.
    fn read(&self, bytes: &[u8], m: usize, i: usize) -> Result<u64, ReadRefused>
        ensures many { most < m → result ≡ Err ReadRefused.TooMany }
        ensures none { m ≤ most → m ≤ i → result ≡ Err ReadRefused.NoNumber }
        ensures number { (n : ℕ) → m ≤ most → i < m → (meaning self.now).reach ≤ 64 → (meaning self.now).verdict bytes.now m ≡ Ok n → result ≡ Ok (slice_index ((meaning self.now).numbers bytes.now m) i) }
        ensures others { m ≤ most → i < m → elim result [ Ok _ ↦ Unit {0} | Err refusal ↦ read_number refusal ≡ 13 ] }
    {
        let count = Count::new(m).ok_or(ReadRefused::TooMany)?;
        if i >= m {
            return Err(ReadRefused::NoNumber);
        }
        let layout = self.layout(bytes, count)?;
        Ok(self.read_at(&layout, bytes, count, i)?)
    }

    ghost sound: { (s : Self) → Sound (meaning s) };
}
