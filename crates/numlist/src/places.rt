//! The sections of a cut in bytes: where they lie, and what they show.
ghost use Rattle.std.specs.Prelude.{◌≡◌, ℕ, ◌+◌, ◌*◌, ◌^◌, ◌<◌, ◌≤◌, length, take, sum, slice_index};
ghost use Rattle.std.specs.Str.{bytes_eq};
ghost use Rattle.numlist.specs.Cuts.{marks_at, directory_at, below_at};
ghost use Rattle.numlist.specs.Parts.{entries, directory};

use crate::fixed::{number_at, room};
use crate::{Count, ListFault, Test};
use bits::{Width, bit, few_ones, is_filled, ones, read};

/// Where the marks, the directory and the list below begin.
#[derive(Clone, Copy)]
pub struct Places {
    pub(crate) marks: usize,
    pub(crate) directory: usize,
    pub(crate) below: usize,
}

impl Places {
    ghost use Rattle.numlist.specs.Placed.{Placed};

    /// The places for so many numbers.
    pub(crate) fn new(width: Width, count: Count) -> Places
        ensures { Placed width.bits count.numbers result }
    {
        let marks = room(width, count);
        let directory = marks + room(Width::MARK, count);
        Places {
            marks,
            directory,
            below: directory + 4 * ((count.get() + 255) / 256),
        }
    }
}

/// The sections for so many numbers, in bytes that are enough for them.
#[derive(Clone, Copy)]
pub(crate) struct Sections<'a> {
    pub(crate) places: Places,
    pub(crate) width: Width,
    pub(crate) count: Count,
    pub(crate) bytes: &'a [u8],
    ghost its_marks: { places.marks ≡ marks_at width.bits count.numbers },
    ghost its_directory: { places.directory ≡ directory_at width.bits count.numbers },
    ghost its_below: { places.below ≡ below_at width.bits count.numbers },
    ghost enough: { places.below ≤ length bytes.now },
    ghost are_bytes: { (i : ℕ) → slice_index bytes.now i < 256 },
}

impl<'a> Sections<'a> {
    ghost use Rattle.numlist.specs.Placed.{NoEmpty, low_with_mark};
    ghost use Rattle.numlist.specs.Shown.{SectionsIn, lows_of, marks_of, directory_of, filled_of, below_of};

    /// The sections at the front of bytes, if there are enough of them.
    pub(crate) fn new(
        width: Width,
        count: Count,
        bytes: &'a [u8],
    ) -> Result<Sections<'a>, ListFault>
        ensures { SectionsIn width count bytes.now result }
    {
        let places = Places::new(width, count);
        if bytes.len() < places.below {
            return Err(ListFault::here(Test::TooFew));
        }
        Ok(Sections {
            places,
            width,
            count,
            bytes,
        })
    }

    /// Low part `i`.
    pub(crate) fn low_at(&self, i: usize) -> u64
        requires { i < self.now.count.numbers }
        ensures low { result ≡ slice_index (lows_of self.now) i }
        ensures small { result < 2 ^ self.now.width.bits }
        ensures word { result < 281474976710656 }
    {
        number_at(self.width, self.count, self.bytes, i)
    }

    /// Mark `i`.
    pub(crate) fn mark_at(&self, i: usize) -> u64
        requires { i < self.now.count.numbers }
        ensures mark { result ≡ slice_index (marks_of self.now) i }
        ensures bit { result < 2 }
    {
        bit(self.bytes, 8 * self.places.marks + i)
    }

    /// Entry `group` of the directory.
    fn entry_at(&self, group: usize) -> usize
        requires { group < entries self.now.count.numbers }
        ensures entry { result ≡ slice_index (directory_of self.now) group }
        ensures small { result < 4294967296 }
    {
        read(
            self.bytes,
            8 * self.places.directory + 32 * group,
            Width::COUNT,
        ) as usize
    }

    /// How many of the `n` marks from mark 256 × `group` on are 1.
    fn group_ones(&self, group: usize, n: usize) -> usize
        requires { 256 * group + n ≤ self.now.count.numbers }
        ensures counted { sum (take (256 * group + n) (marks_of self.now)) ≡ sum (take (256 * group) (marks_of self.now)) + result }
        ensures few { result ≤ n }
    {
        few_ones(self.bytes, self.places.marks + 32 * group, n)
    }

    /// How many marks before mark `i` are 1, as far as the directory is right.
    pub(crate) fn rank(&self, i: usize) -> usize
        requires { i < self.now.count.numbers }
        ensures { directory_of self.now ≡ directory (marks_of self.now) → result ≡ sum (take i (marks_of self.now)) }
    {
        let group = i / 256;
        self.entry_at(group) + self.group_ones(group, i % 256)
    }

    /// How many marks are 1.
    pub(crate) fn all_ones(&self) -> Count
        ensures { result.numbers ≡ sum (marks_of self.now) }
    {
        Count {
            numbers: ones(self.bytes, self.places.marks, self.count.numbers),
        }
    }

    /// Whether the fill bits of the low parts and of the marks are 0.
    pub(crate) fn are_filled(&self) -> bool
        ensures { result ≡ filled_of self.now }
    {
        let count = self.count.numbers;
        is_filled(self.bytes, self.width.bits() as usize * count)
            && is_filled(&self.bytes[self.places.marks..], count)
    }

    /// Whether each entry of the directory is the number of 1 marks before its group.
    // A loop, since each entry is held against the sum of all groups before it.
    pub(crate) fn is_directory(&self) -> bool
        ensures { result ≡ bytes_eq (directory_of self.now) (directory (marks_of self.now)) }
    {
        let count = self.count.numbers;
        let mut ones = 0;
        for group in 0..(count + 255) / 256 {
            if self.entry_at(group) != ones {
                return false;
            }
            let n = (count - 256 * group).min(256);
            ones += self.group_ones(group, n);
        }
        true
    }

    /// Whether each number has a bit of 1 in its low part or its mark.
    pub(crate) fn has_no_empty(&self) -> bool
        ensures { NoEmpty self.now.width.bits self.now.count.numbers self.now.bytes.now result }
    {
        (0..self.count.numbers).all(|i| self.low_and_mark(i) != 0)
    }

    fn low_and_mark(&self, i: usize) -> u64
        requires { i < self.now.count.numbers }
        ensures { result ≡ low_with_mark self.now.width.bits self.now.count.numbers self.now.bytes.now i }
    {
        self.low_at(i) + self.mark_at(i)
    }

    /// The bytes behind the sections, those of the list below.
    pub(crate) fn below(&self) -> &'a [u8]
        ensures { result.now ≡ below_of self.now }
    {
        &self.bytes[self.places.below..]
    }
}
