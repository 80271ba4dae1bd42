//! The cut: a list that keeps the lowest bits of each number, and gives what is above to another list.
ghost use Rattle.std.specs.Prelude.{◌≡◌, ◌+◌, ◌≤◌, min, length, Some, None, Ok, Err};
ghost use Rattle.numlist.specs.Calls.{cut_refusal};
ghost use Rattle.numlist.specs.Cuts.{cut, below_at, below_in, ones_in};
ghost use Rattle.numlist.specs.Placed.{Placed};
ghost use Rattle.numlist.specs.CutSound.{cut_sound};

use crate::parts::put_directory;
use crate::places::Sections;
use crate::{Above, Count, CutRefused, ListFault, NumberList, Places, Test};
use bits::Width;

/// The most bits that a cut keeps.
pub const MOST_CUT_BITS: u32 = 16;

/// A list over another one, which gets the bits above the lowest ones.
#[derive(Clone, Copy)]
pub struct Cut<L> {
    width: Width,
    below: L,
}

/// Where the sections of a cut lie, how many marks are 1, and where those of the list below lie.
#[derive(Clone, Copy)]
pub struct CutLayout<B> {
    places: Places,
    ones: Count,
    below: B,
}

impl<L: NumberList + Copy> Cut<L> {
    /// The cut of so many bits, from 1 to 16, over a list. All bits together are at most 64.
    pub fn new(bits: u32, below: L) -> Result<Cut<L>, CutRefused>
        ensures { elim result [ Ok cut ↦ (cut_refusal bits (L.NumberList.meaning below).reach ≡ None) × (cut.width.bits ≡ bits) × (cut.below ≡ below) | Err refusal ↦ cut_refusal bits (L.NumberList.meaning below).reach ≡ Some refusal ] }
    {
        if bits > MOST_CUT_BITS {
            return Err(CutRefused::Width);
        }
        let width = Width::new(bits).ok_or(CutRefused::Width)?;
        if below.reach() > 64 - bits {
            return Err(CutRefused::Reach);
        }
        Ok(Cut { width, below })
    }
}

impl<L: NumberList> NumberList for Cut<L> {
    type Layout = CutLayout<L::Layout>;

    ghost meaning = { λ s. cut s.width.bits (L.NumberList.meaning s.below) };

    ghost laid = { λ s bytes m layout. Placed s.width.bits m layout.places × (below_at s.width.bits m ≤ length bytes) × (layout.ones.numbers ≡ ones_in s.width.bits bytes m) × L.NumberList.laid s.below (below_in s.width.bits bytes m) (ones_in s.width.bits bytes m) layout.below };

    ghost sound = { λ s. cut_sound s.width.bits (L.NumberList.meaning s.below) s.width.low (L.NumberList.sound s.below) };

    fn reach(&self) -> u32 {
        (self.width.bits() + self.below.reach()).min(64)
    }

    fn is_past_64(&self) -> bool {
        self.width.bits() + self.below.reach() > 64
    }

    fn size(&self, numbers: &Above<'_>) -> usize {
        let places = Places::new(self.width, numbers.count());
        places
            .below
            .saturating_add(self.below.size(&numbers.higher(self.width)))
    }

    fn put(&self, numbers: &Above<'_>, out: &mut [u8]) {
        let count = numbers.count();
        let places = Places::new(self.width, count);
        if out.len() < places.below {
            return;
        }
        let (own, below) = out.split_at_mut(places.below);
        let (lows, own) = own.split_at_mut(places.marks);
        let (marks, directory) = own.split_at_mut(places.directory - places.marks);
        numbers.put_lows(self.width, lows);
        numbers.put_marks(self.width, marks);
        put_directory(marks, count, directory);
        self.below.put(&numbers.higher(self.width), below);
    }

    fn judge(&self, bytes: &[u8], count: Count) -> Result<usize, ListFault> {
        let sections = Sections::new(self.width, count, bytes)?;
        if !sections.are_filled() {
            return Err(ListFault::here(Test::Fill));
        }
        if !sections.is_directory() {
            return Err(ListFault::here(Test::Directory));
        }
        let at = sections.places.below;
        let rest = sections.below();
        let ones = sections.all_ones();
        let length = self.below.judge(rest, ones).map_err(ListFault::one_deeper)?;
        if !self.below.has_no_zero(rest, ones) {
            return Err(ListFault::here(Test::ZeroPart));
        }
        Ok(at + length)
    }

    fn has_no_zero(&self, bytes: &[u8], count: Count) -> bool {
        Sections::new(self.width, count, bytes).is_ok_and(|sections| sections.has_no_empty())
    }

    fn layout(&self, bytes: &[u8], count: Count) -> Result<CutLayout<L::Layout>, ListFault> {
        let sections = Sections::new(self.width, count, bytes)?;
        let ones = sections.all_ones();
        let below = self
            .below
            .layout(sections.below(), ones)
            .map_err(ListFault::one_deeper)?;
        Ok(CutLayout {
            places: sections.places,
            ones,
            below,
        })
    }

    fn read_at(
        &self,
        layout: &CutLayout<L::Layout>,
        bytes: &[u8],
        count: Count,
        i: usize,
    ) -> Result<u64, ListFault> {
        let width = self.width;
        let sections = Sections {
            places: layout.places,
            width,
            count,
            bytes,
        };
        let low = sections.low_at(i);
        if sections.mark_at(i) == 0 {
            return Ok(low);
        }
        let place = sections.rank(i);
        if place >= layout.ones.get() {
            return Err(ListFault::here(Test::Directory));
        }
        let high = self
            .below
            .read_at(&layout.below, sections.below(), layout.ones, place)
            .map_err(ListFault::one_deeper)?;
        Ok(low | high << width.bits())
    }
}
