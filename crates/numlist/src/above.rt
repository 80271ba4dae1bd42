//! Numbers without their lowest bits.
ghost use Rattle.std.specs.Prelude.{◌≡◌, ℕ, ◌%◌, ◌^◌, ◌≤◌, ◌<◌, List, ◌++◌, map, length, drop, if◌then◌else◌, MatchOption};
ghost use Rattle.bits.specs.Packing.{room, packed};
ghost use Rattle.numlist.specs.Lists.{most};
ghost use Rattle.numlist.specs.Parts.{above, parts, lows, marks};

use crate::parts::{is_marked, part};
use crate::{Count, MOST_NUMBERS};
use bits::{Width, Writer};
use std::marker::Model;

/// The numbers that a list has which lies some bits up: in place of each number its bits above the lowest ones, zeros left
/// out. A list at the top has all numbers.
#[derive(Drop)]
pub struct Above<'a> {
    numbers: &'a [u64],
    skip: u32,
}

impl<'a> Model for Above<'a> {
    ghost use Rattle.std.specs.Prelude.{ℕ, ◌≤◌, List, length};
    ghost use Rattle.bits.specs.Packing.{Narrow};
    ghost use Rattle.numlist.specs.Lists.{most};
    ghost use Rattle.numlist.specs.Parts.{above};

    ghost Value = { List ℕ };

    ghost view = { λ a. above a.skip a.numbers.now };

    ghost invariant = { λ a. (a.skip ≤ 64) × (length a.numbers.now ≤ most) × Narrow 64 a.numbers.now };
}

impl<'a> Above<'a> {
    /// All numbers, where they are not too many for a list.
    pub fn new(numbers: &'a [u64]) -> Option<Above<'a>>
        ensures { MatchOption result (most < length numbers.now) (λ all. (all ≡ numbers.now) × (length numbers.now ≤ most)) }
    {
        if numbers.len() > MOST_NUMBERS {
            return None;
        }
        Some(Above { numbers, skip: 0 })
    }

    /// The bits above the lowest ones of each of these numbers, zeros left out.
    pub fn higher(&self, width: Width) -> Above<'a>
        ensures { result ≡ parts width.bits self.now }
    {
        Above {
            numbers: self.numbers,
            skip: (self.skip + width.bits()).min(64),
        }
    }

    /// All numbers, and how many of the lowest bits of each these are without. For a list that goes through them by itself.
    pub fn source(&self) -> (&'a [u64], u32)
        ensures same { above result.1 result.0.now ≡ self.now }
        ensures skip { result.1 ≤ 64 }
        ensures few { length result.0.now ≤ most }
    {
        (self.numbers, self.skip)
    }

    /// How many numbers there are. A loop, since which numbers are there cannot be foreseen, and a `filter` would branch at each.
    pub fn count(&self) -> Count
        ensures { result.numbers ≡ length self.now }
    {
        let mut count = 0;
        for number in self.numbers {
            count += usize::from(part(*number, self.skip).is_some());
        }
        Count { numbers: count }
    }

    /// Puts the lowest bits of each number.
    pub fn put_lows(&self, width: Width, out: &mut [u8])
        ensures { room width.bits (length self.now) ≤ length out.old → out.new ≡ packed width.bits (lows width.bits self.now) ++ drop (room width.bits (length self.now)) out.old }
    {
        self.put_each(width, |number| number, out);
    }

    /// Puts a mark for each number: 1 where it has more bits than the width.
    pub fn put_marks(&self, width: Width, out: &mut [u8])
        ensures { room 1 (length self.now) ≤ length out.old → out.new ≡ packed 1 (marks width.bits self.now) ++ drop (room 1 (length self.now)) out.old }
    {
        self.put_each(
            Width::MARK,
            |number| u64::from(is_marked(number, width)),
            out,
        );
    }

    // Puts the lowest bits of what is made of each number. Whether a number is there has no branch of its own, since it
    // cannot be foreseen.
    fn put_each<F: Fn(u64) -> u64>(&self, width: Width, made: F, out: &mut [u8])
        requires { F.IsAlwaysCallable made }
        ensures { (f : ℕ → ℕ) → ((x r : ℕ) → F.post made x r → r % 2 ^ width.bits ≡ f x) → room width.bits (length self.now) ≤ length out.old → out.new ≡ packed width.bits (map f self.now) ++ drop (room width.bits (length self.now)) out.old }
    {
        let mut writer = Writer::new(out);
        for number in self.numbers {
            let part = part(*number, self.skip);
            writer.push_some(width, part.map(&made));
        }
        writer.finish();
    }
}
