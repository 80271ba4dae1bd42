//! Writing numbers into bytes, one after another.
ghost use Rattle.std.specs.Prelude.{◌≡◌, ℕ, ◌+◌, ◌-◌, ◌%◌, ◌^◌, ◌≤◌, List, [], ◌∷◌, ◌++◌, length, take, drop, if◌then◌else◌};
ghost use Rattle.bits.specs.Packing.{digits, room, packed};
ghost use Rattle.bits.specs.Writing.{Written, pushed};

use crate::reading::low_bits;
use crate::{Pen, Width};

impl Pen {
    /// A pen that has written nothing.
    pub fn new() -> Pen
        ensures { (w : ℕ) (start : List ℕ) → Written w result start start [] }
    {
        Pen {
            at: 0,
            bits: 0,
            fill: 0,
        }
    }

    /// Writes the lowest bits of a number behind the numbers written before.
    pub fn push(self, out: &mut [u8], width: Width, number: u64) -> Pen
        ensures { (start xs : List ℕ) → room width.bits (length xs + 1) ≤ length start → Written width.bits self start out.old xs → Written width.bits result start out.new (xs ++ number % 2 ^ width.bits ∷ []) }
    {
        self.push_bits(out, width.bits(), number)
    }

    /// Writes the lowest bits of a number where it is there, and nothing where it is not.
    pub fn push_if(self, out: &mut [u8], width: Width, number: u64, there: bool) -> Pen
        ensures { (start xs : List ℕ) → room width.bits (length (xs ++ (if there then number % 2 ^ width.bits ∷ [] else []))) ≤ length start → Written width.bits self start out.old xs → Written width.bits result start out.new (xs ++ (if there then number % 2 ^ width.bits ∷ [] else [])) }
    {
        self.push_some(out, width, there.then_some(number))
    }

    /// Writes the lowest bits of a number if there is one, and nothing if there is none. Neither has a branch of its own:
    /// which numbers there are cannot be foreseen.
    pub fn push_some(self, out: &mut [u8], width: Width, number: Option<u64>) -> Pen
        ensures { (start xs : List ℕ) → room width.bits (length (xs ++ pushed width.bits number)) ≤ length start → Written width.bits self start out.old xs → Written width.bits result start out.new (xs ++ pushed width.bits number) }
    {
        let wide = number.map_or(0, |_| width.bits());
        self.push_bits(out, wide, number.unwrap_or(0))
    }

    // Writes so many of the lowest bits of a number.
    fn push_bits(self, out: &mut [u8], wide: u32, number: u64) -> Pen
        requires { wide ≤ 48 }
        ensures written { (start xs : List ℕ) → room wide (length xs + 1) ≤ length start → Written wide self start out.old xs → Written wide result start out.new (xs ++ number % 2 ^ wide ∷ []) }
        ensures none { wide ≡ 0 → (result.at ≡ self.at) × (result.bits ≡ self.bits) × (result.fill ≡ self.fill) × (out.new ≡ out.old) }
    {
        let number = low_bits(number, wide);
        let bits = self.bits | number << self.fill;
        let fill = self.fill + wide;
        if fill < 64 {
            return Pen {
                at: self.at,
                bits,
                fill,
            };
        }
        let at = put_word(out, self.at, bits);
        Pen {
            at,
            bits: number >> (64 - self.fill),
            fill: fill - 64,
        }
    }

    /// Writes the bits that are left, and fills the last byte up with 0 bits.
    pub fn finish(self, out: &mut [u8])
        ensures { (w : ℕ) (start xs : List ℕ) → room w (length xs) ≤ length start → Written w self start out.old xs → out.new ≡ packed w xs ++ drop (room w (length xs)) start }
    {
        let count = (self.fill as usize + 7) / 8;
        if self.at <= out.len() && count <= out.len() - self.at {
            put_bytes(out, self.at, self.at + count, self.bits);
        }
    }
}

// Puts eight bytes where there is a place for them, and gives the place behind them.
fn put_word(out: &mut [u8], at: usize, word: u64) -> usize
    ensures { at + 8 ≤ length out.old → (result ≡ at + 8) × (out.new ≡ take at out.old ++ (digits 8 8 word ++ drop (at + 8) out.old)) }
{
    if at > out.len() || out.len() - at < 8 {
        return at;
    }
    out[at..at + 8].copy_from_slice(&word.to_le_bytes());
    at + 8
}

// Puts the lowest bytes of a number, the least first. Byte by byte: a copy of so many bytes is a call of `memcpy`, which the
// library for callers in C would need from outside.
fn put_bytes(out: &mut [u8], from: usize, to: usize, number: u64)
    requires { (from ≤ to) × (to ≤ length out.old) }
    ensures { out.new ≡ take from out.old ++ (digits 8 (to - from) number ++ drop to out.old) }
{
    let mut rest = number;
    for i in from..to {
        out[i] = (rest % 256) as u8;
        rest /= 256;
    }
}
