//! Counting marks.
ghost use Rattle.std.specs.Prelude.{◌≡◌, ℕ, ◌+◌, ◌-◌, ◌*◌, ◌/◌, ◌%◌, ◌^◌, ◌<◌, ◌≤◌, List, T, length, drop, sum};
ghost use Rattle.bits.specs.Packing.{value, unpacked, Narrow};

use crate::reading::{low_bits, whole_word};
use crate::word;

/// How many of the `count` bits from byte `from` on are 1. Bits past the end are 0.
pub fn ones(bytes: &[u8], from: usize, count: usize) -> usize
    ensures { result ≡ sum (unpacked 1 count (drop from bytes.now)) }
{
    let rest = &bytes[from.min(bytes.len())..];
    let words = (count / 64).min(rest.len() / 8);
    let mut ones = 0;
    for word in &rest.as_chunks().0[..words] {
        ones += u64::from_le_bytes(*word).count_ones() as usize;
    }
    ones + first_ones(word(rest, 8 * words), count - 64 * words)
}

/// The same as `ones`. Less than 256 bits are counted without a loop or a branch that depends on how many there are.
pub fn few_ones(bytes: &[u8], from: usize, count: usize) -> usize
    ensures { result ≡ sum (unpacked 1 count (drop from bytes.now)) }
{
    if !are_four_words(bytes, from, count) {
        return ones(bytes, from, count);
    }
    let first = first_ones(whole_word(bytes, from), count);
    let second = first_ones(whole_word(bytes, from + 8), count.saturating_sub(64));
    let third = first_ones(whole_word(bytes, from + 16), count.saturating_sub(128));
    let last = first_ones(whole_word(bytes, from + 24), count.saturating_sub(192));
    first + second + third + last
}

// Whether the bits lie within four words, and all of these are there.
fn are_four_words(bytes: &[u8], from: usize, count: usize) -> bool
    ensures { T result → (count < 256) × (from + 32 ≤ length bytes.now) }
{
    count < 256 && bytes.len() >= 32 && from <= bytes.len() - 32
}

// How many of the first `count` bits of a word are 1, where it has so many, and else how many of all its bits.
fn first_ones(word: u64, count: usize) -> usize
    ensures counted { (bytes : List ℕ) (from : ℕ) → Narrow 8 bytes → word ≡ value 8 bytes / 2 ^ (8 * from) % 2 ^ 64 → sum (unpacked 1 count (drop from bytes)) ≡ result + sum (unpacked 1 (count - 64) (drop (from + 8) bytes)) }
    ensures few { result ≤ 64 }
{
    let bits = if count < 64 {
        low_bits(word, count as u32)
    } else {
        word
    };
    bits.count_ones() as usize
}
