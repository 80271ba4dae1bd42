//! Reading numbers out of bytes.
ghost use Rattle.std.specs.Prelude.{◌≡◌, ◌+◌, ◌*◌, ◌/◌, ◌%◌, ◌^◌, ◌<◌, ◌≤◌, length, take, nat_lt};
ghost use Rattle.bits.specs.Packing.{value};

use crate::Width;

/// The 64 bits from byte `from` on. Bits past the end are 0.
pub fn word(bytes: &[u8], from: usize) -> u64
    ensures { result ≡ value 8 bytes.now / 2 ^ (8 * from) % 2 ^ 64 }
{
    if bytes.len() >= 8 && from <= bytes.len() - 8 {
        whole_word(bytes, from)
    } else {
        last_word(bytes, from)
    }
}

/// The number of `width` bits from bit `at` on. Bits past the end are 0.
pub fn read(bytes: &[u8], at: usize, width: Width) -> u64
    ensures { result ≡ value 8 bytes.now / 2 ^ at % 2 ^ width.bits }
{
    low_bits(word(bytes, at / 8) >> (at % 8), width.bits())
}

/// The bit at `at`. Bits past the end are 0.
pub fn bit(bytes: &[u8], at: usize) -> u64
    ensures { result ≡ value 8 bytes.now / 2 ^ at % 2 }
{
    // By its byte: by `read` a list takes a twentieth longer to open and to read.
    let byte = bytes.get(at / 8).copied().unwrap_or(0);
    low_bits(u64::from(byte) >> (at % 8), Width::MARK.bits())
}

/// Whether the bits behind the first `bits` are 0, up to the end of their byte.
pub fn is_filled(bytes: &[u8], bits: usize) -> bool
    ensures { result ≡ nat_lt (value 8 (take ((bits + 7) / 8) bytes.now)) (2 ^ bits) }
{
    last_bits(bytes, bits) == 0
}

// The bits behind the first `bits`, up to the end of their byte.
fn last_bits(bytes: &[u8], bits: usize) -> u64
    ensures { result ≡ value 8 (take ((bits + 7) / 8) bytes.now) / 2 ^ bits }
{
    let word = word(bytes, bits / 8);
    if bits % 8 == 0 {
        return 0;
    }
    word % 256 >> (bits % 8)
}

/// The lowest bits of a number.
pub(crate) fn low_bits(number: u64, bits: u32) -> u64
    requires { bits < 64 }
    ensures { result ≡ number % 2 ^ bits }
{
    number & ((1 << bits) - 1)
}

/// One load where all eight bytes are there. By their places: `first_chunk` tests the length again, and with it opening a list
/// takes half as long again.
pub(crate) fn whole_word(bytes: &[u8], from: usize) -> u64
    requires { from + 8 ≤ length bytes.now }
    ensures { result ≡ value 8 bytes.now / 2 ^ (8 * from) % 2 ^ 64 }
{
    u64::from_le_bytes([
        bytes[from],
        bytes[from + 1],
        bytes[from + 2],
        bytes[from + 3],
        bytes[from + 4],
        bytes[from + 5],
        bytes[from + 6],
        bytes[from + 7],
    ])
}

// The bytes that are left, with 0 behind them. It calls itself, and so stays a call: the way of whole words has no loop in it.
// Byte by byte: a copy of so many bytes is a call of `memcpy`, which the library for callers in C would need from outside.
fn last_word(bytes: &[u8], from: usize) -> u64
    requires { length bytes.now < from + 8 }
    ensures { result ≡ value 8 bytes.now / 2 ^ (8 * from) % 2 ^ 64 }
{
    if from >= bytes.len() {
        return 0;
    }
    last_word(bytes, from + 1) * 256 + u64::from(bytes[from])
}
