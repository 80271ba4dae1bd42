//! The words of a line: the numbers that stand in it between spaces.
ghost use Rattle.std.specs.Prelude.{◌≡◌, ℕ, ◌+◌, ◌-◌, ◌*◌, ◌<◌, [], ◌∷◌, MatchOption, IsTrue};
ghost use Rattle.std.specs.Option.{SomeIff};
ghost use Rattle.line.specs.Grammar.{digit, spelled, numbers, not_understood, lettered};
ghost use Rattle.line.specs.Reading.{words};

use arrayvec::ArrayVec;

/// The most numbers that are kept: as many as a command with two corners has, and no command has more.
pub const MOST_NUMBERS: usize = 4;

/// The numbers of words with a space between each two, unless one spells no number or there are more than any command has.
pub fn numbers(bytes: &[u8]) -> Option<ArrayVec<u32, MOST_NUMBERS>>
    ensures { MatchOption result
        ((letter : ℕ) → lettered (letter ∷ []) (numbers (words bytes.now)) ≡ not_understood)
        (λ kept. numbers (words bytes.now) ≡ Some kept.items) }
{
    let mut numbers = ArrayVec::new();
    for word in bytes.split(|byte| *byte == b' ') {
        numbers.try_push(spelled(word)?).ok()?;
    }
    Some(numbers)
}

/// The number that a word spells.
fn spelled(word: &[u8]) -> Option<u32>
    ensures { result ≡ spelled word.now }
{
    if word.is_empty() {
        return None;
    }
    let mut number = 0;
    for byte in word {
        number = appended(number, *byte)?;
    }
    Some(number)
}

/// The number with one more decimal digit, unless the byte is none or that is past 4,294,967,295.
fn appended(number: u32, byte: u8) -> Option<u32>
    ensures { SomeIff result (IsTrue (digit byte) × (number * 10 + (byte - 48) < 4294967296)) (number * 10 + (byte - 48)) }
{
    let digit = char::from(byte).to_digit(10)?;
    number.checked_mul(10)?.checked_add(digit)
}
