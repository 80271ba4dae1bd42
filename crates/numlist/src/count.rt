//! How many numbers a string has.
ghost use Rattle.std.specs.Prelude.{◌≡◌, ◌≤◌, is_some, IfSome, nat_le};
ghost use Rattle.numlist.specs.Lists.{most};

use crate::MOST_NUMBERS;

/// A number of numbers, no more than a list may have.
#[derive(Clone, Copy)]
pub struct Count {
    pub(crate) numbers: usize,
    ghost few: { numbers ≤ most },
}

impl Count {
    /// So many numbers, where a list may have them.
    pub fn new(numbers: usize) -> Option<Count>
        ensures few { is_some result ≡ nat_le numbers most }
        ensures made { IfSome result (λ count. count.numbers ≡ numbers) }
    {
        if numbers > MOST_NUMBERS {
            return None;
        }
        Some(Count { numbers })
    }

    /// How many there are.
    pub fn get(self) -> usize
        ensures value { result ≡ self.numbers }
        ensures few { result ≤ most }
    {
        self.numbers
    }
}
