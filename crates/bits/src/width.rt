//! How many bits a number takes.
ghost use Rattle.std.specs.Prelude.{◌≡◌, ◌≤◌, is_some, IfSome};
ghost use Rattle.bits.specs.Widths.{allowed};

/// The most bits of a number.
pub const MOST_BITS: u32 = 48;

/// The number of bits that each number takes, from 1 to 48.
#[derive(Clone, Copy, Debug, PartialEq, Eq)]
pub struct Width {
    bits: u32,
    ghost low: { 1 ≤ bits },
    ghost high: { bits ≤ 48 },
}

impl Width {
    /// The width of a mark.
    pub const MARK: Width = Width { bits: 1 };

    /// The width of a count.
    pub const COUNT: Width = Width { bits: 32 };

    /// The width of so many bits, where that is from 1 to 48.
    pub fn new(bits: u32) -> Option<Width>
        ensures allowed { is_some result ≡ allowed bits }
        ensures made { IfSome result (λ w. w.bits ≡ bits) }
    {
        if (1..=MOST_BITS).contains(&bits) {
            Some(Width { bits })
        } else {
            None
        }
    }

    /// The number of bits.
    pub fn bits(self) -> u32
        ensures value { result ≡ self.bits }
        ensures low { 1 ≤ result }
        ensures high { result ≤ 48 }
    {
        self.bits
    }
}
