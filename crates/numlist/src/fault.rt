//! Why bytes are not the string of a number list.
ghost use Rattle.std.specs.Prelude.{◌≡◌, ◌+◌, min};
ghost use Rattle.numlist.specs.Refusals.{test_number};

/// The first test that bytes fail, in the order of the tests.
#[derive(Clone, Copy, Debug, PartialEq, Eq)]
pub enum Test {
    /// There are too few bytes.
    TooFew,
    /// A fill bit is 1.
    Fill,
    /// An entry of the directory is wrong.
    Directory,
    /// A high part is 0.
    ZeroPart,
}

/// The number of a test: its place in the order of the tests, from 1 on.
impl From<Test> for u8 {
    ghost from_gives = { λ test n. n ≡ test_number test };

    fn from(test: Test) -> u8 {
        match test {
            Test::TooFew => 1,
            Test::Fill => 2,
            Test::Directory => 3,
            Test::ZeroPart => 4,
        }
    }
}

/// The test that failed, and the level of the list that made it: 0 is the top.
#[derive(Clone, Copy, Debug, PartialEq, Eq)]
pub struct ListFault {
    pub level: usize,
    pub test: Test,
}

impl ListFault {
    /// The fault of a test that a list makes itself.
    pub fn here(test: Test) -> ListFault
        ensures { result ≡ record { level = 0; test = test } }
    {
        ListFault { level: 0, test }
    }

    /// A fault of the list below, as the list over it tells it.
    pub fn one_deeper(self) -> ListFault
        ensures { result ≡ record { level = min 18446744073709551615 (self.level + 1); test = self.test } }
    {
        ListFault {
            level: self.level.saturating_add(1),
            test: self.test,
        }
    }
}
