//! What a line asks for.
ghost use Rattle.std.specs.Prelude.{◌≡◌};
ghost use Rattle.line.specs.Grammar.{command, opening, understood};

use crate::NotUnderstood;
use crate::words::numbers;
use grid::Cell;

/// What a line asks for.
#[derive(Clone, Copy, Debug, PartialEq, Eq)]
pub enum Command {
    /// `g`: a grid of this side.
    Grid(u32),
    /// `p`: one hit of the cell more.
    Put(Cell),
    /// `t`: one hit of the cell less.
    TakeBack(Cell),
    /// `c`: all hits removed.
    Clear,
}

impl Command {
    /// The command of a letter and the numbers behind it.
    pub fn new(letter: char, numbers: &[u32]) -> Result<Command, NotUnderstood>
        ensures { result ≡ command letter numbers.now }
    {
        match (letter, numbers) {
            ('g', [side]) => Ok(Command::Grid(*side)),
            ('p', [x, y]) => Ok(Command::Put(Cell { x: *x, y: *y })),
            ('t', [x, y]) => Ok(Command::TakeBack(Cell { x: *x, y: *y })),
            ('c', []) => Ok(Command::Clear),
            _ => Err(NotUnderstood),
        }
    }

    /// The letter that a line with this command opens with.
    pub fn letter(self) -> u8
        ensures { result ≡ opening self }
    {
        match self {
            Command::Grid(_) => b'g',
            Command::Put(_) => b'p',
            Command::TakeBack(_) => b't',
            Command::Clear => b'c',
        }
    }
}

/// The command that a line is.
impl TryFrom<&[u8]> for Command {
    type Error = NotUnderstood;

    ghost try_from_gives = { λ line said. said ≡ understood line.now };

    fn try_from(line: &[u8]) -> Result<Command, NotUnderstood> {
        match line {
            [letter] => Command::new(char::from(*letter), &[]),
            [letter, b' ', words @ ..] => {
                let numbers = numbers(words).ok_or(NotUnderstood)?;
                Command::new(char::from(*letter), numbers.as_slice())
            }
            _ => Err(NotUnderstood),
        }
    }
}
