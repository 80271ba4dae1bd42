//! The lines of an input, one after another.
ghost use Rattle.std.specs.Prelude.{◌≡◌, ◌<◌, ◌∷◌, length};
ghost use Rattle.std.specs.Iterator.{item_count};
ghost use Rattle.line.specs.Pieces.{lines};
ghost use Rattle.line.specs.Reading.{Reads};

use crate::{Command, NotUnderstood};

/// The lines of an input that are still to be read.
#[derive(Drop)]
pub struct Lines<'a> {
    rest: &'a [u8],
}

impl<'a> Lines<'a> {
    /// All lines of the input.
    pub fn new(input: &'a [u8]) -> Lines<'a>
        ensures { result.rest.now ≡ input.now }
    {
        Lines { rest: input }
    }
}

impl Iterator for Lines<'_> {
    type Item = Result<Command, NotUnderstood>;

    ghost next_gives = { λ before said after. Reads (lines before.rest.now) said (lines after.rest.now) };

    ghost remaining = { item_count (λ left. lines left.rest.now) };

    fn next(&mut self) -> Option<Result<Command, NotUnderstood>> {
        if self.rest.is_empty() {
            return None;
        }
        let (line, rest) = first_line(self.rest);
        self.rest = rest;
        Some(Command::try_from(line))
    }
}

/// The first line of an input that has one, and what stands behind it: byte 10 ends the line, or the end of the input.
fn first_line(input: &[u8]) -> (&[u8], &[u8])
    ensures { 0 < length input.now → lines input.now ≡ result.0.now ∷ lines result.1.now }
{
    match input.iter().position(|byte| *byte == b'\n') {
        Some(end) => (&input[..end], &input[end + 1..]),
        None => (input, &[]),
    }
}
