//! Lent bytes that text is written to.
ghost use Rattle.std.specs.Prelude.{◌≡◌, [], ◌∷◌, decimal};
ghost use Rattle.book.specs.Pages.{Wrote};
ghost use Rattle.book.specs.Replies.{opening, text, line};

use crate::{Refused, Reply};
use itoa::Buffer;

pub mod session;

/// Bytes that a caller lends, written from the front on. What finds no place is counted all the same, up to the greatest
/// count that there is; so the count stands beside the bytes, and may be greater than they are.
#[derive(Drop)]
pub struct Page<'a> {
    bytes: &'a mut [u8],
    len: usize,
}

// No `fmt::Write`: where that fails nothing is known of the page, and no clause of it says that a writer never fails.
impl Page<'_> {
    /// Writes bytes.
    fn write(&mut self, text: &[u8])
        ensures { Wrote self.old text.now self.new }
    {
        let start = self.len.min(self.bytes.len());
        let count = text.len().min(self.bytes.len() - start);
        self.bytes[start..start + count].copy_from_slice(&text[..count]);
        self.len = self.len.saturating_add(text.len());
    }

    /// Writes a number in decimal.
    fn number(&mut self, number: usize)
        ensures { Wrote self.old (decimal number) self.new }
    {
        self.write(Buffer::new().format(number).as_bytes());
    }

    /// Writes a letter and a number behind it.
    fn opening(&mut self, letter: u8, number: u8)
        ensures { Wrote self.old (opening letter number) self.new }
    {
        self.write(&[letter, b' ']);
        self.number(usize::from(number));
    }

    /// Writes the text of a reply.
    fn text(&mut self, reply: Reply)
        ensures { Wrote self.old (text reply) self.new }
    {
        match reply.outcome {
            Ok(None) => self.opening(reply.letter, 0),
            Ok(Some(held)) => {
                self.opening(reply.letter, 0);
                self.write(b" ");
                self.number(held);
            }
            Err(Refused::Line(refused)) => self.opening(b'?', u8::from(refused)),
            Err(refused) => self.opening(reply.letter, u8::from(refused)),
        }
    }

    /// Writes a reply on a line of its own.
    fn reply(&mut self, reply: Reply)
        ensures { Wrote self.old (line reply) self.new }
    {
        self.text(reply);
        self.write(b"\n");
    }
}
