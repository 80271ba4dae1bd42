//! Writing numbers into lent bytes.
ghost use Rattle.std.specs.Prelude.{◌≡◌, ℕ, ◌+◌, ◌%◌, ◌^◌, ◌≤◌, List, [], ◌∷◌, ◌++◌, length, drop};
ghost use Rattle.bits.specs.Packing.{room, packed};
ghost use Rattle.bits.specs.Writing.{Written, pushed};

use crate::{Pen, Width};

/// Lent bytes and the pen that writes into them.
#[derive(Drop)]
pub struct Writer<'a> {
    out: &'a mut [u8],
    pen: Pen,
}

impl<'a> Writer<'a> {
    /// A writer at the front of the bytes, which has written nothing.
    pub fn new(out: &'a mut [u8]) -> Writer<'a>
        ensures written { (w : ℕ) → Written w result.pen out.old result.out.now [] }
        ensures lent { result.out.ghost_name ≡ out.entry.ghost_name }
    {
        Writer {
            out,
            pen: Pen::new(),
        }
    }
}

impl Writer<'_> {
    /// Writes the lowest bits of a number behind the numbers written before.
    pub fn push(&mut self, width: Width, number: u64)
        ensures written { (start xs : List ℕ) → room width.bits (length xs + 1) ≤ length start → Written width.bits self.old.pen start self.old.out.now xs → Written width.bits self.new.pen start self.new.out.now (xs ++ number % 2 ^ width.bits ∷ []) }
        ensures lent { self.new.out.ghost_name ≡ self.old.out.ghost_name }
    {
        self.pen = self.pen.push(self.out, width, number);
    }

    /// Writes the lowest bits of a number if there is one, and nothing if there is none.
    pub fn push_some(&mut self, width: Width, number: Option<u64>)
        ensures written { (start xs : List ℕ) → room width.bits (length (xs ++ pushed width.bits number)) ≤ length start → Written width.bits self.old.pen start self.old.out.now xs → Written width.bits self.new.pen start self.new.out.now (xs ++ pushed width.bits number) }
        ensures lent { self.new.out.ghost_name ≡ self.old.out.ghost_name }
    {
        self.pen = self.pen.push_some(self.out, width, number);
    }

    /// Writes a count.
    pub fn push_count(&mut self, count: u32)
        ensures written { (start xs : List ℕ) → room 32 (length xs + 1) ≤ length start → Written 32 self.old.pen start self.old.out.now xs → Written 32 self.new.pen start self.new.out.now (xs ++ count ∷ []) }
        ensures lent { self.new.out.ghost_name ≡ self.old.out.ghost_name }
    {
        self.push(Width::COUNT, u64::from(count));
    }

    /// Writes the bits that are left, and fills the last byte up with 0 bits.
    pub fn finish(self)
        ensures { (w : ℕ) (start xs : List ℕ) → room w (length xs) ≤ length start → Written w self.entry.pen start self.entry.out.now xs → self.exit.0.now ≡ packed w xs ++ drop (room w (length xs)) start }
    {
        self.pen.finish(self.out);
    }
}
