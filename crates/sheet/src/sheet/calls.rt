//! The calls of a sheet.
ghost use Rattle.std.specs.Prelude.{Ok};
ghost use Rattle.sheet.specs.Memory.{Does};

use crate::{Call, Refusal, Sheet};
use grid::Cell;

impl Sheet<'_> {
    /// Adds one hit, and tells how many are then held.
    pub fn put(&mut self, cell: Cell) -> Result<usize, Refusal>
        ensures { Does self.old self.new (Call.Put cell) result }
    {
        if !self.grid.has(cell) {
            return Err(Refusal::OffGrid);
        }
        if self.lent.held >= self.lent.room() {
            return Err(Refusal::Full);
        }
        self.lent.add(cell);
        Ok(self.lent.held)
    }

    /// Removes one hit of the cell, and tells how many are then held.
    pub fn take_back(&mut self, cell: Cell) -> Result<usize, Refusal>
        ensures { Does self.old self.new (Call.TakeBack cell) result }
    {
        if !self.grid.has(cell) {
            return Err(Refusal::OffGrid);
        }
        let place = self.lent.find(cell).ok_or(Refusal::NotHeld)?;
        self.lent.close_up(place);
        Ok(self.lent.held)
    }

    /// Removes all hits, as at the start. It has no answer; of a call in a run the answer is that 0 hits are held.
    pub fn clear(&mut self)
        ensures { Does self.old self.new Call.Clear (Ok 0) }
    {
        self.lent.held = 0;
    }

    /// Does what a call says, and tells how many hits are then held.
    pub fn apply(&mut self, call: Call) -> Result<usize, Refusal>
        ensures { Does self.old self.new call result }
    {
        match call {
            Call::Put(cell) => self.put(cell),
            Call::TakeBack(cell) => self.take_back(cell),
            Call::Clear => {
                self.clear();
                Ok(0)
            }
            Call::Held => Ok(self.held()),
        }
    }
}
