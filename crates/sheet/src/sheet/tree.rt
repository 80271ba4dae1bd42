//! The hits of a sheet as a tree.
ghost use Rattle.std.specs.Prelude.{◌≡◌, drop};
ghost use Rattle.select.specs.CellOrders.{before};
ghost use Rattle.arrange.specs.Computed.{tree};
ghost use Rattle.arrange.specs.Trees.{Arranges};
ghost use Rattle.sheet.specs.Arranged.{Keeps};
ghost use Rattle.sheet.specs.Memory.{memory, places, hits};

use crate::{Lent, Sheet};
use arrange::arrange;
use grid::{Cell, Grid};
use select::Axis;

impl Lent<'_> {
    /// Arranges the hits, and leaves the cells behind them. The memory of the hits is lent on from here, where it is a field
    /// of `self`: from a method of the sheet, where it lies a struct deeper, it cannot be lent yet.
    fn arrange(&mut self)
        ensures held { self.new.held ≡ self.old.held }
        ensures tree { Arranges before Axis.X (hits self.old) (hits self.new) }
        ensures behind { drop self.old.held (memory self.new) ≡ drop self.old.held (memory self.old) }
        ensures lent { self.new.cells.ghost_name ≡ self.old.cells.ghost_name }
        ensures places { places self.new ≡ places self.old }
    {
        let held = self.held;
        let cells = &mut *self.cells;
        arrange(&mut cells[..held]);
    }
}

impl Sheet<'_> {
    /// Arranges the hits as a tree that is cut by x first. None comes or goes.
    pub fn arrange(&mut self)
        ensures keeps { Keeps self.old self.new }
        ensures tree { Arranges before Axis.X (hits self.old.lent) (hits self.new.lent) }
        ensures is { hits self.new.lent ≡ tree before Axis.X (hits self.old.lent) }
    {
        self.lent.arrange();
    }

    /// The hits that are held, in the order in which they lie.
    pub fn hits(&self) -> &[Cell]
        ensures { result.now ≡ hits self.now.lent }
    {
        self.lent.hits()
    }

    /// The grid of the sheet.
    pub fn grid(&self) -> Grid
        ensures { result ≡ self.now.grid }
    {
        self.grid
    }
}
