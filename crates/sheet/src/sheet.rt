//! The sheet and its memory.
ghost use Rattle.std.specs.Prelude.{◌≡◌, ℕ, ◌+◌, ◌<◌, ◌≤◌, true, [], length, position, slice_index_or, slice_set};
ghost use Rattle.grid.specs.Cells.{on, same, origin};

use grid::{Cell, Grid};

mod calls;
mod tree;

/// The most hits that any sheet holds.
const MOST_HITS: usize = 1_048_576;

/// Cells that a caller lends. The first `held` of them are hits, and the content of the others is of no account. The memory
/// is the caller's and never grows, so it is a slice and a count. Contracts tell of every place, those behind the hits too,
/// and of whose memory it is: so they see these fields, and no model that would forget some.
#[derive(Drop)]
pub struct Lent<'a> {
    cells: &'a mut [Cell],
    held: usize,
    ghost within: { held ≤ length cells.now },
}

/// The hits of one field, which are counted and not ordered.
#[derive(Drop)]
pub struct Sheet<'a> {
    grid: Grid,
    lent: Lent<'a>,
    ghost most: { lent.held ≤ 1048576 },
    ghost placed: { (k : ℕ) → k < lent.held → on grid.side (slice_index_or lent.cells.now k origin) ≡ true },
}

impl Lent<'_> {
    ghost use Rattle.sheet.specs.Counts.{room};
    ghost use Rattle.sheet.specs.Memory.{memory, places, hits};

    /// The most hits that there can be.
    fn room(&self) -> usize
        ensures { result ≡ room (places self.now) }
    {
        self.cells.len().min(MOST_HITS)
    }

    /// The hits, in the order in which they lie.
    fn hits(&self) -> &[Cell]
        ensures { result.now ≡ hits self.now }
    {
        &self.cells[..self.held]
    }

    /// The first place that holds the cell.
    fn find(&self, cell: Cell) -> Option<usize>
        ensures { result ≡ position (same cell) (hits self.now) }
    {
        self.hits().iter().position(|hit| *hit == cell)
    }

    /// One hit more, at the place behind the others.
    fn add(&mut self, cell: Cell)
        requires { self.old.held < places self.old }
        ensures held { self.new.held ≡ self.old.held + 1 }
        ensures memory { memory self.new ≡ slice_set (memory self.old) self.old.held cell }
        ensures lent { self.new.cells.ghost_name ≡ self.old.cells.ghost_name }
    {
        self.cells[self.held] = cell;
        self.held += 1;
    }

    /// Closes up over the hit at the place: the last hit takes its place.
    fn close_up(&mut self, place: usize)
        requires { place < self.old.held }
        ensures held { self.new.held + 1 ≡ self.old.held }
        ensures memory { memory self.new ≡ slice_set (memory self.old) place (slice_index_or (memory self.old) self.new.held origin) }
        ensures lent { self.new.cells.ghost_name ≡ self.old.cells.ghost_name }
    {
        self.held -= 1;
        self.cells[place] = self.cells[self.held];
    }
}

impl<'a> Sheet<'a> {
    ghost use Rattle.sheet.specs.Memory.{memory, hits};

    /// A sheet on this grid that holds no hit, whatever the memory contains.
    pub fn new(grid: Grid, cells: &'a mut [Cell]) -> Sheet<'a>
        ensures hits { hits result.lent ≡ [] }
        ensures memory { memory result.lent ≡ cells.old }
        ensures lent { result.lent.cells.ghost_name ≡ cells.entry.ghost_name }
        ensures grid { result.grid ≡ grid }
    {
        Sheet {
            grid,
            lent: Lent { cells, held: 0 },
        }
    }

    /// How many hits are held.
    pub fn held(&self) -> usize
        ensures { result ≡ length (hits self.now.lent) }
    {
        self.lent.held
    }
}
