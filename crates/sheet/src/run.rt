//! Whole runs of calls.
ghost use Rattle.std.specs.Prelude.{◌≡◌, true, map, length, drop, Ok};
ghost use Rattle.grid.specs.Cells.{count};
ghost use Rattle.sheet.specs.Counts.{none, counts, peak, answers};
ghost use Rattle.sheet.specs.Held.{hits_after};
ghost use Rattle.sheet.specs.Memory.{memory, places, hits, tally};
ghost use Rattle.sheet.specs.Runs.{call_of, answer_of, none_writes, Runs};

use crate::{Call, Refusal, Sheet};
use grid::{Cell, Grid};

/// A call and the answer that it got. Before the run any answer may stand there.
#[derive(Clone, Copy, Debug, PartialEq, Eq)]
pub struct Entry {
    pub call: Call,
    pub answer: Result<usize, Refusal>,
}

impl Entry {
    /// A call that is not answered yet: until it is, the answer that no hit is held stands beside it.
    pub fn new(call: Call) -> Entry
        ensures call { result.call ≡ call }
        ensures answer { result.answer ≡ Ok 0 }
    {
        Entry {
            call,
            answer: Ok(0),
        }
    }
}

impl Sheet<'_> {
    /// Makes the calls of a journal, the first one first, and writes each answer beside its call.
    pub fn run(&mut self, journal: &mut [Entry])
        ensures { Runs self.old self.new journal.old journal.new }
    {
        for entry in journal.iter_mut() {
            entry.answer = self.apply(entry.call);
        }
    }
}

/// Makes the calls of a journal on a new sheet, and gives that sheet.
pub fn run_new<'a>(grid: Grid, cells: &'a mut [Cell], journal: &mut [Entry]) -> Sheet<'a>
    ensures counts { tally (hits result.lent) ≡ counts grid.side (places result.lent) (map call_of journal.old) }
    ensures same { (c : Cell) → count c (hits result.lent) ≡ count c (hits_after grid.side (places result.lent) (map call_of journal.old)) }
    ensures answers { map answer_of journal.new ≡ answers grid.side (places result.lent) (map call_of journal.old) }
    ensures calls { map call_of journal.new ≡ map call_of journal.old }
    ensures left { none_writes journal.new ≡ true → memory result.lent ≡ cells.old }
    ensures behind { drop (peak grid.side (places result.lent) none (map call_of journal.old)) (memory result.lent) ≡ drop (peak grid.side (places result.lent) none (map call_of journal.old)) cells.old }
    ensures lent { result.lent.cells.ghost_name ≡ cells.entry.ghost_name }
    ensures places { places result.lent ≡ length cells.old }
    ensures grid { result.grid ≡ grid }
{
    let mut sheet = Sheet::new(grid, cells);
    sheet.run(journal);
    sheet
}
