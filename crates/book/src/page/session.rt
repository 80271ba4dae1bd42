//! Replies to the lines of an input.
ghost use Rattle.std.specs.Prelude.{◌≡◌, ◌+◌, ◌*◌, ◌^◌, ◌≤◌, List, [], ◌++◌, length, take};
ghost use Rattle.std.specs.Option.{option_map};
ghost use Rattle.std.specs.Result.{result_ok};
ghost use Rattle.sheet.specs.Counts.{counts, counts_from};
ghost use Rattle.sheet.specs.Memory.{hits, tally, places};
ghost use Rattle.sheet.specs.declared.call.Call.{Call};
ghost use Rattle.line.specs.Pieces.{lines as lines_of};
ghost use Rattle.book.specs.Outcomes.{outcome_of_grid, side_of};
ghost use Rattle.book.specs.Pages.{laid, Part, Wrote};
ghost use Rattle.book.specs.Session.{calls, outcome_before, outcome_on, opens, on_grid, from_start, behind, texts, session};

use super::Page;
use crate::{Refused, Reply};
use grid::{Cell, Grid};
use line::{Command, Lines, NotUnderstood};
use sheet::Sheet;

/// The most bytes of an input that are read.
pub const MOST_INPUT: usize = 65_536;

/// The places of the program's sheet.
const PLACES: usize = 1024;

/// The grid that a line asks for, which no other line than `g` does.
fn asked_grid(line: Result<Command, NotUnderstood>) -> Result<Grid, Refused>
    ensures outcome { outcome_of_grid result ≡ outcome_before line }
    ensures side { option_map side_of (result_ok result) ≡ opens line }
{
    match line? {
        Command::Grid(side) => Ok(Grid::new(side)?),
        _ => Err(Refused::Line(NotUnderstood)),
    }
}

/// Does what a line asks of the sheet.
fn perform(
    sheet: &mut Sheet,
    line: Result<Command, NotUnderstood>,
) -> Result<Option<usize>, Refused>
    requires { places sheet.old.lent ≡ 1024 }
    ensures outcome { result ≡ outcome_on sheet.old.grid.side (tally (hits sheet.old.lent)) line }
    ensures counts { tally (hits sheet.new.lent) ≡ counts_from sheet.old.grid.side 1024 (tally (hits sheet.old.lent)) (calls line) }
    ensures places { places sheet.new.lent ≡ 1024 }
    ensures grid { sheet.new.grid ≡ sheet.old.grid }
{
    match line? {
        Command::Put(cell) => Ok(Some(sheet.put(cell)?)),
        Command::TakeBack(cell) => Ok(Some(sheet.take_back(cell)?)),
        Command::Clear => {
            sheet.clear();
            Ok(None)
        }
        Command::Grid(_) => Err(Refused::Line(NotUnderstood)),
    }
}

/// Replies to the lines up to one that opens a grid, and gives that grid; none where the lines end before.
fn open(lines: &mut Lines, page: &mut Page) -> Option<Grid>
    ensures { Part page.old (texts (from_start (lines_of lines.old.rest.now))) (texts (behind (option_map side_of result) [] (lines_of lines.new.rest.now))) page.new }
{
    // No `for`: `next` of a `&mut` does not promise that the `&mut` stays the same one, so after a loop nothing would be
    // known of the lines that are left.
    while let Some(line) = lines.next() {
        let asked = asked_grid(line);
        page.reply(Reply::new(line, asked.map(|_| None)));
        if let Ok(grid) = asked {
            return Some(grid);
        }
    }
    None
}

/// Replies to lines on a sheet.
fn serve(sheet: &mut Sheet, lines: &mut Lines, page: &mut Page)
    requires { places sheet.old.lent ≡ 1024 }
    ensures { (past : List Call) → tally (hits sheet.old.lent) ≡ counts sheet.old.grid.side 1024 past → Wrote page.old (texts (on_grid sheet.old.grid.side past (lines_of lines.old.rest.now))) page.new }
{
    for line in lines {
        let outcome = perform(sheet, line);
        page.reply(Reply::new(line, outcome));
    }
}

/// The part of an input that is read: 65,536 bytes at most.
fn read_part(input: &[u8]) -> &[u8]
    ensures { result.now ≡ take 65536 input.now }
{
    &input[..input.len().min(MOST_INPUT)]
}

/// Replies to an input, a line to each of its lines, and tells how many bytes the replies have. They are written to
/// `out` from its front on, as far as it reaches; what stands behind them stays.
pub fn replies(input: &[u8], out: &mut [u8]) -> usize
    ensures len { result ≡ length (session input.now) }
    ensures bytes { out.new ≡ laid 0 (session input.now) out.old }
{
    let mut lines = Lines::new(read_part(input));
    let mut page = Page { bytes: out, len: 0 };
    let Some(grid) = open(&mut lines, &mut page) else {
        return page.len;
    };
    let mut cells = [Cell { x: 0, y: 0 }; PLACES];
    let mut sheet = Sheet::new(grid, &mut cells);
    serve(&mut sheet, &mut lines, &mut page);
    page.len
}
