//! The calls of a sheet.
use grid::Cell;

/// A call of a sheet, with its argument.
#[derive(Clone, Copy, Debug, PartialEq, Eq)]
pub enum Call {
    /// One hit of the cell more.
    Put(Cell),
    /// One hit of the cell less.
    TakeBack(Cell),
    /// All hits removed, as at the start.
    Clear,
    /// How many hits are held?
    Held,
}
