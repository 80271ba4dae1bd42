//! A cell of the image grid.
ghost use Rattle.std.specs.Prelude.{◌≡◌};
ghost use Rattle.grid.specs.Cells.{same};
ghost use Rattle.grid.specs.Joined.{joined, cell_of_joined};

/// A cell of the image grid, by its column and its row. A hit is the cell that a ray landed in. Callers in C and Rust lend
/// memory of cells, so its layout is that of C.
#[derive(Clone, Copy, Debug, PartialEq, Eq)]
#[repr(C)]
pub struct Cell {
    pub x: u32,
    pub y: u32,
}

impl Cell {
    /// Whether both are the same cell. A derive has no clause here, so this one says what `==` of cells means.
    pub fn is(self, other: Cell) -> bool
        ensures { result ≡ same self other }
    {
        self == other
    }
}

/// A cell as one number, its column in the upper half and its row in the lower.
impl From<Cell> for u64 {
    ghost from_gives = { λ cell number. number ≡ joined cell };

    fn from(cell: Cell) -> u64 {
        u64::from(cell.x) << 32 | u64::from(cell.y)
    }
}

/// The cell whose column is the upper half of a number and whose row is the lower.
impl From<u64> for Cell {
    ghost from_gives = { λ number cell. cell ≡ cell_of_joined number };

    fn from(number: u64) -> Cell {
        Cell {
            x: (number >> 32) as u32,
            y: (number & 0xffff_ffff) as u32,
        }
    }
}
