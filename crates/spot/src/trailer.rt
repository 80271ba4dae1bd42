//! The trailer of a packed spot.
ghost use Rattle.std.specs.Prelude.{◌≡◌, ◌+◌, ◌*◌, ◌≤◌, ◌++◌, length, drop};
ghost use Rattle.spot.specs.Spots.{trailer_bytes, edition};

use bits::Writer;
use grid::Cell;

/// How many bytes a trailer has.
pub const TRAILER_BYTES: usize = 24;

/// The edition of the format.
const EDITION: u32 = 1;

/// What stands behind the codes of a packed spot.
#[derive(Clone, Copy)]
pub struct Trailer {
    /// The bytes of the number list before the trailer.
    pub length: u32,
    /// The number of hits.
    pub hits: u32,
    /// The cell of the root.
    pub root: Cell,
    /// The side of the grid.
    pub side: u32,
    /// The make number.
    pub make: u16,
}

impl Trailer {
    /// Puts the trailer at the front of the bytes.
    pub(crate) fn put(self, out: &mut [u8])
        requires { 24 ≤ length out.old }
        ensures { out.new ≡ trailer_bytes self ++ drop 24 out.old }
    {
        let mut writer = Writer::new(out);
        writer.push_count(self.length);
        writer.push_count(self.hits);
        writer.push_count(self.root.x);
        writer.push_count(self.root.y);
        writer.push_count(self.side);
        writer.push_count(tag(self.make));
        writer.finish();
    }
}

// The make number, with the edition above it.
fn tag(make: u16) -> u32
    ensures { result ≡ make + 65536 * edition }
{
    u32::from(make) + 65_536 * EDITION
}
