//! A place in bytes that are being written.
ghost use Rattle.std.specs.Prelude.{◌^◌, ◌<◌};

mod writing;

/// Where the writing of packed numbers stands: `at` bytes are written, and the last `fill` bits are not yet.
#[derive(Clone, Copy)]
pub struct Pen {
    at: usize,
    bits: u64,
    fill: u32,
    ghost part: { fill < 64 },
    ghost low: { bits < 2 ^ fill },
}
