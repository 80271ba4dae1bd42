//! Numbers of so many bits, packed into bytes.
#![tactic(auto)]

mod counting;
mod pen;
mod reading;
mod width;
mod writer;

pub use counting::{few_ones, ones};
pub use pen::Pen;
pub use reading::{bit, is_filled, read, word};
pub use width::{MOST_BITS, Width};
pub use writer::Writer;
