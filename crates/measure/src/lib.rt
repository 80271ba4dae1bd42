//! Measures: figures that are joined hit by hit, in any order.
#![tactic(auto)]

mod count;
mod extent;
mod measure;
mod sums;

pub use count::Count;
pub use extent::{Bounds, Extent};
pub use measure::Measure;
pub use sums::{Sums, Totals};
