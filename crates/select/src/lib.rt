//! Selection in place: the element that order puts at a place is brought there.
#![tactic(auto)]

mod cells;
mod element;
mod partition;
mod pivot;
mod sample;
mod selection;

pub use element::{Axis, Element};
pub use selection::select;
