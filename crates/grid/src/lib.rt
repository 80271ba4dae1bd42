//! The image grid and its cells.
#![tactic(auto)]

mod cell;
mod grid;
mod refusal;

pub use cell::Cell;
pub use grid::Grid;
pub use refusal::SideRefused;
