//! Cells as numbers: where a cell lies from its parent cell.
#![tactic(auto)]

mod client;
mod code;
mod refusal;
mod ring;
mod row;

pub use client::round_trip;
pub use code::CellCode;
pub use refusal::OffGrid;
pub use ring::RingCode;
pub use row::RowCode;
