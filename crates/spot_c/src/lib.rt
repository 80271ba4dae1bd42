//! The library for callers in C and Rust: exported functions on numbers and slices.
#![tactic(auto)]

mod code;
mod codes;
mod lists;
mod packs;
mod refusal;

pub use codes::{
    spot_ring_decode, spot_ring_decode_each, spot_ring_encode, spot_ring_encode_each,
    spot_row_decode, spot_row_decode_each, spot_row_encode, spot_row_encode_each,
};
pub use lists::{spot_list_open, spot_list_read, spot_list_write};
pub use packs::spot_pack;
