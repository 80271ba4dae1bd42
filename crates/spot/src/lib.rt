//! The packed spot: what a full sheet becomes.
#![tactic(auto)]

mod codes;
mod make;
mod packing;
mod refusal;
mod run;
mod trailer;

pub use make::Make;
pub use packing::pack;
pub use refusal::{MakeRefused, PackRefused};
pub use run::run_and_pack;
pub use trailer::{TRAILER_BYTES, Trailer};
