//! Piles of number lists that are chosen at run time.
#![tactic(auto)]

mod layer;
mod pile;
mod refusal;

pub use layer::{Layer, LayerLayout};
pub use pile::{MOST_CUTS, Pile, new_pile};
pub use refusal::PileRefused;
