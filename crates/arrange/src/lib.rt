//! The implicit Kd-tree: a list of elements, each part of which is cut in its middle, by x and by y in turn.
#![tactic(auto)]

mod same;
mod tree;

pub use same::same_tree;
pub use tree::arrange;
