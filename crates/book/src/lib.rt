//! The store behind the program's lines.
#![tactic(auto)]

mod page;
mod refusal;
mod reply;

pub use page::session::{MOST_INPUT, replies};
pub use refusal::Refused;
pub use reply::Reply;
