//! The lines of the program: from bytes to commands.
#![tactic(auto)]

mod command;
mod lines;
mod refusal;
mod words;

pub use command::Command;
pub use lines::Lines;
pub use refusal::NotUnderstood;
