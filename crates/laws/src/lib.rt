//! What is proved of the layers together.
#![tactic(auto)]

mod worked;

pub use worked::worked_examples;
