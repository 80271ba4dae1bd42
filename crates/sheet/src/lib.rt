//! The sheet: the hits of one field, in memory that the caller lends.
#![tactic(auto)]

mod call;
mod refusal;
mod run;
mod sheet;

pub use call::Call;
pub use refusal::Refusal;
pub use run::{Entry, run_new};
pub use sheet::{Lent, Sheet};
