//! Number lists: many numbers as one string of bytes.
#![tactic(auto)]

mod above;
mod count;
mod cut;
mod fault;
mod fixed;
mod list;
mod parts;
mod places;
mod refusal;
mod trip;

pub use above::Above;
pub use count::Count;
pub use cut::{Cut, CutLayout, MOST_CUT_BITS};
pub use fault::{ListFault, Test};
pub use fixed::Fixed;
pub use list::{MOST_NUMBERS, NumberList};
pub use places::Places;
pub use refusal::{CutRefused, OpenRefused, ReadRefused, WidthRefused, WriteRefused};
pub use trip::comes_back;
