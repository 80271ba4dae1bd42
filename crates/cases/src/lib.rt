//! Worked examples of the whole program, of the sheet, of number lists and of packed spots, each proved to be safe and then run.
#![tactic(auto)]

#[cfg(test)]
mod lines;
#[cfg(test)]
mod lists;
#[cfg(test)]
mod sheets;
#[cfg(test)]
mod spots;
