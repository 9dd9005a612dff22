//! Lines on a book: opening one by a line, and what the lines behind it ask of it.
#![tactic(auto)]

pub mod answering;
mod asking;
pub mod chaining;
pub mod opening;
mod parting;
pub mod serving;
