//! The ledger of a book: a line for each table and a record for each part, in order of entry.
#![tactic(auto)]

pub mod asking;
mod entering;
mod joining;
pub mod ledger;
pub mod line;
pub mod lines;
pub mod part;
mod parting;
pub mod parts;
mod standing;
