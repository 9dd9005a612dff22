//! A book: a ledger, and a lent shelf that holds the numbers of its tables.
#![tactic(auto)]

mod asking;
pub mod book;
pub mod closing;
mod joining;
mod parting;
mod placing;
mod reading;
mod shelf;
mod weighing;
