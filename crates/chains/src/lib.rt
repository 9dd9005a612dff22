//! Labeled Markov chains as tables of a book.
#![tactic(auto)]

pub mod chain;
mod checks;
pub mod laws;
mod steps;
