//! What a line asks of an open book.
#![tactic(auto)]

pub mod requests;
pub mod statements;
