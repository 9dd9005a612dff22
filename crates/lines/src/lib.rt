//! Verbs, the line that opens a book, and the answers to lines.
#![tactic(auto)]

pub mod openings;
pub mod replies;
pub mod verbs;
pub mod words;
