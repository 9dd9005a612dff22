//! What the calls on a book answer and leave, and what a list of them tells: definitions and theorems, and no code that runs.
#![tactic(auto)]

pub mod answers;
pub mod laws;
