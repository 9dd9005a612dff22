//! Tables of a book: how many events and states they have, how many numbers that makes, which numbers may stand in them, and what words weigh in them.
#![tactic(auto)]

pub mod entries;
pub mod shape;
pub mod weighing;
pub mod words;
