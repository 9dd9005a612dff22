//! The bytes of lines: input cut into lines, lines into fields, fields into numbers.
#![tactic(auto)]

pub mod fields;
pub mod input;
pub mod numbers;
