//! Kinds of number: what a price table or a forecast is counted in, and the faults that every call answers with.
#![tactic(auto)]

pub mod best;
pub mod count;
pub mod fault;
pub mod kind;
mod whole;
