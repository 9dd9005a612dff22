//! Tables in a book whose weights and joins were worked out by hand.
#![tactic(auto)]

#[cfg(test)]
mod best;
#[cfg(test)]
mod closing;
#[cfg(test)]
mod count;
pub mod examples;
#[cfg(test)]
mod parts;
#[cfg(test)]
mod prices;
#[cfg(test)]
mod sizes;
