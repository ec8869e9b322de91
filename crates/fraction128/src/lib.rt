//! Exact fractions within 128 bits: each result is exact or a named refusal.
#![tactic(auto)]

mod errors;
mod euclid;
mod infinitesimal;
mod number;
mod order;
mod sizes;
#[cfg(test)]
mod tests;
mod text;

pub use errors::{FracError, Op, Wide};
pub use infinitesimal::Delta;
pub use number::Frac;
