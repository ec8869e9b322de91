//! Simplex over exact fractions: bounds on variables that are tied by rows, answered by values that meet them, by
//! multipliers of bounds whose sum is a contradiction, or by an operation that is too wide.
#![tactic(auto)]

mod certificate;
mod checking;
mod choice;
mod concrete;
mod lists;
mod simplex;
#[cfg(test)]
mod tests;
mod wide;

pub use certificate::conflicts_refute;
pub use lists::{Fracs, Multipliers, Vars};
pub use simplex::{Outcome, Simplex};
pub use wide::{Stop, WideAt};
