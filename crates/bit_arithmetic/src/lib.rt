//! The operators on bit-vectors of 1 to 128 bits, computed on numbers.
//!
//! A `Word` is a width and a number below 2^width. `apply` answers what the definitions of meaning make of an operator
//! and some words, `apply_at` the same for the operators that take numbers beside one word; both ask that nothing is
//! wrong with the words' types, by the definition that tells misfits. The result is a word again, so its number is
//! below 2^width: that is a part of its type.
//!
//! Numbers of 128 bits wrap at 2^128, and 2^128 is no such number. A sum, difference or product that wrapped is right
//! all the same, since the low bits of what wrapped are those of the whole (`proofs/Moduli.antt`), and the bits above
//! the width are cut off afterwards. Signed operators go by sizes and signs, as the definitions do.
//!
//! The operators are those of SMT-LIB 2's theory FixedSizeBitVectors and logic QF_BV, division by zero included.
#![tactic(auto)]

mod bitwise;
mod division;
mod folds;
mod joins;
mod modular;
mod operators;
mod orders;
mod shifts;
mod signs;
#[cfg(test)]
mod tests;
mod words;

pub use operators::{apply, apply_at};
pub use words::{Outcome, Word};
