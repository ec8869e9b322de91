//! Models of a table's constants, and the values of terms in them.
//!
//! A model is a list of live constants, each with a value of its type; every other constant has the zero of its type. Its
//! one contract: `Model::value` answers what the tree that a term stands for means under the assignment that the model
//! makes (`assignment_of`), or tells why there is none: a dead term, a variable below it, or a sum below it one of whose
//! operations doesn't fit a fraction of 128 bits.
//!
//! It is right since the distinct subterms come arguments first (`term_orders`), and the value of each is made by its
//! operator of the values of its arguments, as the meaning of trees is. One pass over them needs no recursion, and looks
//! each argument up once. Values of functions that are one may differ in what entries they have; that operators keep what
//! is one is a law of the meaning (`y_tree::laws::congruence`).
#![tactic(auto)]

mod errors;
mod evaluating;
mod functions;
mod known;
mod model;
mod numbers;
mod shapes;
mod sorts;
#[cfg(test)]
mod tests;
mod truths;
mod values;
mod vectors;

pub use errors::{EvalError, ModelError};
pub use model::Model;
pub use values::TermValues;
