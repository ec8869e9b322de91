//! The simplifying constructors of truth values over a table of terms.
//!
//! `build` answers, for a constructor and live arguments with types that it takes, a live term that under every assignment
//! means what the operator makes of the arguments' trees. For n arguments at most 4 + n terms are new, at most 4 + n
//! subtrees of the answer's tree stand in no argument's tree, and these are no constants and no variables. Else it tells
//! the first dead argument, or the first misfit of the operator's row. `not`, `and`, `or`, `xor`, `implies`, `iff`, `ite`,
//! `eq`, `neq` and `distinct` are its ten constructors. What was said of live terms lasts (`after_building`), and one
//! constructor over unchanged arguments answers one handle (`one_answer`). Each new term stands in the answer, so a call
//! that was answered before changes nothing while that answer is live (`nothing_added_again`).
//!
//! A call is judged first, by a shape with the same row. Its arguments are taken as literals, by their shapes, and the
//! sketch of `term_sketches` says what is made of them: a function of the operator and of these literals, with the
//! operator's meaning. `realise` makes the terms that a sketch says: each literal's term first, then the shape over these,
//! then its negation. Each is looked for before it is made, so it is the table's one handle of its shape; a table only
//! grows here, so the terms that were made stay. Terms that are shared and simplified as they are made go back to the
//! structural hashing of circuits (Kuehlmann and Krohm, Equivalence checking using cuts and heaps, 1997); the rules are
//! those of `term_sketches`.
#![tactic(auto)]

mod building;
mod checking;
mod constructors;
mod errors;
mod laws;
mod literals;
mod realising;
mod rows;
mod sketched;
#[cfg(test)]
mod tests;

pub use building::build;
pub use constructors::{and, distinct, eq, iff, implies, ite, neq, not, or, xor};
pub use errors::BuildError;
pub use laws::{after_building, nothing_added_again, one_answer};
pub use term_sketches::Operator;
