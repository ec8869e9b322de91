//! Gates over a clause search, each told: a literal that stands for a conjunction, an exclusive or, a
//! choice, a parity or a majority of older literals.
//!
//! A gate makes a variable and adds the clauses that define it: in each assignment that makes all
//! clauses true the answered literal has the gate's value, and each assignment that made the old
//! clauses true extends to one that makes all true, with the old variables as they were. Both hold of
//! one gate by its truth table, and stay where gates are put together: a fact of all assignments that
//! make the clauses true stays where clauses are added, and an extension of an extension is one.
//!
//! The clauses are Tseitin's (On the complexity of derivation in propositional calculus, 1968). Each
//! variable that comes in is told with its gate, so that what the search learns can be written down.
#![tactic(auto)]

pub mod circuit;
mod defining;
pub mod folding;
pub mod gates;
pub mod laws;

pub use circuit::Circuit;
pub use defining::Gate;
pub use gates::{and2, majority3, mux, parity3, xor2};
