//! Bit-vector operators as circuits of gates over a clause search. Literal lists have the low bit first.
//!
//! In each assignment that makes all clauses true the answered literals are the operator's bits, and
//! each assignment that made the old clauses true extends to one that makes all true, with the old
//! variables as they were. The gates keep that where they are put together; what their bits say as
//! numbers is arithmetic. A ripple of full adders is a sum, rows of conjunctions added are a product,
//! and a restoring division has at each step the quotient and the remainder of the bits that it has
//! seen. The circuits are those of the textbooks on computer arithmetic.
#![tactic(auto)]

pub mod adding;
pub mod bitwise;
pub mod comparing;
pub mod dividing;
pub mod laws;
pub mod multiplying;
pub mod shifting;
pub mod signed;
#[cfg(test)]
mod tests;
pub mod words;

pub use clause_gates::{Circuit, Gate, and2, mux, xor2};
pub use words::{BitOp, BitTest, test, test_beside, word, word_beside};
