//! Checks formulas of a table, with assumptions, for truth values of their constants.
//!
//! [`check_terms`] answers a truth value for each constant below the formulas and assumptions, under which all of them are
//! true; or some of the assumptions, which no assignment makes true together with the formulas; or, under a limit of turns
//! alone, what was learned before it was passed. It knows no levels, and reads the table alone.
//!
//! It is right since it decides the very trees that the terms stand for: the distinct subterms, arguments before the terms
//! that hold them, become the numbered nodes of a problem (`node_encoding`), and node number k stands for the tree of the
//! k-th subterm. What `theory_combine` says of the nodes is therefore true of the terms. This is the step from a shared
//! graph of terms to literals that lazy solvers take before the search (Tseitin, On the complexity of derivation in
//! propositional calculus, 1968, names each subterm so).
#![tactic(auto)]

mod answers;
mod building;
mod checking;
mod laws;
mod lists;
mod sorting;

pub use answers::{CheckError, TermValues, TermVerdict};
pub use checking::check_terms;
pub use laws::{formulas_last, one_tree_each, verdicts_last};
pub use sorting::{are_formulas, is_truth_value};
pub use theory_combine::{Learned, Turns};

#[cfg(test)]
mod tests;
