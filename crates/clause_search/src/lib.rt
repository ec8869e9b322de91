//! A search for values of variables that make clauses true, which learns from its conflicts.
//!
//! A [`Search`] holds variables and clauses, in levels that can be taken back. [`Search::solve`] is its one promise:
//! it answers values under which all clauses and assumptions are true and that the caller's [`Checker`] accepted, or
//! assumptions that can't be true together with the clauses and what the checker stands for, or, under a limit alone,
//! the clauses that were learned, each new where it was learned.
//!
//! Each clause that the search holds follows from the given ones and the checker's, since it is learned by resolution
//! along the reasons of a conflict: so a conflict that no decision is part of refutes the clauses with the assumptions.
//! Values are answered only where each variable has one and no clause is false. A round gives one variable more a
//! value, or learns. Before the last level of a conflict propagation had nothing left to do, and there the learned
//! clause had one open literal and all others false: so propagation along the clauses that there were doesn't find
//! what it says, and it is none of them. As there are at most 3^n different clauses over n variables, the search ends.
//! Clauses are thrown away only between stretches that are counted, and never under a limit.
//!
//! The method is conflict-driven learning as in N. Eén and N. Sörensson, An extensible SAT-solver, 2003: propagation
//! along two watched literals of each clause, the clause of the first unique implication point, decisions by activity,
//! restarts, and assumptions as the first decisions. The trail and the analysis are in `clause_trail`, the choices that
//! no proof rests on in `clause_choice`.
#![tactic(auto)]

pub mod checker;
pub mod loading;
pub mod reducing;
pub mod search;
pub mod solving;
#[cfg(test)]
mod tests;
pub mod unchecked;

pub use checker::{Checker, Look};
pub use clause_logic::Lit;
pub use clause_logic::lists::{Assignment, Clause, Clauses, Lits};
pub use search::Search;
pub use unchecked::Unchecked;

/// How many clauses a search may learn.
#[derive(Clone, Copy, PartialEq, Eq, Debug)]
pub enum Turns {
    /// As many as it needs.
    Whole,
    /// So many, and no more.
    Counted(u64),
}

/// What a search answers.
#[derive(Drop)]
pub enum Answer<S> {
    /// Values of all variables that make each clause and each assumption true, and that the
    /// checker answered `Fits` for.
    Sat(Assignment),
    /// Assumptions, each once, that can't be true together with the clauses and what the checker
    /// stands for.
    Unsat(Lits),
    /// The learned clauses, one more than the limit allows.
    Unknown(Clauses),
    /// The checker stopped the search.
    Stopped(S),
    /// Memory was refused.
    NoMemory,
}
