//! What the constructors of truth values make of their arguments, before any term is made.
//!
//! A call is an operator over literals: terms and negations of terms. Its sketch says what is made of them: a literal, a
//! conjunction or disjunction of ascending literals, a parity of ascending terms, a choice, an equality, or terms that are
//! pairwise different. `make_sketch` answers the sketch that `specs/Sketches.antt` defines, a function of the operator and
//! the literals alone; so the same live arguments give the same term. `sketches_mean`: under all values of the terms a
//! sketch means what the operator makes of the literals' values.
//!
//! Literals go into an ordered set one by one, from the last to the first, so each is kept once and in its place, in time
//! n log n. A literal with its opposite decides a conjunction or a disjunction; in a parity a term goes out where it comes
//! in for the second time, and negations are counted. These are the rules that solvers apply where terms are shared
//! (Brummayer and Biere, Local two-level and-inverter graph minimization without blowup, 2006, has them for conjunctions).
#![tactic(auto)]

mod choosing;
mod items;
mod joining;
mod laws;
mod making;
mod ordered;
mod parity;
#[cfg(test)]
mod tests;

pub use items::{Atoms, Literal, Literals, Operator, Sketch, THE_TRUTH};
pub use laws::{sketches_are_small, sketches_have_types, sketches_mean};
pub use making::make_sketch;
