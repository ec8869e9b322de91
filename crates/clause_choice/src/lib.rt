//! What a search over clauses chooses: which variable is decided, with which value, when the search
//! begins anew, and which learned clauses are thrown away.
//!
//! No contract of the search names these choices, so a better one can take a choice's place.
#![tactic(auto)]

pub mod choice;
pub mod relevance;
