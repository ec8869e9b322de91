//! The formulas of a context, level by level, and checks of them.
//!
//! What contracts see of a context is the list of its levels, from the bottom one to the newest, each a list of terms; the
//! status that the newest check left; and its core. `push` adds an empty level, `pop` takes the newest away, and `assert`
//! puts a formula at the end of the newest; after each of them nothing is known of the formulas. A formula is a live term
//! of the type of truth values with no variable below it; which refusal comes is said exactly. A check answers for the
//! formulas that are on the levels when it is called, and for its assumptions: it hands all of them to `term_checks`, so
//! nothing that was checked, popped or asserted before has a part in its verdict.
//!
//! The formulas stand in one list, with a mark for each level that was opened: how many there were at that moment. So
//! `pop` cuts the list at the last mark, and a level is what falls between two marks. This is the trail of an incremental
//! solver (Een and Sorensson, Temporal induction by incremental SAT solving, 2003, has it for clauses, and checks under
//! assumptions with a core).
#![tactic(auto)]

mod checks;
mod context;
mod errors;
mod judging;
mod stack;

pub use checks::Checked;
pub use context::Context;
pub use errors::{ContextError, Status};
pub use term_checks::{Learned, TermValues, Turns};

#[cfg(test)]
mod tests;
