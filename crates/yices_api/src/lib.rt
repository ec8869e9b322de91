//! The environment of the library: it owns the table of types and terms and the contexts, and each call of the interface
//! is one step of it.
//!
//! What contracts see of an environment is its table, what each key of a context holds, and how many contexts were made.
//! `step` has one contract for all calls, the relation `Api`: a call with a dead handle is refused by the first one,
//! whatever its kind, and changes nothing; else it does what the line of its call says, and all other contexts, handles,
//! counts and names stay. `IsEnvironment` always holds: each formula of a live context, and each term of its core, is a
//! formula of the table. A collection keeps it, since each of them is a root; every other call only adds terms, or changes
//! counts and names. So a check can ask for the formulas now on the levels, whatever was checked, popped or collected.
//!
//! A context's handle has the number of contexts made before as its stamp, so no handle comes twice, though the keys of
//! the slab that holds the contexts are used again. A call is one arm of `step`; the laws say what follows for lists of
//! calls: what a handle stood for it stands for until it is freed, and from then on it is refused.
#![tactic(auto)]

mod calls;
mod checks;
mod collection;
mod constructors;
mod contexts;
mod counts;
mod env;
mod handles;
mod held;
mod laws;
mod names;
mod queries;
mod replies;
mod stepping;
#[cfg(test)]
mod tests;

pub use calls::{Call, MarkedList};
pub use context_stack::{Context, Status};
pub use env::Env;
pub use handles::ContextId;
pub use laws::{one_more_step, runs_last, same_again, steps_last};
pub use replies::{CallError, Reply};
pub use stepping::step;
pub use term_build::BuildError;
pub use term_checks::Turns;
pub use term_sketches::Operator;
pub use term_table::{Marked, Table, Term, Terms, TypeId, Wanted};
pub use y_io::Text;
