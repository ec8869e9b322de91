//! The session of the language: what the commands declare and assert, and the answers to them.
//!
//! A [`Session`] runs through one environment. A name stands for a handle of its table, formulas are handles, and the
//! value of an expression is asked of the table's terms; no tree is kept. What is promised is over trees all the same: for
//! whatever trees the session stands for (`Stands`), [`Session::answer`] replies to a command by a step of the session
//! (`specs/Steps.antt`), or tells why it has no reply, and then whatever was declared and asserted stays. That is right since each term was
//! built for the tree of its name or formula by constructors that keep the meaning, and a collection keeps what was built
//! on the way to the terms of names, so that no tree gets two handles.
#![tactic(auto)]

mod built;
mod refusal;
mod session;

pub use expression_terms::{Refusal, Stop};
pub use refusal::Reply;
pub use session::Session;
pub use term_checks::Turns;
