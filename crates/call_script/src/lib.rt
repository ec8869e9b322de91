//! One line of a script of calls.
//!
//! A script is lines of one call each: the call's word and its arguments. The one contract is that of
//! [`read_line`]: what it answers is what the line says by the definition, which cuts a line into words and
//! names and fits them to the call's form, and the first fault is told at its column. It is right since the
//! next token decides: a token either goes on the call or is the fault. The method is that of a scanner
//! and a table of forms; a line knows no environment.
#![tactic(auto)]

mod arguments;
mod laws;
mod lines;
mod reading;
mod scanning;
mod words;

pub use laws::a_line_says_one_thing;
pub use lines::{Argument, Call, Line, LineEnd, LineError};
pub use reading::read_line;
pub use words::{ArgumentKind, CallWord, kind_at};

#[cfg(test)]
mod tests;
