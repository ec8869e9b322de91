//! A script of calls over one environment.
//!
//! A `ScriptSession` owns the environment and keeps what each line gave. `answer` takes a line and answers the line of
//! its reply. Its contract is the relation `Answers`: the line's bytes say a call, each of its references stands for
//! the handle that an earlier line gave, or for an entry of its list, the environment takes the step of that call, and
//! what is said is the reply's text behind the line's number. A call whose references have no result, or one of another
//! kind, is refused at the least such place before the environment sees it. A line that can't be read, or whose reply
//! is past the limit, stops the script (`Stops`), each with its place.
//!
//! A run of lines is a list of these steps. Its law says that the calls that were done, in order, are a run of the
//! environment's step relation that ends in the script's environment; so a handle means what it meant until it is freed,
//! and is refused from then on. Each line is read, looked up, done and printed once, so the work is that of its call and of
//! its text.
#![tactic(auto)]

mod asking;
mod calls;
mod laws;
mod meant;
mod replies;
mod session;
mod stop;
#[cfg(test)]
mod tests;

pub use laws::{
    faults_are_exact, one_is_asked, one_more_line, one_text_of_a_reply, open_lines, script_runs,
};
pub use meant::{Gave, Handle, Meant};
pub use session::ScriptSession;
pub use stop::{ScriptStop, SyntaxFault};
