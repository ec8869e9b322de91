//! The distinct subterms of a table's terms, arguments before the terms that hold them.
//!
//! `subterms` answers a list for which `IsOrder` holds: each root stands in it, each argument of a listed term stands
//! earlier, no term stands twice, and each is below a root. So whoever goes through the list in order meets a term only
//! after its arguments, and needs neither recursion nor a look back. Variables and constants are looked for along it.
//!
//! The method is depth-first search, which lists a term when it leaves it (Tarjan, Depth-first search and linear graph
//! algorithms, 1972), with a stack of frames in place of recursion. Each frame's arguments up to its next one are listed,
//! or have a frame further up; so a term that is left has all its arguments listed. The search ends since each live term
//! stands for a finite tree: what is left to look at, counted as if no subterm were shared, gets less in each step.
#![tactic(auto)]

mod choosing;
mod ending;
mod walk;

pub use choosing::{constants_of, every_subterm_stands, first_variable, subterms};

#[cfg(test)]
mod tests;
