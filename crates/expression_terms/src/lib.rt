//! Terms of the expressions of the language.
//!
//! `build` makes the term of an expression over the names of the table. Its contract is over trees: an expression
//! whose names stand for trees stands for one tree, or something is wrong with it first, and that is told. For whatever
//! trees the names' terms were built, the answer was built for the expression's tree from its constants up, by the
//! constructors; so it has the meaning of the tree as it was written. `let` binds its names side by side, over those
//! that stand outside. `build_literal` does so for a name or its negation.
//!
//! The table keeps one handle for each shape, so what the constructors make of a tree is one handle while it is live. A
//! tree that was built adds nothing when it is met again, and all that is added is for the distinct subtrees of what is
//! written: at most 16 times four more than it has arguments for each. For that to hold after a collection too, the terms
//! that were built on the way to a name's term have to be kept with it: `build` tells them.
#![tactic(auto)]

mod building;
mod calls;
mod literals;
mod names;
mod refusal;
#[cfg(test)]
mod tests;

pub use building::build;
pub use literals::build_literal;
pub use refusal::{Refusal, Stop};
