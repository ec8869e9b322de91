//! Collection: types and terms that nothing reaches are freed, and all else stays as it was.
//!
//! A collection starts from the permanent types and terms, from whatever is referred to, from the handles that its
//! caller lists, and, where that is asked, from what names mean. What these reach by arguments, by types and by the parts
//! of function types stays, with its handle, its tree, its count and its names; everything else is freed, and its handles
//! are dead for good. `Leaves` over `IsReached` is that contract.
//!
//! The method is mark and sweep (McCarthy, Recursive functions of symbolic expressions and their computation by machine,
//! 1960). The roots are marked, and a worklist of marked handles is worked off: each turn marks what one handle needs.
//! Each mark is then one that a root reaches, and where the worklist is empty, the marks are closed under what handles
//! need; so they are exactly the reach. A slot comes to its turn at most once, which bounds the turns. Marks and the
//! links of the worklist lie in the slots of the table, so a collection takes no memory and its depth doesn't grow with
//! the depth of a term.
#![tactic(auto)]

mod collecting;
mod roots;
mod spreading;
mod walking;

pub use collecting::{Collected, Collection, collect, kept_stay_live};
pub use roots::DeadRoot;

#[cfg(test)]
mod tests;
