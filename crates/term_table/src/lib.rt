//! The table of types and terms: one handle for each type and each term, counts, and marks for collection.
//!
//! What contracts see of a table is the slots of its terms and of its types, and how many constants, variables and
//! uninterpreted types were made. From these follows what a handle stands for: a term's handle for the tree that its shape
//! makes of its arguments' trees, a type's for a sort. `IsTable` always holds: each live handle stands for a well-typed tree
//! or a sort within the limits, and no two live handles of one kind for one. A shape is looked for before it gets a slot
//! (hash-consing), and a tree's arguments are older than itself, so adding changes no tree. A handle's slot is used again
//! only under a higher stamp; so a freed handle is dead for good.
//!
//! A collection marks what is to stay, and `free_unmarked` frees the rest. Where the marked handles are closed under
//! arguments, types and the parts of types, all that stays stands for what it stood for. No call of a collection takes
//! memory.
#![tactic(auto)]

mod checking;
mod function_types;
mod given;
mod laws;
mod sorts_of;
mod table;
#[cfg(test)]
mod tests;
mod wanted;

pub use laws::{added_stands, after_adding, after_sweeping, checked_is_typed, freed_is_dead};
pub use shape_rules::{ShapeError, TableError, Wanted};
pub use table::{Marked, Table};
pub use term_shapes::{
    Args, Monomial, Monomials, Node, Shape, Term, Terms, TypeId, TypeIds, TypeShape,
};
