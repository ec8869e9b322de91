//! Types and terms as shapes: an operator over handles, as the table of terms keeps them.
//!
//! A shape has a handle in place of each argument, and `specs/Shapes.antt` says which operator of `y_tree` it has, over
//! which arguments, and which type a constant or a variable names. `argument` and `part` go through these one by one, so
//! that a walk over terms needs no list. Shapes are compared and hashed by what they hold: two are equal exactly where
//! they are one, which is what hash-consing needs (Filliatre and Conchon, Type-safe modular hash-consing, 2006). A node is
//! a shape with its type, and is compared by the shape alone, since the shape determines the type.
#![tactic(auto)]

mod handles;
mod lists;
mod shapes;

pub use handles::{Term, TypeId};
pub use lists::{Args, Monomial, Monomials, Terms, TypeIds};
pub use shapes::{Node, Shape, TypeShape, node_equality, type_equality};
