//! Names that are kept with their meanings, one stack of meanings for each name.
//!
//! What contracts see is one list of pairs of a name and a handle, from the oldest to the newest. A new meaning of a name
//! hides its older ones, and they come back when it is removed. Each call says how that list changes, or what it answers
//! of it. Scopes of names are kept so in symbol tables of compilers.
//!
//! A hash map beside the list has the newest handle of each name, so that a look-up takes expected constant time. A new
//! pair is the newest of its name. Where the newest pair of a name goes, the list is gone through from its end, and the
//! pairs that are passed have another name. Where pairs that fail a test go, each name is first given the newest of its
//! handles that pass, and a name whose handle still fails has none.
#![tactic(auto)]

mod heads;
mod names;
#[cfg(test)]
mod tests;

pub use names::{Keeps, Names};
