//! The slots that hold the shapes of types and terms: the permanent ones of a new table, new ones, and those that names
//! mean.
//!
//! Types and terms lie in slots under stamps (`stamped_slots`), and a table is two lists of slots with names. What stands
//! here speaks of one list alone: it starts with the permanent types or terms, in a fixed order, so that their handles
//! are constants; a new key goes into a free slot, or there is none; and each meaning of each name is marked, slot by
//! slot, before a mark-and-sweep collection.
#![tactic(auto)]

mod meanings;
mod permanents;
mod putting;

pub use meanings::{LiveTerms, LiveTypes, mark_terms, mark_types};
pub use permanents::{permanent_terms, permanent_types};
pub use putting::{put_term, put_type};
