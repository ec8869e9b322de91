//! Slots that hold different keys, each under a stamp: an arena in which no handle is given twice.
//!
//! A handle is a slot and the stamp that it had when its key was put in. A stamp counts how many handles of its slot were
//! freed, so a freed handle never names a later key; a slot whose stamp would pass 32 bits is retired. What contracts see
//! is the list of slots, each with its stamp, its key, a count, and whether it is marked and waits on the worklist. Each
//! call says how that list changes.
//!
//! Keys stand in a hash table alone, where equal keys are found (hash-consing), and a slot has its key's place there. Free
//! slots and the worklist are lists whose links lie in the slots, so that marking and sweeping take no memory. That both
//! lists are whole rests on counting: the links lead through as many slots as are free, or wait.
#![tactic(auto)]

mod cells;
mod slots;

pub use slots::{Full, Slots};
