//! Handles of terms and of types.

/// A handle of a term: a slot of the table and the slot's stamp.
#[derive(Clone, Copy, Debug, Default, PartialEq, Eq, Hash)]
pub struct Term {
    /// The number of the slot, from 0 on.
    pub slot: u32,
    /// How many handles of the slot were freed before.
    pub stamp: u32,
}

/// A handle of a type: a slot of the table and the slot's stamp.
#[derive(Clone, Copy, Debug, Default, PartialEq, Eq, Hash)]
pub struct TypeId {
    /// The number of the slot, from 0 on.
    pub slot: u32,
    /// How many handles of the slot were freed before.
    pub stamp: u32,
}
