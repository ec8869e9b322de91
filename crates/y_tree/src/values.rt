//! Values of terms.
use fraction128::Frac;
use sqlite_items::{Boxed, Items};

/// Values, in order.
pub type Values = Items<Value>;

/// A value of a term. Contracts speak of the plain value that it is, by `plain_value`.
#[derive(Drop)]
#[cycle(value)]
pub enum Value {
    /// A truth value.
    Bool(bool),
    /// A real number that is a fraction.
    Real(Frac),
    /// A bit-vector of a width, as an unsigned number.
    Bv { width: u32, bits: u128 },
    /// An element of the uninterpreted type of that number.
    Elem { kind: u64, number: u64 },
    /// A function.
    Fun(FunValue),
}

/// A function by finitely many entries and its value elsewhere. The keys of its entries are in rising order of
/// `cmp_keys`, so no two are one.
#[derive(Drop)]
#[cycle(value)]
pub struct FunValue {
    pub(crate) entries: Vec<Entry>,
    pub(crate) default_value: Boxed<Value>,
}

/// A key of a function, and the function's value there.
#[derive(Drop)]
#[cycle(value)]
pub struct Entry {
    /// The arguments.
    pub key: Values,
    /// The value at them.
    pub value: Value,
}
