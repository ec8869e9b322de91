//! Why there is no model, or no value.

use fraction128::Wide;
use term_table::Term;

/// Why values make no model. Places count from 1.
#[derive(Clone, Copy, Debug, PartialEq, Eq)]
pub enum ModelError {
    /// The term at that place is dead.
    DeadTerm(usize),
    /// The term at that place is no constant.
    NotConstant(usize),
    /// The value at that place is none of its term's type.
    WrongType(usize),
    /// The term at that place stands at an earlier one too.
    Twice(usize),
    /// Memory was refused.
    NoMemory,
}

/// Why a term has no value.
#[derive(Clone, Copy, Debug)]
pub enum EvalError {
    /// The term is dead.
    DeadTerm,
    /// The variable is below the term.
    HasVariable(Term),
    /// An operation of a sum below the term doesn't fit: the product of a factor and its term's value, or the sum of the
    /// first parts and the next one.
    Wide(Wide),
    /// Memory was refused.
    NoMemory,
}
