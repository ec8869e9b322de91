//! Terms as plain mathematics: types, values, and in `specs/` the trees, their typing and their meaning, with every
//! operator of the language; in code the types and values as data, with their order, sameness and zero.
//!
//! Its contract: each call answers what one of the definitions says of its arguments. A value of the code is right
//! because a fold makes of it the value of the definitions, and each clause speaks of that alone. The definitions are
//! kept honest by laws (`laws`): a well-typed tree means a value of its type under every assignment, sameness is an
//! equivalence that every operator keeps, two functions are one exactly where they agree at each tuple of their domain,
//! and what is told of ill-typed arguments is the first that misfits.
//!
//! The operators on bit-vectors are those of SMT-LIB 2's theory FixedSizeBitVectors, division by zero included, those on
//! numbers those of its theories Ints and Reals, under the names of Yices 2's language.
#![tactic(auto)]

mod copies;
mod counting;
mod functions;
pub mod laws;
mod order;
mod sameness;
mod sorts;
#[cfg(test)]
mod tests;
mod values;
mod zero;

pub use copies::{copy_function, copy_sort, copy_value, copy_values};
pub use order::{cmp_keys, value_cmp};
pub use sameness::{same_function, same_value};
pub use sorts::{Sort, Sorts, same_sort};
pub use values::{Entry, FunValue, Value, Values};
pub use zero::zero_of;

/// An operator on bit-vectors.
#[derive(Clone, Copy, Debug, PartialEq, Eq, Hash)]
pub enum BvOp {
    /// The sum.
    Add,
    /// The difference.
    Sub,
    /// The product.
    Mul,
    /// The negation.
    Neg,
    /// The unsigned quotient, rounded down.
    Div,
    /// The unsigned remainder.
    Rem,
    /// The signed quotient, rounded towards 0.
    Sdiv,
    /// The signed remainder, with the sign of the dividend.
    Srem,
    /// The signed remainder, with the sign of the divisor.
    Smod,
    /// Each bit inverted.
    Not,
    /// The conjunction bit by bit.
    And,
    /// The disjunction bit by bit.
    Or,
    /// The exclusive disjunction bit by bit.
    Xor,
    /// The shift to the left by an unsigned number.
    Shl,
    /// The shift to the right by an unsigned number, with zeros.
    Lshr,
    /// The shift to the right by an unsigned number, with copies of the sign bit.
    Ashr,
    /// The first operand's bits before the second's.
    Concat,
    /// At least, unsigned.
    Ge,
    /// Greater, unsigned.
    Gt,
    /// At most, unsigned.
    Le,
    /// Less, unsigned.
    Lt,
    /// At least, in two's complement.
    Sge,
    /// Greater, in two's complement.
    Sgt,
    /// At most, in two's complement.
    Sle,
    /// Less, in two's complement.
    Slt,
}

/// An operator on one bit-vector with one or two numbers.
#[derive(Clone, Copy, Debug, PartialEq, Eq, Hash)]
pub enum BvAtOp {
    /// The shift to the left by that number, with zeros.
    ShiftLeft0,
    /// The shift to the right by that number, with zeros.
    ShiftRight0,
    /// The bits from the first number down to the second.
    Extract,
    /// That many copies of the sign bit before the bits.
    SignExtend,
    /// That many zeros before the bits.
    ZeroExtend,
}
