//! What one shape says by itself, without the table that keeps it: whether it is an atom, whether its arguments are to
//! have one width, which numbers it may have, and what a type of a given shape is, takes and gives.
//!
//! A check of a shape in a table reads the types of arguments off the table and asks here what each of them means, so
//! each answer is a small function on one shape that reads nothing else, in constant time but for `part` and copies. Each
//! is the definition of the same name in `specs/Rules.antt`, or the misfit that the operators' typing rules name: that of
//! widths and numbers (the theory of fixed-width bit-vectors of SMT-LIB), that of the number of arguments of a function.
//! The refusals of the table stand here too.
#![tactic(auto)]

mod errors;
mod forms;
mod functions;
mod operators;
mod types;

pub use errors::{ShapeError, TableError, Wanted};
pub use forms::{Form, bits_refusal, form_of, joined_refusal, numbers_refusal};
pub use functions::{function_shape, is_arity, part};
pub use operators::{is_atom, is_even};
pub use types::{
    is_function, is_kind, shape_result, shape_takes, shape_width, simple_sort, wanted_by,
};
