//! The value of a constant where none is stated.
ghost use Rattle.std.specs.Prelude.{◌≡◌, IfOk};
ghost use Rattle.y_tree.specs.Values.{zero_of};
ghost use Rattle.y_tree.specs.Plain.{plain_sort, plain_value};

use crate::sorts::Sort;
use crate::values::{FunValue, Value};
use fraction128::Frac;
use std::alloc::{AllocError, Global};

/// The zero value of a type: `false`, 0, zero bits, element 0, or the function with no entries and the zero of its
/// result.
///
/// Errors: want of memory.
#[tactic(auto, unfolding(crate::specs::Plain::plain_sort, crate::specs::Plain::plain_value, crate::specs::Values::zero_of))]
pub fn zero_of(alloc: Global, of: &Sort) -> Result<Value, AllocError>
    ensures { IfOk result (λ v. plain_value v ≡ zero_of (plain_sort of.now)) }
{
    match of {
        Sort::Bool => Ok(Value::Bool(false)),
        Sort::Real => Ok(Value::Real(Frac::zero())),
        Sort::Bv(width) => Ok(Value::Bv {
            width: *width,
            bits: 0,
        }),
        Sort::Free(kind) => Ok(Value::Elem {
            kind: *kind,
            number: 0,
        }),
        Sort::Fun(_, result) => {
            let default_value = zero_of(alloc, result.get())?;
            Ok(Value::Fun(FunValue::new(alloc, default_value)?))
        }
    }
}
