//! Copies of types and values.
ghost use Rattle.std.specs.Prelude.{◌≡◌, IfOk};
ghost use Rattle.y_tree.specs.Plain.{plain_sort, plain_sorts, plain_value, plain_values, plain_entries, plain_function};

use crate::sorts::{Sort, Sorts};
use crate::values::{Entry, FunValue, Value, Values};
use sqlite_items::Boxed;
use std::alloc::{AllocError, Global};

/// A copy of a type.
///
/// Errors: want of memory.
#[cycle(copy_sort)]
#[tactic(auto, unfolding(crate::specs::Plain::plain_sort))]
pub fn copy_sort(alloc: Global, of: &Sort) -> Result<Sort, AllocError>
    ensures { IfOk result (λ s. plain_sort s ≡ plain_sort of.now) }
{
    match of {
        Sort::Bool => Ok(Sort::Bool),
        Sort::Real => Ok(Sort::Real),
        Sort::Bv(width) => Ok(Sort::Bv(*width)),
        Sort::Free(kind) => Ok(Sort::Free(*kind)),
        Sort::Fun(domain, result) => {
            let domain = copy_sorts(alloc, domain.as_slice())?;
            let result = copy_sort(alloc, result.get())?;
            Ok(Sort::Fun(domain, Boxed::new(alloc, result)?))
        }
    }
}

#[cycle(copy_sort)]
#[tactic(auto, using(crate::proofs::Copying::sorts_more, crate::proofs::Copying::sorts_done))]
fn copy_sorts(alloc: Global, of: &[Sort]) -> Result<Sorts, AllocError>
    ensures { IfOk result (λ ss. plain_sorts ss ≡ plain_sorts of.now) }
{
    let mut copies = Sorts::new(alloc);
    for i in 0..of.len() {
        copies.push(copy_sort(alloc, &of[i])?)?;
    }
    Ok(copies)
}

/// A copy of a value.
///
/// Errors: want of memory.
#[cycle(copy)]
#[tactic(auto, unfolding(crate::specs::Plain::plain_value))]
pub fn copy_value(alloc: Global, of: &Value) -> Result<Value, AllocError>
    ensures { IfOk result (λ v. plain_value v ≡ plain_value of.now) }
{
    match of {
        Value::Bool(truth) => Ok(Value::Bool(*truth)),
        Value::Real(number) => Ok(Value::Real(*number)),
        Value::Bv { width, bits } => Ok(Value::Bv {
            width: *width,
            bits: *bits,
        }),
        Value::Elem { kind, number } => Ok(Value::Elem {
            kind: *kind,
            number: *number,
        }),
        Value::Fun(f) => Ok(Value::Fun(copy_function(alloc, f)?)),
    }
}

/// A copy of a function.
///
/// Errors: want of memory.
#[cycle(copy)]
pub fn copy_function(alloc: Global, of: &FunValue) -> Result<FunValue, AllocError>
    ensures { IfOk result (λ f. plain_function f ≡ plain_function of.now) }
{
    let entries = copy_entries(alloc, of.entries())?;
    let default_value = copy_value(alloc, of.default_value())?;
    Ok(FunValue {
        entries,
        default_value: Boxed::new(alloc, default_value)?,
    })
}

#[cycle(copy)]
#[tactic(auto, using(crate::proofs::Copying::entries_more, crate::proofs::Copying::entries_done))]
fn copy_entries(alloc: Global, of: &[Entry]) -> Result<Vec<Entry>, AllocError>
    ensures { IfOk result (λ es. plain_entries es.items ≡ plain_entries of.now) }
{
    let mut copies = Vec::new(alloc);
    for i in 0..of.len() {
        let entry = &of[i];
        let key = copy_values(alloc, entry.key.as_slice())?;
        let value = copy_value(alloc, &entry.value)?;
        copies.push(Entry { key, value })?;
    }
    Ok(copies)
}

/// Copies of values, in order.
///
/// Errors: want of memory.
#[cycle(copy)]
#[tactic(auto, using(crate::proofs::Copying::values_more, crate::proofs::Copying::values_done))]
pub fn copy_values(alloc: Global, of: &[Value]) -> Result<Values, AllocError>
    ensures { IfOk result (λ vs. plain_values vs ≡ plain_values of.now) }
{
    let mut copies = Values::new(alloc);
    for i in 0..of.len() {
        copies.push(copy_value(alloc, &of[i])?)?;
    }
    Ok(copies)
}
