//! Values of terms, as they are looked up.
ghost use Rattle.std.specs.Prelude.{◌≡◌, IfOk, OnOk, OnErr};
ghost use Rattle.std.specs.Option.{option_copied};
ghost use Rattle.std.specs.Map.{lookup};
ghost use Rattle.y_tree.specs.Plain.{plain_value};
ghost use Rattle.y_tree.specs.Meaning.{truth_of, number_of};
ghost use Rattle.model_eval.specs.Known.{same_term, found, Enters};

use crate::errors::EvalError;
use fraction128::Frac;
use indexmap::IndexMap;
use std::alloc::{AllocError, Global};
use term_table::Term;
use y_tree::{Value, copy_value};

/// Terms with their values.
pub(crate) type Known = IndexMap<Term, Value>;

/// The value of a term, where it has one. Expected O(1).
pub(crate) fn value_at(known: &Known, t: Term) -> Option<&Value>
    ensures { option_copied result ≡ lookup (same_term t) known.now.entries }
{
    known.get(&t)
}

/// The truth value in a value; `false` where it is none.
#[tactic(auto, unfolding(y_tree::specs::Plain::plain_value))]
fn truth_in(value: &Value) -> bool
    ensures { result ≡ truth_of (plain_value value.now) }
{
    match value {
        Value::Bool(truth) => *truth,
        Value::Real(_) | Value::Bv { .. } | Value::Elem { .. } | Value::Fun(_) => false,
    }
}

/// The number in a value; 0 where it is none.
#[tactic(auto, unfolding(y_tree::specs::Plain::plain_value))]
fn number_in(value: &Value) -> Frac
    ensures { result ≡ number_of (plain_value value.now) }
{
    match value {
        Value::Real(number) => *number,
        Value::Bool(_) | Value::Bv { .. } | Value::Elem { .. } | Value::Fun(_) => Frac::zero(),
    }
}

/// The truth value of a term.
#[tactic(auto, unfolding(crate::specs::Known::found))]
pub(crate) fn truth_at(known: &Known, t: Term) -> bool
    ensures { result ≡ truth_of (found known.now.entries t) }
{
    match value_at(known, t) {
        Some(value) => truth_in(value),
        None => false,
    }
}

/// The number of a term.
#[tactic(auto, unfolding(crate::specs::Known::found))]
pub(crate) fn number_at(known: &Known, t: Term) -> Frac
    ensures { result ≡ number_of (found known.now.entries t) }
{
    match value_at(known, t) {
        Some(value) => number_in(value),
        None => Frac::zero(),
    }
}

/// A copy of the value of a term.
///
/// # Errors
///
/// Where memory is refused.
#[tactic(auto, unfolding(crate::specs::Known::found, y_tree::specs::Plain::plain_value))]
pub(crate) fn copy_at(alloc: Global, known: &Known, t: Term) -> Result<Value, AllocError>
    ensures { IfOk result (λ v. plain_value v ≡ found known.now.entries t) }
{
    match value_at(known, t) {
        Some(value) => copy_value(alloc, value),
        None => Ok(Value::Bool(false)),
    }
}

/// Gives a term a value.
///
/// # Errors
///
/// `NoMemory`.
pub(crate) fn enter(known: &mut Known, t: Term, value: Value) -> Result<(), EvalError>
    ensures ok { OnOk result (Enters known.old.entries t value known.new.entries) }
    ensures cause { OnErr result (result ≡ Err EvalError.NoMemory) }
{
    match known.insert(t, value) {
        Ok(_) => Ok(()),
        Err(_) => Err(EvalError::NoMemory),
    }
}
