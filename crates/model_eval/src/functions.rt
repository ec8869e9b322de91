//! Functions at arguments, and their updates.
ghost use Rattle.std.specs.Prelude.{◌≡◌, IfOk, IsTrue, map};
ghost use Rattle.y_tree.specs.Values.{values, call, are_flat};
ghost use Rattle.y_tree.specs.Order.{is_formed, put_in};
ghost use Rattle.y_tree.specs.Plain.{plain_value, plain_values, plain_function};
ghost use Rattle.model_eval.specs.Known.{found};

use crate::known::{Known, copy_at, value_at};
use std::alloc::{AllocError, Global};
use term_table::Term;
use y_tree::{FunValue, Value, Values, copy_function, copy_value};

/// The values of terms, as a key.
///
/// # Errors
///
/// Where memory is refused.
fn key_of(alloc: Global, known: &Known, terms: &[Term]) -> Result<Values, AllocError>
    ensures { IfOk result (λ vs. plain_values vs ≡ values (map (found known.now.entries) terms.now)) }
{
    let mut key = Values::new(alloc);
    for term in terms {
        key.push(copy_at(alloc, known, *term)?)?;
    }
    Ok(key)
}

/// The value of a function at a key; what is no function gives itself.
///
/// # Errors
///
/// Where memory is refused.
#[tactic(auto, unfolding(y_tree::specs::Plain::plain_value))]
fn called(alloc: Global, value: &Value, key: &[Value]) -> Result<Value, AllocError>
    requires formed { IsTrue (is_formed (plain_value value.now)) }
    requires flat { IsTrue (are_flat (plain_values key.now)) }
    ensures { IfOk result (λ v. plain_value v ≡ call (plain_value value.now) (plain_values key.now)) }
{
    match value {
        Value::Fun(f) => copy_value(alloc, f.value_at(key)),
        _ => copy_value(alloc, value),
    }
}

/// The value of a function at the values of terms.
///
/// # Errors
///
/// Where memory is refused. Cost: a copy of each of these values, and a binary search.
#[tactic(auto, unfolding(crate::specs::Known::found, y_tree::specs::Plain::plain_value))]
pub(crate) fn application(
    alloc: Global,
    known: &Known,
    function: Term,
    terms: &[Term],
) -> Result<Value, AllocError>
    requires formed { IsTrue (is_formed (found known.now.entries function)) }
    requires flat { IsTrue (are_flat (values (map (found known.now.entries) terms.now))) }
    ensures { IfOk result (λ v. plain_value v ≡ call (found known.now.entries function) (values (map (found known.now.entries) terms.now))) }
{
    let key = key_of(alloc, known, terms)?;
    match value_at(known, function) {
        Some(value) => called(alloc, value, key.as_slice()),
        None => Ok(Value::Bool(false)),
    }
}

/// A function with the value of a term at the values of others.
///
/// # Errors
///
/// Where memory is refused.
#[tactic(auto, unfolding(y_tree::specs::Plain::plain_value))]
fn with_entry(
    alloc: Global,
    known: &Known,
    f: &FunValue,
    terms: &[Term],
    value: Term,
) -> Result<Value, AllocError>
    requires { IsTrue (is_formed (plain_function f.now)) }
    ensures value { IfOk result (λ v. plain_value v ≡ put_in (values (map (found known.now.entries) terms.now)) (found known.now.entries value) (plain_function f.now)) }
    ensures formed { IfOk result (λ v. IsTrue (is_formed (plain_value v))) }
{
    let key = key_of(alloc, known, terms)?;
    let value = copy_at(alloc, known, value)?;
    let mut new = copy_function(alloc, f)?;
    new.set(key, value)?;
    Ok(Value::Fun(new))
}

/// A value with the value of a term at the values of others; what is no function stays.
///
/// # Errors
///
/// Where memory is refused.
#[tactic(auto, unfolding(y_tree::specs::Plain::plain_value))]
fn changed(
    alloc: Global,
    known: &Known,
    old: &Value,
    terms: &[Term],
    value: Term,
) -> Result<Value, AllocError>
    requires { IsTrue (is_formed (plain_value old.now)) }
    ensures value { IfOk result (λ v. plain_value v ≡ put_in (values (map (found known.now.entries) terms.now)) (found known.now.entries value) (plain_value old.now)) }
    ensures formed { IfOk result (λ v. IsTrue (is_formed (plain_value v))) }
{
    match old {
        Value::Fun(f) => with_entry(alloc, known, f, terms, value),
        _ => copy_value(alloc, old),
    }
}

/// The value of a function with that of a term at the values of others.
///
/// # Errors
///
/// Where memory is refused. Cost: a copy of the function and of the values.
#[tactic(auto, unfolding(crate::specs::Known::found, y_tree::specs::Plain::plain_value))]
pub(crate) fn update(
    alloc: Global,
    known: &Known,
    function: Term,
    terms: &[Term],
    value: Term,
) -> Result<Value, AllocError>
    requires { IsTrue (is_formed (found known.now.entries function)) }
    ensures value { IfOk result (λ v. plain_value v ≡ put_in (values (map (found known.now.entries) terms.now)) (found known.now.entries value) (found known.now.entries function)) }
    ensures formed { IfOk result (λ v. IsTrue (is_formed (plain_value v))) }
{
    match value_at(known, function) {
        Some(old) => changed(alloc, known, old, terms, value),
        None => Ok(Value::Bool(false)),
    }
}
