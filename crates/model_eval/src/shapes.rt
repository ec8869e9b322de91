//! What the operator of a shape makes of the values of its arguments.
ghost use Rattle.std.specs.Prelude.{◌≡◌, IfOk, IfErr, OnErr, IsSome};
ghost use Rattle.std.specs.Map.{lookup};
ghost use Rattle.y_tree.specs.Sorts.{Sort as Plain};
ghost use Rattle.y_tree.specs.Values.{zero_of};
ghost use Rattle.y_tree.specs.Plain.{plain_value};
ghost use Rattle.term_shapes.specs.declared.handles.Term.{Term};
ghost use Rattle.term_table.specs.World.{HasShape, KeepsType, node_at};
ghost use Rattle.term_orders.specs.Orders.{IsArgument};
ghost use Rattle.model_eval.specs.Known.{same_term};
ghost use Rattle.model_eval.specs.Models.{assignment_of, IsModel};
ghost use Rattle.model_eval.specs.Evaluating.{IsReady, IsApplied, IsEvaluated, IsNoSum, IsValueOf, or_zero, RefusesShape, RefusesHere};

use crate::errors::EvalError;
use crate::functions::{application, update};
use crate::known::{Known, truth_at};
use crate::model::Model;
use crate::numbers::{is_negative, sum_value};
use crate::truths::{all_true, chosen, distinctness, equality, odd_true, some_true};
use crate::vectors::{operation, operation_at};
use std::alloc::{AllocError, Global};
use term_table::{Shape, Table, Term, TypeId};
use y_tree::{Value, copy_value, zero_of};

/// The zero value of a type.
///
/// # Errors
///
/// Where memory is refused.
fn zero_at(alloc: Global, table: &Table, of: TypeId) -> Result<Value, AllocError>
    ensures { IfOk result (λ v. (k : Plain) → KeepsType table.now of k → plain_value v ≡ zero_of k) }
{
    match table.sort_of(alloc, of)? {
        Some(sort) => zero_of(alloc, &sort),
        None => Ok(Value::Bool(false)),
    }
}

/// The value of a constant: its own, or the zero of its type.
///
/// # Errors
///
/// Where memory is refused.
fn constant(
    alloc: Global,
    table: &Table,
    model: &Model,
    t: Term,
    of: TypeId,
) -> Result<Value, AllocError>
    ensures { IfOk result (λ v. (k : Plain) → KeepsType table.now of k → plain_value v ≡ or_zero k (lookup (same_term t) model.now)) }
{
    match model.own_value(t) {
        Some(value) => copy_value(alloc, value),
        None => zero_at(alloc, table, of),
    }
}

/// The value of a shape that is none of sums.
///
/// # Errors
///
/// Where memory is refused.
fn value_of_other(
    alloc: Global,
    table: &Table,
    model: &Model,
    known: &Known,
    t: Term,
    shape: &Shape,
) -> Result<Value, AllocError>
    requires model { IsModel table.now model.now }
    requires shape { HasShape table.now t shape.now }
    requires ready { IsReady table.now known.now.entries shape.now }
    requires other { IsNoSum shape.now }
    ensures { IfOk result (λ v. IsApplied table.now (assignment_of table.now model.now) known.now.entries shape.now (plain_value v)) }
{
    table.is_table();
    model.is_formed();
    match shape {
        Shape::True => Ok(Value::Bool(true)),
        Shape::False => Ok(Value::Bool(false)),
        Shape::Const { of, .. } => constant(alloc, table, model, t, *of),
        Shape::Var { of, .. } => zero_at(alloc, table, *of),
        Shape::Number(number) => Ok(Value::Real(*number)),
        Shape::Bits { width, bits } => Ok(Value::Bv {
            width: *width,
            bits: *bits,
        }),
        Shape::Not(only) => Ok(Value::Bool(!truth_at(known, *only))),
        Shape::And(all) => Ok(Value::Bool(all_true(known, all.as_slice()))),
        Shape::Or(all) => Ok(Value::Bool(some_true(known, all.as_slice()))),
        Shape::Xor(all) => Ok(Value::Bool(odd_true(known, all.as_slice()))),
        Shape::Ite(test, yes, no) => chosen(alloc, known, *test, *yes, *no),
        Shape::Eq(left, right) => {
            let same = equality(alloc, table, known, *left, *right)?;
            Ok(Value::Bool(same))
        }
        Shape::Distinct(all) => {
            let differ = distinctness(alloc, table, known, all.as_slice())?;
            Ok(Value::Bool(differ))
        }
        Shape::App(function, all) => application(alloc, known, *function, all.as_slice()),
        Shape::Update(function, all, value) => {
            update(alloc, known, *function, all.as_slice(), *value)
        }
        Shape::NonNeg(only) => Ok(Value::Bool(!is_negative(known, *only))),
        Shape::Bv(op, all) => operation(alloc, known, *op, all.as_slice()),
        Shape::BvAt(op, i, j, only) => Ok(operation_at(known, *op, *i, *j, *only)),
        Shape::Sum(_, _) => unreachable!(),
    }
}

/// The value of a shape that is none of sums.
///
/// # Errors
///
/// `NoMemory`.
fn other_value(
    alloc: Global,
    table: &Table,
    model: &Model,
    known: &Known,
    t: Term,
    shape: &Shape,
) -> Result<Value, EvalError>
    requires model { IsModel table.now model.now }
    requires shape { HasShape table.now t shape.now }
    requires ready { IsReady table.now known.now.entries shape.now }
    requires other { IsNoSum shape.now }
    ensures value { IfOk result (λ v. IsApplied table.now (assignment_of table.now model.now) known.now.entries shape.now (plain_value v)) }
    ensures cause { OnErr result (result ≡ Err EvalError.NoMemory) }
{
    match value_of_other(alloc, table, model, known, t, shape) {
        Ok(value) => Ok(value),
        Err(_) => Err(EvalError::NoMemory),
    }
}

/// The value of a shape.
///
/// # Errors
///
/// `Wide` where an operation of a sum is too wide; `NoMemory`.
fn value_of_shape(
    alloc: Global,
    table: &Table,
    model: &Model,
    known: &Known,
    t: Term,
    shape: &Shape,
) -> Result<Value, EvalError>
    requires model { IsModel table.now model.now }
    requires shape { HasShape table.now t shape.now }
    requires ready { IsReady table.now known.now.entries shape.now }
    ensures value { IfOk result (λ v. IsApplied table.now (assignment_of table.now model.now) known.now.entries shape.now (plain_value v)) }
    ensures refused { IfErr result (RefusesShape known.now.entries shape.now) }
{
    match shape {
        Shape::Sum(monomials, number) => sum_value(known, monomials.as_slice(), *number),
        _ => other_value(alloc, table, model, known, t, shape),
    }
}

/// The value of a live term, whose arguments have values.
///
/// # Errors
///
/// `Wide` where the term is a sum and an operation of it is too wide; `NoMemory`.
pub(crate) fn value_of_term(
    alloc: Global,
    table: &Table,
    model: &Model,
    known: &Known,
    t: Term,
) -> Result<Value, EvalError>
    requires model { IsModel table.now model.now }
    requires live { IsSome (node_at table.now t) }
    requires arguments { (u : Term) → IsArgument table.now u t → IsEvaluated table.now (assignment_of table.now model.now) known.now.entries u }
    ensures value { IfOk result (λ v. IsValueOf table.now (assignment_of table.now model.now) t (plain_value v)) }
    ensures refused { IfErr result (RefusesHere table.now (assignment_of table.now model.now) t) }
{
    table.is_table();
    match table.shape(t) {
        Some(shape) => value_of_shape(alloc, table, model, known, t, shape),
        None => unreachable!(),
    }
}
