//! Values of terms in a model.
ghost use Rattle.std.specs.Prelude.{◌≡◌, List, IfOk, IfErr, OnOk, OnErr, IsSome};
ghost use Rattle.y_tree.specs.Plain.{plain_value};
ghost use Rattle.term_shapes.specs.declared.handles.Term.{Term};
ghost use Rattle.term_table.specs.World.{node_at};
ghost use Rattle.term_orders.specs.Orders.{IsArgument, IsIn, IsOrder};
ghost use Rattle.model_eval.specs.Known.{found};
ghost use Rattle.model_eval.specs.Models.{assignment_of, IsModel};
ghost use Rattle.model_eval.specs.Evaluating.{EntersValue, IsEvaluated, IsValueOf, RefusesAmong, RefusesHere, RefusesUnder};
ghost use Rattle.model_eval.specs.Refusing.{IsValueIn, RefusesValue};

use crate::errors::EvalError;
use crate::known::{Known, copy_at, enter};
use crate::model::Model;
use crate::shapes::value_of_term;
use indexmap::IndexMap;
use std::alloc::Global;
use term_orders::{first_variable, subterms};
use term_table::{Table, Term};
use y_tree::Value;

impl Model {
    /// The value that a term means where the constants have the model's values. Each distinct subterm is evaluated once,
    /// its arguments before it.
    ///
    /// # Errors
    ///
    /// `DeadTerm` exactly where the term is dead, `HasVariable` with a variable exactly where one is below the term,
    /// `Wide` only where an operation of a sum below the term is too wide, with its operands; `NoMemory`.
    pub fn value(&self, alloc: Global, table: &Table, t: Term) -> Result<Value, EvalError>
        requires { IsModel table.now self.now }
        ensures value { IfOk result (λ v. IsValueIn table.now self.now t (plain_value v)) }
        ensures refused { IfErr result (RefusesValue table.now self.now t) }
    {
        if !table.is_live(t) {
            return Err(EvalError::DeadTerm);
        }
        match first_variable(alloc, table, t) {
            Ok(None) => evaluated(alloc, table, self, t),
            Ok(Some(variable)) => Err(EvalError::HasVariable(variable)),
            Err(_) => Err(EvalError::NoMemory),
        }
    }
}

/// The value of a live term.
fn evaluated(alloc: Global, table: &Table, model: &Model, t: Term) -> Result<Value, EvalError>
    requires model { IsModel table.now model.now }
    requires live { IsSome (node_at table.now t) }
    ensures value { IfOk result (λ v. IsValueOf table.now (assignment_of table.now model.now) t (plain_value v)) }
    ensures refused { IfErr result (RefusesUnder table.now (assignment_of table.now model.now) t) }
{
    let Ok(order) = subterms(alloc, table, &[t]) else {
        return Err(EvalError::NoMemory);
    };
    match values_along(alloc, table, model, order.as_slice()) {
        Ok(known) => copied(alloc, &known, t),
        Err(error) => Err(error),
    }
}

/// A copy of the value of a term.
fn copied(alloc: Global, known: &Known, t: Term) -> Result<Value, EvalError>
    ensures value { IfOk result (λ v. plain_value v ≡ found known.now.entries t) }
    ensures cause { OnErr result (result ≡ Err EvalError.NoMemory) }
{
    match copy_at(alloc, known, t) {
        Ok(value) => Ok(value),
        Err(_) => Err(EvalError::NoMemory),
    }
}

/// Evaluates a live term, whose arguments have values.
fn step(
    alloc: Global,
    table: &Table,
    model: &Model,
    known: &mut Known,
    t: Term,
) -> Result<(), EvalError>
    requires model { IsModel table.now model.now }
    requires live { IsSome (node_at table.now t) }
    requires arguments { (u : Term) → IsArgument table.now u t → IsEvaluated table.now (assignment_of table.now model.now) known.old.entries u }
    ensures entered { OnOk result (EntersValue table.now (assignment_of table.now model.now) known.old.entries t known.new.entries) }
    ensures refused { IfErr result (RefusesHere table.now (assignment_of table.now model.now) t) }
{
    match value_of_term(alloc, table, model, known, t) {
        Ok(value) => enter(known, t, value),
        Err(error) => Err(error),
    }
}

/// The values of terms, whose arguments stand before them.
fn values_along(
    alloc: Global,
    table: &Table,
    model: &Model,
    order: &[Term],
) -> Result<Known, EvalError>
    requires model { IsModel table.now model.now }
    requires order { (roots : List Term) × IsOrder table.now roots order.now }
    ensures values { IfOk result (λ known. (t : Term) → IsIn order.now t → IsEvaluated table.now (assignment_of table.now model.now) known.entries t) }
    ensures refused { IfErr result (RefusesAmong table.now (assignment_of table.now model.now) order.now) }
{
    let mut known: Known = IndexMap::new(alloc);
    for term in order {
        match step(alloc, table, model, &mut known, *term) {
            Ok(()) => {}
            Err(error) => return Err(error),
        }
    }
    Ok(known)
}
