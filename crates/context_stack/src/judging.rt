//! Which terms are formulas.
ghost use Rattle.std.specs.Prelude.{◌≡◌, ℕ, IsSome, IfErr, IfNone, IfOk, IfSome, OnOk};
ghost use Rattle.term_table.specs.World.{node_at};
ghost use Rattle.term_table.specs.Checking.{AreLive, IsFirstDead};
ghost use Rattle.term_orders.specs.Orders.{IsBelow, IsIn, IsVariable};
ghost use Rattle.term_shapes.specs.declared.handles.Term.{Term};
ghost use Rattle.term_checks.specs.Formulas.{AreFormulas, IsFormula};
ghost use Rattle.context_stack.specs.Steps.{RefusesFormula};
ghost use Rattle.context_stack.specs.Checks.{AreTruthValues, HasFirstVariable, IsFirstOther, RefusesAssumptions};

use crate::errors::ContextError;
use std::alloc::{AllocError, Global};
use term_checks::is_truth_value;
use term_orders::first_variable;
use term_table::{Table, Term};

/// A variable below a live term.
fn variable_below(alloc: Global, table: &Table, t: Term) -> Result<Option<Term>, ContextError>
    requires { IsSome (node_at table.now t) }
    ensures some { IfOk result (λ found. IfSome found (λ v. IsVariable table.now v × IsBelow table.now v t)) }
    ensures none { IfOk result (λ found. IfNone found ((v : Term) → IsBelow table.now v t → IsVariable table.now v → ⊥)) }
    ensures cause { IfErr result (λ e. e ≡ ContextError.NoMemory) }
{
    match first_variable(alloc, table, t) {
        Ok(found) => Ok(found),
        Err(_) => Err(ContextError::NoMemory),
    }
}

/// Refuses what is no formula.
pub(crate) fn judge(alloc: Global, table: &Table, t: Term) -> Result<(), ContextError>
    ensures formula { OnOk result (IsFormula table.now t) }
    ensures refused { IfErr result (λ e. RefusesFormula table.now t e) }
{
    if !table.is_live(t) {
        return Err(ContextError::DeadTerm(1));
    }
    if !is_truth_value(table, t) {
        return Err(ContextError::NotBool(1));
    }
    let found = variable_below(alloc, table, t)?;
    match found {
        None => Ok(()),
        Some(v) => Err(ContextError::HasVariable(v)),
    }
}

/// The place of the first dead term, from 1 on.
fn first_dead(table: &Table, terms: &[Term]) -> Option<usize>
    ensures dead { IfSome result (λ place. IsFirstDead table.now terms.now place) }
    ensures live { IfNone result (AreLive table.now terms.now) }
{
    for (i, t) in terms.iter().enumerate() {
        if !table.is_live(*t) {
            return Some(i + 1);
        }
    }
    None
}

/// The place of the first term that is no truth value, from 1 on.
fn first_other(table: &Table, terms: &[Term]) -> Option<usize>
    ensures other { IfSome result (λ place. IsFirstOther table.now terms.now place) }
    ensures none { IfNone result (AreTruthValues table.now terms.now) }
{
    for (i, t) in terms.iter().enumerate() {
        if !is_truth_value(table, *t) {
            return Some(i + 1);
        }
    }
    None
}

/// A variable below the first of the live terms that has one.
fn variable_below_some(
    alloc: Global,
    table: &Table,
    terms: &[Term],
) -> Result<Option<Term>, AllocError>
    requires { AreLive table.now terms.now }
    ensures some { IfOk result (λ found. IfSome found (HasFirstVariable table.now terms.now)) }
    ensures none { IfOk result (λ found. IfNone found ((t v : Term) → IsIn terms.now t → IsBelow table.now v t → IsVariable table.now v → ⊥)) }
{
    for t in terms {
        if let Some(v) = first_variable(alloc, table, *t)? {
            return Ok(Some(v));
        }
    }
    Ok(None)
}

/// Why the terms aren't all formulas, where they aren't.
pub(crate) fn refusal_of(
    alloc: Global,
    table: &Table,
    terms: &[Term],
) -> Result<Option<ContextError>, AllocError>
    ensures some { IfOk result (λ found. IfSome found (RefusesAssumptions table.now terms.now)) }
    ensures none { IfOk result (λ found. IfNone found (AreFormulas table.now terms.now)) }
{
    match first_dead(table, terms) {
        Some(place) => Ok(Some(ContextError::DeadTerm(place))),
        None => refusal_of_live(alloc, table, terms),
    }
}

/// The same of live terms.
fn refusal_of_live(
    alloc: Global,
    table: &Table,
    terms: &[Term],
) -> Result<Option<ContextError>, AllocError>
    requires { AreLive table.now terms.now }
    ensures some { IfOk result (λ found. IfSome found (RefusesAssumptions table.now terms.now)) }
    ensures none { IfOk result (λ found. IfNone found (AreFormulas table.now terms.now)) }
{
    match first_other(table, terms) {
        Some(place) => Ok(Some(ContextError::NotBool(place))),
        None => refusal_of_truth_values(alloc, table, terms),
    }
}

/// The same of live truth values.
#[tactic(auto, using(crate::proofs::Checking::closed_formulas))]
fn refusal_of_truth_values(
    alloc: Global,
    table: &Table,
    terms: &[Term],
) -> Result<Option<ContextError>, AllocError>
    requires live { AreLive table.now terms.now }
    requires sorts { AreTruthValues table.now terms.now }
    ensures some { IfOk result (λ found. IfSome found (RefusesAssumptions table.now terms.now)) }
    ensures none { IfOk result (λ found. IfNone found (AreFormulas table.now terms.now)) }
{
    let found = variable_below_some(alloc, table, terms)?;
    match found {
        Some(v) => Ok(Some(ContextError::HasVariable(v))),
        None => Ok(None),
    }
}
