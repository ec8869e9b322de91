//! The checks of contexts, and their cores.
ghost use Rattle.std.specs.Prelude.{◌≡◌, IfErr, IfOk, IfSome, IfNone, IsSome, None, OnErr, Some};
ghost use Rattle.term_checks.specs.Formulas.{AreFormulas};
ghost use Rattle.context_stack.specs.Checks.{Checks, RefusesAssumptions};
ghost use Rattle.context_stack.specs.States.{held_terms};
ghost use Rattle.yices_api.specs.State.{context_in};
ghost use Rattle.yices_api.specs.Steps.{Alters, Api, Finds};
ghost use Rattle.yices_api.specs.declared.calls.Call.TheVariants as call;

use crate::constructors::first_dead;
use crate::contexts::is_live;
use crate::env::Env;
use crate::handles::ContextId;
use crate::held::Held;
use crate::replies::{CallError, Reply, of_check, of_context};
use context_stack::{Checked, ContextError};
use slab::Slab;
use std::alloc::{AllocError, Global};
use term_checks::Turns;
use term_table::{Table, Term, Terms};

/// Checks the formulas of a live context.
fn check_in(contexts: &mut Slab<Held>, id: ContextId, table: &Table, turns: Turns) -> Checked
    requires { Finds (λ x. AreFormulas table.now (held_terms x)) id contexts.old.slots }
    ensures { Alters (Checks table.now None turns result) id contexts.old.slots contexts.new.slots }
{
    match contexts.get_mut(id.key) {
        Some(held) => held.context.check(table, turns),
        None => unreachable!(),
    }
}

/// Checks the formulas of a live context together with assumptions.
fn check_assuming_in(
    contexts: &mut Slab<Held>,
    id: ContextId,
    table: &Table,
    assumed: &[Term],
    turns: Turns,
) -> Result<Checked, ContextError>
    requires { Finds (λ x. AreFormulas table.now (held_terms x)) id contexts.old.slots }
    ensures checked { IfOk result (λ found. Alters (Checks table.now (Some assumed.now) turns found) id contexts.old.slots contexts.new.slots) }
    ensures refused { IfErr result (RefusesAssumptions table.now assumed.now) }
    ensures same { OnErr result (contexts.new.slots ≡ contexts.old.slots) }
{
    match contexts.get_mut(id.key) {
        Some(held) => held.context.check_assuming(table, assumed, turns),
        None => unreachable!(),
    }
}

/// A copy of terms.
fn copied(alloc: Global, terms: &[Term]) -> Result<Terms, AllocError>
    ensures { IfOk result (λ copy. copy ≡ terms.now) }
{
    let mut copy = Terms::new(alloc);
    for t in terms {
        copy.push(*t)?;
    }
    Ok(copy)
}

impl Env {
    /// Checks the formulas that are on the levels of a context now.
    pub(crate) fn check_context(&mut self, id: ContextId, turns: Turns) -> Reply
        ensures { Api self.old (call.CheckContext id turns) result self.new }
    {
        if !is_live(&self.contexts, id) {
            return Reply::Refused(CallError::DeadContext(1));
        }
        let found = check_in(&mut self.contexts, id, &self.table, turns);
        of_check(found)
    }

    /// Checks the formulas that are on the levels of a context now together with assumptions. Places count the context and
    /// the limit where an assumption is dead, and the assumptions alone where one is no formula.
    pub(crate) fn check_context_with_assumptions(
        &mut self,
        id: ContextId,
        turns: Turns,
        assumed: &[Term],
    ) -> Reply
        ensures { Api self.old (call.CheckContextWithAssumptions id turns assumed.now) result self.new }
    {
        if !is_live(&self.contexts, id) {
            return Reply::Refused(CallError::DeadContext(1));
        }
        if let Some(place) = first_dead(&self.table, assumed) {
            return Reply::Refused(CallError::DeadTerm(place + 2));
        }
        match check_assuming_in(&mut self.contexts, id, &self.table, assumed, turns) {
            Ok(found) => of_check(found),
            Err(e) => of_context(1, e),
        }
    }

    /// The core of the newest check of a context.
    pub(crate) fn unsat_core(&self, id: ContextId) -> Reply
        ensures { Api self.now (call.GetUnsatCore id) result self.now }
    {
        match self.context(id) {
            None => Reply::Refused(CallError::DeadContext(1)),
            Some(context) => match context.core() {
                None => Reply::Refused(CallError::NoCore),
                Some(core) => match copied(self.alloc, core) {
                    Ok(copy) => Reply::Terms(copy),
                    Err(_) => Reply::NoMemory,
                },
            },
        }
    }
}
