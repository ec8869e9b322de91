//! The calls on contexts.
ghost use Rattle.std.specs.Prelude.{◌≡◌, ◌<◌, ◌++◌, ◌∷◌, [], OnOk, IfErr, OnErr, IsSome, is_some, length};
ghost use Rattle.term_checks.specs.Formulas.{IsFormula};
ghost use Rattle.context_stack.specs.Steps.{Asserts, Pops, RefusesFormula, RefusesPush};
ghost use Rattle.context_stack.specs.declared.errors.ContextError.TheVariants.{BottomLevel};
ghost use Rattle.yices_api.specs.State.{context_in};
ghost use Rattle.yices_api.specs.Steps.{Alters, Api, Finds, Relevels};
ghost use Rattle.yices_api.specs.declared.calls.Call.TheVariants as call;

use crate::env::Env;
use crate::handles::ContextId;
use crate::held::Held;
use crate::replies::{CallError, Reply, of_context};
use context_stack::{Context, ContextError};
use slab::Slab;
use term_table::{Table, Term};

/// The most contexts that are made.
const MOST_CONTEXTS: u64 = 4_294_967_296;

/// Whether the context is live.
pub(crate) fn is_live(contexts: &Slab<Held>, id: ContextId) -> bool
    ensures { result ≡ is_some (context_in contexts.now.slots id) }
{
    match contexts.get(id.key) {
        Some(held) => held.stamp == id.stamp,
        None => false,
    }
}

/// Takes all levels and formulas of a live context away.
fn reset_in(contexts: &mut Slab<Held>, id: ContextId)
    requires { IsSome (context_in contexts.old.slots id) }
    ensures { Alters (Relevels (λ ls ms. ms ≡ [] ∷ [])) id contexts.old.slots contexts.new.slots }
{
    match contexts.get_mut(id.key) {
        Some(held) => held.context.reset(),
        None => unreachable!(),
    }
}

/// Opens a level of a live context.
fn push_in(contexts: &mut Slab<Held>, id: ContextId) -> Result<(), ContextError>
    requires { IsSome (context_in contexts.old.slots id) }
    ensures opened { OnOk result (Alters (Relevels (λ ls ms. (length ls < 65537) × (ms ≡ ls ++ [] ∷ []))) id contexts.old.slots contexts.new.slots) }
    ensures refused { IfErr result (λ e. Finds (λ x. RefusesPush x.levels e) id contexts.old.slots) }
    ensures same { OnErr result (contexts.new.slots ≡ contexts.old.slots) }
{
    match contexts.get_mut(id.key) {
        Some(held) => held.context.push(),
        None => unreachable!(),
    }
}

/// Takes the newest level of a live context away.
fn pop_in(contexts: &mut Slab<Held>, id: ContextId) -> Result<(), ContextError>
    requires { IsSome (context_in contexts.old.slots id) }
    ensures popped { OnOk result (Alters (Relevels Pops) id contexts.old.slots contexts.new.slots) }
    ensures refused { IfErr result (λ e. (e ≡ BottomLevel) × Finds (λ x. length x.levels ≡ 1) id contexts.old.slots) }
    ensures same { OnErr result (contexts.new.slots ≡ contexts.old.slots) }
{
    match contexts.get_mut(id.key) {
        Some(held) => held.context.pop(),
        None => unreachable!(),
    }
}

/// Asserts a term in a live context.
fn assert_in(
    contexts: &mut Slab<Held>,
    id: ContextId,
    table: &Table,
    t: Term,
) -> Result<(), ContextError>
    requires { IsSome (context_in contexts.old.slots id) }
    ensures asserted { OnOk result (Alters (Relevels (λ ls ms. Asserts ls ms t)) id contexts.old.slots contexts.new.slots) }
    ensures formula { OnOk result (IsFormula table.now t) }
    ensures refused { IfErr result (λ e. RefusesFormula table.now t e) }
    ensures same { OnErr result (contexts.new.slots ≡ contexts.old.slots) }
{
    match contexts.get_mut(id.key) {
        Some(held) => held.context.assert(table, t),
        None => unreachable!(),
    }
}

impl Env {
    /// A new context.
    pub(crate) fn new_context(&mut self) -> Reply
        ensures { Api self.old call.NewContext result self.new }
    {
        let stamp = self.made;
        if stamp >= MOST_CONTEXTS {
            return Reply::Refused(CallError::TooMany);
        }
        let Ok(context) = Context::new(self.alloc) else {
            return Reply::NoMemory;
        };
        match self.contexts.insert(Held { stamp, context }) {
            Ok(key) => {
                self.made = stamp + 1;
                Reply::Context(ContextId { key, stamp })
            }
            Err(_) => Reply::NoMemory,
        }
    }

    /// Frees a context.
    pub(crate) fn free_context(&mut self, id: ContextId) -> Reply
        ensures { Api self.old (call.FreeContext id) result self.new }
    {
        if !is_live(&self.contexts, id) {
            return Reply::Refused(CallError::DeadContext(1));
        }
        let _freed = self.contexts.try_remove(id.key);
        Reply::Done
    }

    /// Takes all levels and formulas of a context away.
    pub(crate) fn reset_context(&mut self, id: ContextId) -> Reply
        ensures { Api self.old (call.ResetContext id) result self.new }
    {
        if !is_live(&self.contexts, id) {
            return Reply::Refused(CallError::DeadContext(1));
        }
        reset_in(&mut self.contexts, id);
        Reply::Done
    }

    /// Opens a level of a context.
    pub(crate) fn push(&mut self, id: ContextId) -> Reply
        ensures { Api self.old (call.Push id) result self.new }
    {
        if !is_live(&self.contexts, id) {
            return Reply::Refused(CallError::DeadContext(1));
        }
        match push_in(&mut self.contexts, id) {
            Ok(()) => Reply::Done,
            Err(e) => of_context(1, e),
        }
    }

    /// Takes the newest level of a context away.
    pub(crate) fn pop(&mut self, id: ContextId) -> Reply
        ensures { Api self.old (call.Pop id) result self.new }
    {
        if !is_live(&self.contexts, id) {
            return Reply::Refused(CallError::DeadContext(1));
        }
        match pop_in(&mut self.contexts, id) {
            Ok(()) => Reply::Done,
            Err(e) => of_context(1, e),
        }
    }

    /// What is known of a context's formulas.
    pub(crate) fn context_status(&self, id: ContextId) -> Reply
        ensures { Api self.now (call.ContextStatus id) result self.now }
    {
        match self.context(id) {
            Some(context) => Reply::Status(context.status()),
            None => Reply::Refused(CallError::DeadContext(1)),
        }
    }

    /// Asserts a term in a context. Only the formulas count in the place of `NotBool`.
    pub(crate) fn assert_formula(&mut self, id: ContextId, t: Term) -> Reply
        ensures { Api self.old (call.AssertFormula id t) result self.new }
    {
        if !is_live(&self.contexts, id) {
            return Reply::Refused(CallError::DeadContext(1));
        }
        match assert_in(&mut self.contexts, id, &self.table, t) {
            Ok(()) => Reply::Done,
            Err(e) => of_context(2, e),
        }
    }
}
