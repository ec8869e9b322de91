//! The collection: each formula of each context is a root, and so are the terms of its core. It takes no memory.
ghost use Rattle.std.specs.Prelude.{◌≡◌, ◌++◌, ◌∷◌, [], ◌↔◌, IfSome, IfNone, IsTrue, List, map};
ghost use Rattle.slab.specs.Slab.{entries};
ghost use Rattle.term_shapes.specs.declared.handles.Term.{Term};
ghost use Rattle.term_shapes.specs.declared.handles.TypeId.{TypeId};
ghost use Rattle.term_table.specs.World.{World};
ghost use Rattle.term_table.specs.Checking.{AreLive};
ghost use Rattle.term_collect.specs.Reach.{AreLiveTypes, IsLive, IsKept, IsReached, Leaves};
ghost use Rattle.term_collect.specs.Marking.{Keeping};
ghost use Rattle.context_stack.specs.Levels.{formulas};
ghost use Rattle.context_stack.specs.States.{held_terms};
ghost use Rattle.yices_api.specs.State.{terms_of_contexts, terms_of};
ghost use Rattle.yices_api.specs.Calls.{listed, listed_terms, listed_types, placed, AllLiveRoots, IsFirstDeadRoot};
ghost use Rattle.yices_api.specs.Told.{dead_at};
ghost use Rattle.yices_api.specs.Steps.{Frees, StepsBy};

use crate::env::Env;
use crate::held::Held;
use crate::replies::{CallError, Reply};
use context_stack::Context;
use slab::Slab;
use term_collect::{Collection, kept_stay_live};
use term_table::{Marked, Table};

/// Whether the handle is live.
fn is_live(table: &Table, root: Marked) -> bool
    ensures { IsTrue result ↔ IsLive table.now root }
{
    match root {
        Marked::Term(t) => table.is_live(t),
        Marked::TypeId(t) => table.is_live_type(t),
    }
}

/// The first dead handle, by its index.
fn first_dead(table: &Table, roots: &[Marked]) -> Option<usize>
    ensures dead { IfSome result (λ index. IsFirstDeadRoot table.now roots.now index) }
    ensures live { IfNone result (AllLiveRoots table.now roots.now) }
{
    for (i, root) in roots.iter().enumerate() {
        if !is_live(table, *root) {
            return Some(i);
        }
    }
    None
}

/// The refusal of a dead handle at that place.
fn refusal(root: Marked, place: usize) -> CallError
    ensures { result ≡ dead_at place (listed root) }
{
    match root {
        Marked::Term(_) => CallError::DeadTerm(place),
        Marked::TypeId(_) => CallError::DeadType(place),
    }
}

/// Keeps a listed handle.
fn keep_root(collection: &mut Collection<'_>, root: Marked)
    requires { IsLive collection.old.table.now root }
    ensures same_table { collection.new.table.ghost_name ≡ collection.old.table.ghost_name }
    ensures keeps { (old : World) (ts : List Term) (us : List TypeId) → Keeping old collection.old.table.now ts us → Keeping old collection.new.table.now (ts ++ listed_terms (root ∷ [])) (us ++ listed_types (root ∷ [])) }
{
    match root {
        Marked::Term(t) => collection.keep(&[t]),
        Marked::TypeId(t) => collection.keep_types(&[t]),
    }
}

/// Keeps the listed handles.
fn keep_roots(collection: &mut Collection<'_>, roots: &[Marked])
    requires { (old : World) × (ts : List Term) × (us : List TypeId) × Keeping old collection.old.table.now ts us × AllLiveRoots old roots.now }
    ensures same_table { collection.new.table.ghost_name ≡ collection.old.table.ghost_name }
    ensures keeps { (old : World) (ts : List Term) (us : List TypeId) → Keeping old collection.old.table.now ts us → Keeping old collection.new.table.now (ts ++ listed_terms roots.now) (us ++ listed_types roots.now) }
{
    kept_stay_live();
    for root in roots {
        keep_root(collection, *root);
    }
}

/// Keeps the formulas and the core of a context.
fn keep_context(collection: &mut Collection<'_>, context: &Context)
    requires { (old : World) × (ts : List Term) × (us : List TypeId) × Keeping old collection.old.table.now ts us × AreLive old (held_terms context.now) }
    ensures same_table { collection.new.table.ghost_name ≡ collection.old.table.ghost_name }
    ensures keeps { (old : World) (ts : List Term) (us : List TypeId) → Keeping old collection.old.table.now ts us → Keeping old collection.new.table.now (ts ++ held_terms context.now) us }
{
    keep_levels(collection, context);
    kept_stay_live();
    if let Some(core) = context.core() {
        collection.keep(core);
    }
}

/// Keeps the formulas of a context.
fn keep_levels(collection: &mut Collection<'_>, context: &Context)
    requires { (old : World) × (ts : List Term) × (us : List TypeId) × Keeping old collection.old.table.now ts us × AreLive old (formulas context.now.levels) }
    ensures same_table { collection.new.table.ghost_name ≡ collection.old.table.ghost_name }
    ensures keeps { (old : World) (ts : List Term) (us : List TypeId) → Keeping old collection.old.table.now ts us → Keeping old collection.new.table.now (ts ++ formulas context.now.levels) us }
{
    kept_stay_live();
    for level in 0..context.levels() {
        collection.keep(context.roots(level));
    }
    collection.keep(context.roots(context.levels()));
}

/// Keeps the formulas and the cores of all contexts.
fn keep_contexts(collection: &mut Collection<'_>, contexts: &Slab<Held>)
    requires { (old : World) × (ts : List Term) × (us : List TypeId) × Keeping old collection.old.table.now ts us × AreLive old (terms_of_contexts contexts.now.slots) }
    ensures same_table { collection.new.table.ghost_name ≡ collection.old.table.ghost_name }
    ensures keeps { (old : World) (ts : List Term) (us : List TypeId) → Keeping old collection.old.table.now ts us → Keeping old collection.new.table.now (ts ++ terms_of_contexts contexts.now.slots) us }
{
    for (_, held) in contexts.iter() {
        keep_context(collection, &held.context);
    }
}

/// Frees what neither the listed live handles nor the formulas and cores of contexts reach, nor what is held or named.
fn collect(table: &mut Table, contexts: &Slab<Held>, keep_named: bool, roots: &[Marked])
    requires roots { AllLiveRoots table.old roots.now }
    requires formulas { AreLive table.old (terms_of_contexts contexts.now.slots) }
    ensures { Leaves table.old table.new (IsReached table.old (IsKept table.old (listed_terms roots.now ++ terms_of_contexts contexts.now.slots) (listed_types roots.now) keep_named)) }
{
    let mut collection = Collection::start(table);
    keep_roots(&mut collection, roots);
    keep_contexts(&mut collection, contexts);
    collection.finish(keep_named);
}

impl Env {
    /// Frees what nothing reaches: what stays is what is reached from the permanent types and terms, from whatever is
    /// referred to, from the listed handles, from the formulas and cores of all contexts, and, where names are to be kept, from what
    /// names mean. The time is linear in what was live, in the arguments of what stays, in the formulas and in the names.
    ///
    /// # Errors
    ///
    /// `DeadTerm` or `DeadType` for the first dead handle, whose place counts the flag. Then nothing changes.
    pub fn garbage_collect(&mut self, keep_named: bool, roots: &[Marked]) -> Reply
        ensures { StepsBy (placed 2 (map listed roots.now)) (Frees keep_named roots.now) self.old result self.new }
    {
        if let Some(index) = first_dead(&self.table, roots) {
            return Reply::Refused(refusal(roots[index], index + 2));
        }
        self.table.is_table();
        collect(&mut self.table, &self.contexts, keep_named, roots);
        Reply::Done
    }
}
