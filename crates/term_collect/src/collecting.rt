//! The calls of a collection.
ghost use Rattle.std.specs.Prelude.{◌≡◌, ◌++◌, List, [], IfOk, IfErr, OnOk, OnErr};
ghost use Rattle.term_shapes.specs.declared.handles.Term.{Term};
ghost use Rattle.term_shapes.specs.declared.handles.TypeId.{TypeId};
ghost use Rattle.term_table.specs.World.{World};
ghost use Rattle.term_table.specs.Changes.{FreedCounts, IsClosed, Sweeps};
ghost use Rattle.term_table.specs.Checking.{AreLive};
ghost use Rattle.term_collect.specs.Reach.{AreLiveTypes, IsDeadRoot, IsKept, IsReached, Leaves, Frees};
ghost use Rattle.term_collect.specs.Marking.{AllWait, HasMark, Keeping};

use crate::roots::{DeadRoot, first_dead, first_dead_type, mark_terms, mark_types};
use crate::spreading::{mark_held, mark_named, spread};
use term_table::{Table, Term, TypeId};

/// How many terms and types were freed.
#[derive(Clone, Copy, Debug, PartialEq, Eq, Drop)]
pub struct Collected {
    /// The terms.
    pub terms: u32,
    /// The types.
    pub types: u32,
}

/// A collection that was started, with the handles that it keeps so far. It can't be dropped, since the table would keep
/// its marks: `finish` ends it.
pub struct Collection<'t> {
    table: &'t mut Table,
}

impl<'t> Collection<'t> {
    /// Starts a collection that keeps nothing yet. The time is linear in what is live.
    #[tactic(auto, using(crate::proofs::Keeping::keeping_starts))]
    pub fn start(table: &'t mut Table) -> Collection<'t>
        ensures same_table { result.table.ghost_name ≡ table.entry.ghost_name }
        ensures keeps { Keeping table.old result.table.now [] [] }
    {
        table.clear_marks();
        Collection { table }
    }

    /// Keeps the listed terms too.
    pub fn keep(&mut self, roots: &[Term])
        requires { AreLive self.old.table.now roots.now }
        ensures same_table { self.new.table.ghost_name ≡ self.old.table.ghost_name }
        ensures keeps { (old : World) (ts : List Term) (us : List TypeId) → Keeping old self.old.table.now ts us → Keeping old self.new.table.now (ts ++ roots.now) us }
    {
        mark_terms(self.table, roots);
    }

    /// Keeps the listed types too.
    pub fn keep_types(&mut self, roots: &[TypeId])
        requires { AreLiveTypes self.old.table.now roots.now }
        ensures same_table { self.new.table.ghost_name ≡ self.old.table.ghost_name }
        ensures keeps { (old : World) (ts : List Term) (us : List TypeId) → Keeping old self.old.table.now ts us → Keeping old self.new.table.now ts (us ++ roots.now) }
    {
        mark_types(self.table, roots);
    }

    /// Frees whatever neither the kept handles nor what is held reaches; with `keep_named` each meaning of each name is
    /// kept too, hidden ones as well. The meanings of what was freed are taken away. The time is linear in what was live,
    /// in the arguments of what stays and in the names.
    pub fn finish(self, keep_named: bool) -> Collected
        requires { (old : World) × (ts : List Term) × (us : List TypeId) × Keeping old self.table.now ts us }
        ensures leaves { (old : World) (ts : List Term) (us : List TypeId) → Keeping old self.entry.table.now ts us → Leaves old self.exit.0.now (IsReached old (IsKept old ts us keep_named)) }
        ensures counts { (old : World) (ts : List Term) (us : List TypeId) → Keeping old self.entry.table.now ts us → Frees old self.exit.0.now result.terms result.types }
    {
        let Collection { table } = self;
        mark_named(table, keep_named);
        sweep(table)
    }
}

/// Frees whatever neither the listed terms and types nor what is held reaches; with `keep_named` each meaning of each
/// name is kept too, hidden ones as well. The meanings of what was freed are taken away. The time is linear in what was
/// live, in the arguments of what stays and in the names.
///
/// # Errors
///
/// `Term` where a listed term is dead, and else `TypeId` where a listed type is: the first of its list. Then nothing
/// changes.
pub fn collect(
    table: &mut Table,
    roots: &[Term],
    types: &[TypeId],
    keep_named: bool,
) -> Result<Collected, DeadRoot>
    ensures leaves { OnOk result (Leaves table.old table.new (IsReached table.old (IsKept table.old roots.now types.now keep_named))) }
    ensures counts { IfOk result (λ c. Frees table.old table.new c.terms c.types) }
    ensures live { OnOk result (AreLive table.old roots.now × AreLiveTypes table.old types.now) }
    ensures dead { IfErr result (λ e. IsDeadRoot table.old roots.now types.now e) }
    ensures same { OnErr result (table.new ≡ table.old) }
{
    if let Some(place) = first_dead(table, roots) {
        return Err(DeadRoot::Term(place));
    }
    if let Some(place) = first_dead_type(table, types) {
        return Err(DeadRoot::TypeId(place));
    }
    let mut collection = Collection::start(table);
    collection.keep(roots);
    collection.keep_types(types);
    Ok(collection.finish(keep_named))
}

/// Frees whatever neither the marked handles nor what is held reaches.
#[tactic(auto, using(crate::proofs::Leaving::is_closed))]
fn sweep(table: &mut Table) -> Collected
    requires { AllWait table.old }
    ensures leaves { Leaves table.old table.new (IsReached table.old (HasMark table.old)) }
    ensures counts { FreedCounts table.old table.new result.terms result.types }
{
    mark_held(table);
    spread(table);
    table.is_table();
    free_rest(table)
}

/// Frees whatever has no mark.
fn free_rest(table: &mut Table) -> Collected
    requires { IsClosed table.old }
    ensures swept { Sweeps table.old table.new }
    ensures counts { FreedCounts table.old table.new result.terms result.types }
{
    let (terms, types) = table.free_unmarked();
    Collected { terms, types }
}

/// What is live stays live while handles are kept.
#[tactic(auto, using(crate::proofs::Listed::kept_live, crate::proofs::Listed::kept_live_types))]
pub fn kept_stay_live()
    ensures terms { (old now : World) (ts : List Term) (us : List TypeId) → Keeping old now ts us → (xs : List Term) → AreLive old xs → AreLive now xs }
    ensures types { (old now : World) (ts : List Term) (us : List TypeId) → Keeping old now ts us → (xs : List TypeId) → AreLiveTypes old xs → AreLiveTypes now xs }
{}
