//! Conflict analysis: the clause of the first unique implication point, and cores of assumptions.
//!
//! The algorithm is that of J. Marques-Silva and K. Sakallah, GRASP: a search algorithm for
//! propositional satisfiability, 1999, with the first unique implication point of L. Zhang and
//! others, Efficient conflict driven learning in a Boolean satisfiability solver, 2001.

ghost use Rattle.std.specs.Prelude.{◌≡◌, ◌≢◌, ◌<◌, ◌≤◌, ◌+◌, ◌++◌, ◌∷◌, [], ◌⊎◌, List, ℕ, Bool, true, false, Option, Some, None, length, slice_get, slice_set, OnOk, OnErr, IfOk, replicate, map};
ghost use Rattle.clause_logic.specs.declared.Lit.{Lit};
ghost use Rattle.clause_logic.specs.Clauses.{In, opposite, Both, Listed};
ghost use Rattle.clause_logic.specs.Trails.{IsPlaced, FalseBefore, Learned, IsCore};
ghost use Rattle.clause_trail.specs.Analysis.{Marked, Covers, MarksOne, Ready, trues, Resolves, Rooted, Explains, marks_of};

use crate::State;
use clause_logic::Lit;
use std::alloc::{AllocError, Global};

/// What analysis has met: places of the conflict's level that are still to be resolved, lower
/// literals that the clause keeps, and their places; and the variables met.
#[derive(Drop)]
pub struct Marks {
    pub waiting: Vec<bool>,
    pub kept: Vec<bool>,
    pub lower: Vec<Lit>,
    pub count: usize,
    pub seen: Vec<usize>,
}

impl Marks {
    /// Marks a literal that is false by the literal at a place.
    pub fn mark(&mut self, start: usize, place: usize, lit: Lit) -> Result<(), AllocError>
        requires waiting { place < length self.old.waiting.items }
        requires kept { place < length self.old.kept.items }
        requires counted { self.old.count ≡ trues self.old.waiting.items }
        ensures { OnOk result (MarksOne start place lit (marks_of self.old) (marks_of self.new)) }
    {
        if place >= start {
            if !self.waiting[place] {
                self.waiting[place] = true;
                self.count += 1;
                let _ = self.seen.push(lit.var);
            }
        } else if !self.kept[place] {
            self.kept[place] = true;
            let _ = self.seen.push(lit.var);
            self.lower.push(lit)?;
        }
        Ok(())
    }

    /// Marks each literal of a clause but the one at `bound`.
    pub fn mark_all(
        &mut self,
        state: &State,
        start: usize,
        bound: usize,
        lits: &[Lit],
    ) -> Result<(), AllocError>
        requires placed { IsPlaced state.now.order.items state.now.places.items }
        requires marked { Marked state.now.order.items start bound (marks_of self.old) }
        requires false_there { (m : Lit) → In m lits.now → (slice_get state.now.places.items m.var ≡ Some bound) ⊎ FalseBefore state.now.order.items bound m }
        ensures { OnOk result (Covers state.now.order.items state.now.places.items start bound lits.now (marks_of self.old) (marks_of self.new)) }
    {
        for lit in lits {
            let place = state.places[lit.var];
            if place != bound {
                self.mark(start, place, *lit)?;
            }
        }
        Ok(())
    }

    /// Marks for that many places, none of them set.
    pub fn new(alloc: Global, places: usize) -> Result<Marks, AllocError>
        ensures waiting { IfOk result (λ m. m.waiting.items ≡ replicate places false) }
        ensures kept { IfOk result (λ m. m.kept.items ≡ replicate places false) }
        ensures lower { IfOk result (λ m. m.lower.items ≡ []) }
        ensures count { IfOk result (λ m. m.count ≡ 0) }
    {
        Ok(Marks {
            waiting: vec![in alloc; false; places]?,
            kept: vec![in alloc; false; places]?,
            lower: Vec::new(alloc),
            count: 0,
            seen: Vec::new(alloc),
        })
    }

    /// Puts the other literals of its reason in the place of a literal of the conflict's level.
    pub fn resolve(&mut self, state: &State, start: usize, place: usize) -> Result<(), AllocError>
        requires ready { Ready state.now.order.items state.now.places.items state.now.reasons.items (state.now.clauses.items) start }
        requires marked { Marked state.now.order.items start (place + 1) (marks_of self.old) }
        requires many { 1 < self.old.count }
        requires here { slice_get self.old.waiting.items place ≡ Some true }
        ensures { OnOk result (Resolves state.now.order.items start place (state.now.clauses.items) (marks_of self.old) (marks_of self.new)) }
    {
        self.waiting[place] = false;
        self.count -= 1;
        match state.reason_at(place) {
            Some(reason) => self.mark_all(state, start, place, state.lits_at(reason)),
            None => Ok(()),
        }
    }

    /// Puts its reason in the place of a literal, or the literal into the core where it has none.
    pub fn explain(
        &mut self,
        state: &State,
        assumed: &[Lit],
        place: usize,
        core: &mut Vec<Lit>,
    ) -> Result<(), AllocError>
        requires rooted { Rooted state.now.order.items state.now.places.items state.now.reasons.items (state.now.clauses.items) assumed.now }
        requires marked { Marked state.now.order.items 0 (place + 1) (marks_of self.old) }
        requires here { slice_get self.old.waiting.items place ≡ Some true }
        ensures { OnOk result (Explains state.now.order.items place (state.now.clauses.items) assumed.now (marks_of self.old) (marks_of self.new) core.old.items core.new.items) }
    {
        self.waiting[place] = false;
        self.count -= 1;
        match state.reason_at(place) {
            Some(reason) => self.mark_all(state, 0, place, state.lits_at(reason))?,
            None => core.push(state.lit_at(place))?,
        }
        Ok(())
    }

    /// The last place that waits.
    pub fn last(&self, bound: usize) -> usize
        requires some { (p : ℕ) × (p < bound) × (slice_get self.now.waiting.items p ≡ Some true) }
        requires short { bound ≤ length self.now.waiting.items }
        ensures { slice_get self.now.waiting.items result ≡ Some true }
    {
        let mut place = bound - 1;
        while !self.waiting[place] {
            place -= 1;
        }
        place
    }
}

/// Derives the clause with one literal of the conflict's level, from the reasons of that level.
pub fn analyze(
    alloc: Global,
    state: &State,
    start: usize,
    conflict: &[Lit],
    seen: &mut Vec<usize>,
) -> Result<Vec<Lit>, AllocError>
    requires ready { Ready state.now.order.items state.now.places.items state.now.reasons.items (state.now.clauses.items) start }
    requires false_there { (m : Lit) → In m conflict.now → FalseBefore state.now.order.items (length state.now.order.items) m }
    requires high { (m : Lit) × In m conflict.now × (p : ℕ) × (start ≤ p) × (slice_get state.now.order.items p ≡ Some (opposite m)) }
    ensures { IfOk result (λ v. Learned (Both (Listed (state.now.clauses.items)) (λ c. c ≡ conflict.now)) state.now.order.items start v.items) }
{
    let len = state.order.len();
    let mut marks = Marks::new(alloc, len)?;
    marks.mark_all(state, start, len, conflict)?;
    let mut bound = len;
    while marks.count > 1 {
        bound -= 1;
        if marks.waiting[bound] {
            marks.resolve(state, start, bound)?;
        }
    }
    let place = marks.last(bound);
    let lit = state.order[place];
    *seen = marks.seen;
    let mut lower = marks.lower;
    lower.push(Lit {
        var: lit.var,
        positive: !lit.positive,
    })?;
    Ok(lower)
}

/// Finds assumptions that make the given literals false.
pub fn core_of(
    alloc: Global,
    state: &State,
    assumed: &[Lit],
    lits: &[Lit],
) -> Result<Vec<Lit>, AllocError>
    requires rooted { Rooted state.now.order.items state.now.places.items state.now.reasons.items (state.now.clauses.items) assumed.now }
    requires false_there { (m : Lit) → In m lits.now → FalseBefore state.now.order.items (length state.now.order.items) m }
    ensures { IfOk result (λ v. IsCore (Listed (state.now.clauses.items)) state.now.order.items assumed.now lits.now v.items) }
{
    let len = state.order.len();
    let mut marks = Marks::new(alloc, len)?;
    marks.mark_all(state, 0, len, lits)?;
    let mut core = Vec::new(alloc);
    let mut bound = len;
    while marks.count > 0 {
        bound -= 1;
        if marks.waiting[bound] {
            marks.explain(state, assumed, bound, &mut core)?;
        }
    }
    Ok(core)
}
