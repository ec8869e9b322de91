//! What a conflict comes to: a core of the assumptions, or a clause that is learned.

ghost use Rattle.std.specs.Prelude.{◌≡◌, ◌<◌, ◌≤◌, ◌+◌, ◌++◌, ◌∷◌, [], List, ℕ, Some, None, length, slice_get, OnOk, IfOk, IfSome, IfNone};
ghost use Rattle.std.specs.Bool.{OnTrue, OnFalse};
ghost use Rattle.clause_logic.specs.declared.Lit.{Lit};
ghost use Rattle.clause_logic.specs.Clauses.{In, opposite, Both, Listed};
ghost use Rattle.clause_logic.specs.Trails.{FalseBefore, Prefix, Learned};
ghost use Rattle.clause_trail.specs.Words.{False};
ghost use Rattle.clause_trail.specs.View.{lists_of, Sound};
ghost use Rattle.clause_trail.specs.Changes.{Chosen, Asserting, LastStart, NoneAfter, Settles, Shrunk, Pends, Refuting};

use crate::analysis::{analyze, core_of};
use crate::levels::top_of;
use crate::shortening::shorten;
use crate::{Pair, Standing, State};
use clause_logic::Lit;
use clause_logic::lists::{Clause, Lits};
use std::alloc::{AllocError, Global};

/// The first assumption that isn't true, if there is one.
#[derive(Clone, Copy)]
pub enum Pending {
    None,
    Open(Lit),
    False(Lit),
}

/// What a conflict comes to.
#[derive(Drop)]
pub enum Settled {
    /// Assumptions that make its literals false.
    Core(Lits),
    /// A clause that is new.
    Derived(Clause),
}

impl State {
    /// Whether all literals stand on the trail before a place.
    pub fn all_before(&self, lits: &[Lit], place: usize) -> bool
        requires sound { Sound (lists_of self.now) }
        requires known { (m : Lit) → In m lits.now → m.var < length self.now.values.items }
        ensures yes { OnTrue result ((m : Lit) → In m lits.now → Prefix self.now.order.items place m) }
        ensures no { OnFalse result (((m : Lit) → In m lits.now → Prefix self.now.order.items place m) → ⊥) }
    {
        for lit in lits {
            if !self.is_before(*lit, place) {
                return false;
            }
        }
        true
    }

    /// Goes back to the highest level of a conflict, and finds the core of the assumptions there,
    /// or derives a clause. The conflict's literals are all false on the trail.
    pub fn settle(
        &mut self,
        alloc: Global,
        assumed: &[Lit],
        lits: &[Lit],
    ) -> Result<Settled, AllocError>
        requires sound { Sound (lists_of self.old) }
        requires chosen { Chosen (lists_of self.old) assumed.now }
        requires known { (m : Lit) → In m assumed.now → m.var < length self.old.values.items }
        requires false_there { (m : Lit) → In m lits.now → FalseBefore self.old.order.items (length self.old.order.items) m }
        ensures sound { Sound (lists_of self.new) }
        ensures chosen { Chosen (lists_of self.new) assumed.now }
        ensures clauses { self.new.clauses.items ≡ self.old.clauses.items }
        ensures vars { length self.new.values.items ≡ length self.old.values.items }
        ensures settles { IfOk result (λ s. Settles (lists_of self.new) assumed.now lits.now s) }
    {
        let below = self.starts.last().copied().unwrap_or(0);
        self.choice.note(&self.order, below);
        let top = top_of(self, lits);
        let level = self.levels_before(top);
        self.backtrack(level);
        match self.turn_start(assumed) {
            Some(start) => {
                let mut seen = Vec::new(alloc);
                let clause = self.derive(alloc, start, lits, &mut seen)?;
                self.choice.bump_all(&seen);
                self.relevance
                    .conflict(&seen, &self.places, &self.reasons, start);
                Ok(Settled::Derived(clause))
            }
            None => {
                let core = core_of(alloc, self, assumed, lits)?;
                Ok(Settled::Core(Lits::from_vec(core)))
            }
        }
    }

    /// Derives a clause from a conflict of the last level, and makes it short.
    fn derive(
        &self,
        alloc: Global,
        start: usize,
        lits: &[Lit],
        seen: &mut Vec<usize>,
    ) -> Result<Clause, AllocError>
        requires sound { Sound (lists_of self.now) }
        requires last { LastStart (lists_of self.now) start }
        requires false_there { (m : Lit) → In m lits.now → FalseBefore self.now.order.items (length self.now.order.items) m }
        requires high { (m : Lit) × In m lits.now × (p : ℕ) × (start ≤ p) × (slice_get self.now.order.items p ≡ Some (opposite m)) }
        ensures { IfOk result (λ c. Learned (Both (Listed self.now.clauses.items) (λ d. d ≡ lits.now)) self.now.order.items start c) }
    {
        let full = analyze(alloc, self, start, lits, seen)?;
        let last = full.len() - 1;
        let mut clause = shorten(alloc, self, &full.as_slice()[..last])?;
        clause.push(full.as_slice()[last])?;
        Ok(Clause::from_vec(clause))
    }

    /// Where the last level begins, if all assumptions stand before it.
    fn turn_start(&self, assumed: &[Lit]) -> Option<usize>
        requires sound { Sound (lists_of self.now) }
        requires known { (m : Lit) → In m assumed.now → m.var < length self.now.values.items }
        ensures some { IfSome result (λ s. LastStart (lists_of self.now) s × ((a : Lit) → In a assumed.now → Prefix self.now.order.items s a)) }
        ensures none { IfNone result (NoneAfter (lists_of self.now) assumed.now) }
    {
        let levels = self.starts.len();
        if levels == 0 {
            return None;
        }
        let start = self.start_of(levels - 1);
        if self.all_before(assumed, start) {
            return Some(start);
        }
        None
    }

    /// The literal that is false by the one before a place, or the first where there is none.
    fn second_watch(&self, first: Lit, top: usize) -> Lit
        requires { top ≤ length self.now.order.items }
        ensures none { top ≡ 0 → result ≡ first }
        ensures some { (q : ℕ) → q + 1 ≡ top → slice_get self.now.order.items q ≡ Some (opposite result) }
    {
        if top == 0 {
            return first;
        }
        let newest = self.lit_at(top - 1);
        newest.opposite()
    }

    /// Goes back as far as a derived clause allows, keeps it, and makes its last literal true.
    pub fn keep(&mut self, clause: Clause) -> Result<(), AllocError>
        requires sound { Sound (lists_of self.old) }
        requires asserting { (s : ℕ) × LastStart (lists_of self.old) s × Asserting self.old.order.items s clause }
        ensures sound { Sound (lists_of self.new) }
        ensures chosen { OnOk result ((assumed : List Lit) → Chosen (lists_of self.old) assumed → Chosen (lists_of self.new) assumed) }
        ensures clauses { OnOk result (self.new.clauses.items ≡ self.old.clauses.items ++ clause ∷ []) }
        ensures vars { length self.new.values.items ≡ length self.old.values.items }
    {
        let lits = clause.len();
        self.assert_clause(clause)?;
        self.relevance.learned(lits);
        self.restart();
        Ok(())
    }

    /// Goes back to the root where a restart is due.
    fn restart(&mut self)
        requires { Sound (lists_of self.old) }
        ensures sound { Sound (lists_of self.new) }
        ensures shrunk { Shrunk (lists_of self.old) (lists_of self.new) }
    {
        if self.choice.restart_due() {
            self.backtrack(0);
        }
    }

    /// Goes back as far as a derived clause allows, and makes its last literal true.
    fn assert_clause(&mut self, clause: Clause) -> Result<(), AllocError>
        requires sound { Sound (lists_of self.old) }
        requires asserting { (s : ℕ) × LastStart (lists_of self.old) s × Asserting self.old.order.items s clause }
        ensures sound { Sound (lists_of self.new) }
        ensures chosen { OnOk result ((assumed : List Lit) → Chosen (lists_of self.old) assumed → Chosen (lists_of self.new) assumed) }
        ensures clauses { OnOk result (self.new.clauses.items ≡ self.old.clauses.items ++ clause ∷ []) }
        ensures vars { length self.new.values.items ≡ length self.old.values.items }
    {
        let last = clause.len() - 1;
        let first = clause.as_slice()[last];
        let top = top_of(self, &clause.as_slice()[..last]);
        let second = self.second_watch(first, top);
        let level = self.levels_before(top);
        self.backtrack(level);
        self.learn(clause, Pair { first, second })?;
        Ok(())
    }

    /// The first assumption that isn't true, by how it stands.
    pub fn pending(&self, assumed: &[Lit]) -> Pending
        requires sound { Sound (lists_of self.now) }
        requires known { (m : Lit) → In m assumed.now → m.var < length self.now.values.items }
        ensures { Pends (lists_of self.now) assumed.now result }
    {
        for lit in assumed {
            match self.standing(*lit) {
                Standing::True => {}
                Standing::Open => return Pending::Open(*lit),
                Standing::False => return Pending::False(*lit),
            }
        }
        Pending::None
    }

    /// The core of the assumptions where one of them is false.
    pub fn core_of_false(
        &self,
        alloc: Global,
        assumed: &[Lit],
        lit: Lit,
    ) -> Result<Lits, AllocError>
        requires sound { Sound (lists_of self.now) }
        requires chosen { Chosen (lists_of self.now) assumed.now }
        requires assumption { In lit assumed.now }
        requires is_false { False self.now.values.items lit }
        ensures { IfOk result (λ core. Refuting (lists_of self.now) assumed.now core) }
    {
        let mut core = core_of(alloc, self, assumed, &[lit])?;
        core.push(lit)?;
        Ok(Lits::from_vec(core))
    }
}
