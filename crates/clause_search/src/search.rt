//! The search, as its callers see it.

ghost use Rattle.std.specs.Prelude.{◌≡◌, ◌<◌, ◌+◌, ◌++◌, ◌∷◌, [], ◌↔◌, List, ℕ, None, length, IfOk, OnOk, OnErr};
ghost use Rattle.std.specs.Bool.{OnTrue, OnFalse};
ghost use Rattle.clause_logic.specs.declared.Lit.{Lit};
ghost use Rattle.clause_logic.specs.Clauses.{In};
ghost use Rattle.clause_search.specs.Answers.{Justified};
ghost use Rattle.clause_search.specs.Content.{AllKnown};

use crate::loading::{Loaded, load};
use crate::solving::run;
use crate::{Answer, Checker, Turns};
use clause_logic::Lit;
use clause_logic::lists::{Clause, Lits};
use std::alloc::{AllocError, Global};
use std::marker::Model;

/// Whether all literals name variables below a number.
fn all_below(lits: &[Lit], vars: usize) -> bool
    ensures yes { OnTrue result ((l : Lit) → In l lits.now → l.var < vars) }
    ensures no { OnFalse result (((l : Lit) → In l lits.now → l.var < vars) → ⊥) }
{
    for lit in lits {
        if lit.var >= vars {
            return false;
        }
    }
    true
}

/// How many variables and clauses there were at a `push`.
#[derive(Clone, Copy)]
pub struct Mark {
    vars: usize,
    clauses: usize,
}

/// A search over clauses, with levels that can be taken back.
#[derive(Drop)]
pub struct Search {
    alloc: Global,
    phases: Vec<bool>,
    clauses: Vec<Clause>,
    marks: Vec<Mark>,
}

impl Model for Search {
    ghost use Rattle.clause_search.specs.Content.{Stacked};

    ghost Value = { Stacked };

    ghost use Rattle.clause_search.specs.Layout.{stacked_of, IsSearch};

    ghost view = { stacked_of };

    ghost invariant = { IsSearch };
}

impl Search {
    /// A search with no variables and no clauses. It takes no memory.
    pub fn new(alloc: Global) -> Search
        ensures vars { result.content.vars ≡ 0 }
        ensures clauses { result.content.clauses ≡ [] }
        ensures levels { result.saved ≡ [] }
    {
        Search {
            alloc,
            phases: Vec::new(alloc),
            clauses: Vec::new(alloc),
            marks: Vec::new(alloc),
        }
    }

    /// How many variables there are.
    pub fn vars(&self) -> usize
        ensures { result ≡ self.now.content.vars }
    {
        self.phases.len()
    }

    /// How many levels were pushed.
    pub fn levels(&self) -> usize
        ensures { result ≡ length self.now.saved }
    {
        self.marks.len()
    }

    /// Makes a variable, and answers its number.
    pub fn new_var(&mut self) -> Result<usize, AllocError>
        ensures number { IfOk result (λ v. v ≡ self.old.content.vars) }
        ensures ok { OnOk result (self.new ≡ record self.old { content = record self.old.content { vars = self.old.content.vars + 1 } }) }
        ensures err { OnErr result (self.new ≡ self.old) }
    {
        let var = self.phases.len();
        self.phases.push(false)?;
        Ok(var)
    }

    /// Whether all literals name variables that there are.
    pub fn knows(&self, lits: &[Lit]) -> bool
        ensures yes { OnTrue result ((l : Lit) → In l lits.now → l.var < self.now.content.vars) }
        ensures no { OnFalse result (((l : Lit) → In l lits.now → l.var < self.now.content.vars) → ⊥) }
    {
        all_below(lits, self.phases.len())
    }

    /// Does nothing: it says that the clauses name variables that there are.
    pub fn clauses_are_known(&self)
        ensures { AllKnown self.now.content.vars self.now.content.clauses }
    {
        let _clauses = &self.clauses;
    }

    /// Adds a clause, at the newest level. It takes time in the number of its literals.
    pub fn add_clause(&mut self, lits: &[Lit]) -> Result<(), AllocError>
        requires { (l : Lit) → In l lits.now → l.var < self.old.content.vars }
        ensures ok { OnOk result (self.new ≡ record self.old { content = record self.old.content { clauses = self.old.content.clauses ++ lits.now ∷ [] } }) }
        ensures err { OnErr result (self.new ≡ self.old) }
    {
        let clause = Clause::from_vec(Vec::from_slice(self.alloc, lits)?);
        self.clauses.push(clause)?;
        Ok(())
    }

    /// Begins a level.
    pub fn push(&mut self) -> Result<(), AllocError>
        ensures ok { OnOk result (self.new ≡ record self.old { saved = self.old.saved ++ self.old.content ∷ [] }) }
        ensures err { OnErr result (self.new ≡ self.old) }
    {
        let mark = Mark {
            vars: self.phases.len(),
            clauses: self.clauses.len(),
        };
        self.marks.push(mark)?;
        Ok(())
    }

    /// Takes the clauses and variables of the newest level away: all is as it was at its `push`.
    /// It takes no memory.
    pub fn pop(&mut self)
        requires { 0 < length self.old.saved }
        ensures { self.old.saved ≡ self.new.saved ++ self.new.content ∷ [] }
    {
        if let Some(mark) = self.marks.pop() {
            self.phases.truncate(mark.vars);
            self.clauses.truncate(mark.clauses);
        }
    }

    /// Looks for values that make all clauses and assumptions true, and that the checker accepts.
    /// At most 3 to the number of variables learned clauses are kept at a time, and under a limit
    /// each one is; the time of each is bounded by the size of the clauses.
    pub fn solve<C: Checker>(
        &mut self,
        assumed: &[Lit],
        turns: Turns,
        checker: &mut C,
    ) -> Answer<C::Stop>
        requires known { (l : Lit) → In l assumed.now → l.var < self.old.content.vars }
        requires begun { C.newest checker.old ≡ None }
        ensures unchanged { self.new ≡ self.old }
        ensures stands { (c : List Lit) → C.stands checker.new c ↔ C.stands checker.old c }
        ensures justified { Justified self.old.content.vars self.old.content.clauses (C.stands checker.old) assumed.now turns (C.newest checker.new) result }
    {
        match self.answer(assumed, turns, checker) {
            Ok(answer) => answer,
            Err(_refused) => Answer::NoMemory,
        }
    }

    /// The answer of `solve`, or that memory was refused.
    fn answer<C: Checker>(
        &mut self,
        assumed: &[Lit],
        turns: Turns,
        checker: &mut C,
    ) -> Result<Answer<C::Stop>, AllocError>
        requires known { (l : Lit) → In l assumed.now → l.var < self.old.content.vars }
        ensures unchanged { self.new ≡ self.old }
        ensures stands { (c : List Lit) → C.stands checker.new c ↔ C.stands checker.old c }
        ensures justified { IfOk result (λ a. Justified self.old.content.vars self.old.content.clauses (C.stands checker.old) assumed.now turns (C.newest checker.new) a) }
    {
        let vars = self.phases.len();
        match load(self.alloc, vars, &self.clauses)? {
            Loaded::Refuted => Ok(Answer::Unsat(Lits::new(self.alloc))),
            Loaded::Ready(mut state) => {
                state.choice.take_phases(&self.phases);
                let answer = run(
                    self.alloc,
                    &mut state,
                    &self.clauses,
                    assumed,
                    turns,
                    checker,
                )?;
                state.choice.release_all(&state.order);
                state.choice.give_phases(&mut self.phases);
                Ok(answer)
            }
        }
    }
}
