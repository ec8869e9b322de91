//! The rounds of a search: propagate, ask the checker, decide, or learn from a conflict.

ghost use Rattle.std.specs.Prelude.{◌≡◌, ◌<◌, ◌≤◌, ◌+◌, ◌++◌, ◌∷◌, [], ◌↔◌, List, ℕ, Bool, Option, Some, None, length, slice_get, drop, IfOk, IfSome, IfNone};
ghost use Rattle.std.specs.Bool.{OnTrue, OnFalse};
ghost use Rattle.clause_logic.specs.declared.Lit.{Lit};
ghost use Rattle.clause_logic.specs.Clauses.{In, Follows, Both, Listed};
ghost use Rattle.clause_logic.specs.Trails.{FalseBefore};
ghost use Rattle.clause_trail.specs.Words.{Open, Propagated};
ghost use Rattle.clause_trail.specs.View.{lists_of, Sound};
ghost use Rattle.clause_search.specs.Answers.{Justified, Lawful};
ghost use Rattle.clause_search.specs.Solving.{Going, Recorded, Rounds, Stretches, weight};
ghost use Rattle.clause_search.specs.declared.Turns.{Turns};

use crate::reducing::reduce;
use crate::{Answer, Checker, Look, Turns};
use clause_logic::Lit;
use clause_logic::lists::{Assignment, Clause, Clauses, Lits};
use clause_trail::State;
use clause_trail::conflicts::{Pending, Settled};
use std::alloc::{AllocError, Global};
use std::mem;

/// What a round of the search comes to.
#[derive(Drop)]
pub enum Round<S> {
    Next,
    Done(Answer<S>),
}

/// The literals of a clause, copied.
pub fn copy_clause(alloc: Global, state: &State, c: usize) -> Result<Clause, AllocError>
    requires { c < length state.now.clauses.items }
    ensures { IfOk result (λ lits. slice_get state.now.clauses.items c ≡ Some lits) }
{
    let lits = Vec::from_slice(alloc, state.lits_at(c))?;
    Ok(Clause::from_vec(lits))
}

/// The clauses from a place on, with one more.
fn record_of(alloc: Global, state: &State, from: usize, last: Clause) -> Result<Clauses, AllocError>
    ensures { IfOk result (λ cs. cs ≡ drop from state.now.clauses.items ++ last ∷ []) }
{
    let mut clauses = Clauses::new(alloc);
    for c in from..state.clauses.len() {
        let clause = copy_clause(alloc, state, c)?;
        clauses.push(clause)?;
    }
    clauses.push(last)?;
    Ok(clauses)
}

/// Whether so many learned clauses are as many as the limit allows.
fn is_limit(turns: Turns, learned: usize) -> bool
    ensures { OnTrue result (turns ≡ Turns.Counted learned) }
{
    match turns {
        Turns::Whole => false,
        Turns::Counted(limit) => limit == learned as u64,
    }
}

/// Shows the checker the values of the state.
fn show<C: Checker>(alloc: Global, state: &mut State, checker: &mut C) -> Look<C::Stop>
    ensures state { lists_of state.new ≡ lists_of state.old }
    ensures stands { (c : List Lit) → C.stands checker.new c ↔ C.stands checker.old c }
    ensures newest { C.newest checker.new ≡ Some (state.old.values.items, result) }
    ensures lawful { Lawful (C.stands checker.old) state.old.values.items result }
{
    let values = mem::replace(&mut state.values, Vec::new(alloc));
    let shown = Assignment::from_vec(values);
    let look = checker.look(&shown);
    state.values = shown.into_vec();
    look
}

/// Ends the search with a core, or learns a clause and goes back.
fn learn_from<C: Checker>(
    alloc: Global,
    state: &mut State,
    added: &[Clause],
    assumed: &[Lit],
    turns: Turns,
    lits: &[Lit],
    checker: &C,
) -> Result<Round<C::Stop>, AllocError>
    requires going { Going (lists_of state.old) added.now (C.stands checker.now) assumed.now }
    requires known { (m : Lit) → In m assumed.now → m.var < length state.old.values.items }
    requires false_there { (m : Lit) → In m lits.now → FalseBefore state.old.order.items (length state.old.order.items) m }
    requires follows { Follows (Both (Listed added.now) (C.stands checker.now)) lits.now }
    requires recorded { Recorded state.old.clauses.items added.now (C.stands checker.now) assumed.now turns }
    ensures { IfOk result (λ r. Rounds (length state.old.values.items) added.now (C.stands checker.now) assumed.now turns (C.newest checker.now) (weight (lists_of state.old) added.now) (lists_of state.new) r) }
{
    match state.settle(alloc, assumed, lits)? {
        Settled::Core(core) => Ok(Round::Done(Answer::Unsat(core))),
        Settled::Derived(clause) => {
            let learned = state.clauses.len() - added.len();
            if is_limit(turns, learned) {
                let record = record_of(alloc, state, added.len(), clause)?;
                return Ok(Round::Done(Answer::Unknown(record)));
            }
            state.keep(clause)?;
            Ok(Round::Next)
        }
    }
}

/// A variable that has no value, as the literal to decide.
fn first_open(state: &State) -> Option<Lit>
    ensures some { IfSome result (λ l. Open state.now.values.items l) }
    ensures none { IfNone result ((v : ℕ) → v < length state.now.values.items → (b : Bool) × (slice_get state.now.values.items v ≡ Some (Some b))) }
{
    for var in 0..state.values.len() {
        if state.is_open(var) {
            return Some(Lit {
                var,
                positive: false,
            });
        }
    }
    None
}

/// The literal to decide: the one that is wanted, if its variable has no value, or else any.
fn pick(state: &State, wanted: Option<Lit>) -> Option<Lit>
    ensures some { IfSome result (λ l. Open state.now.values.items l) }
    ensures none { IfNone result ((v : ℕ) → v < length state.now.values.items → (b : Bool) × (slice_get state.now.values.items v ≡ Some (Some b))) }
{
    if let Some(lit) = wanted {
        if lit.var < state.values.len() && state.is_open(lit.var) {
            return Some(lit);
        }
    }
    first_open(state)
}

/// Decides a literal, or ends the search.
fn extend<C: Checker>(
    alloc: Global,
    state: &mut State,
    added: &[Clause],
    assumed: &[Lit],
    checker: &C,
) -> Result<Round<C::Stop>, AllocError>
    requires going { Going (lists_of state.old) added.now (C.stands checker.now) assumed.now }
    requires known { (m : Lit) → In m assumed.now → m.var < length state.old.values.items }
    requires propagated { Propagated state.old.values.items state.old.clauses.items }
    requires done { state.old.done ≡ length state.old.order.items }
    requires shown { C.newest checker.now ≡ Some (state.old.values.items, Look.Fits) }
    ensures { IfOk result (λ r. (turns : Turns) → Recorded state.old.clauses.items added.now (C.stands checker.now) assumed.now turns → Rounds (length state.old.values.items) added.now (C.stands checker.now) assumed.now turns (C.newest checker.now) (weight (lists_of state.old) added.now) (lists_of state.new) r) }
{
    match state.pending(assumed) {
        Pending::Open(lit) => {
            state.branch(lit)?;
            Ok(Round::Next)
        }
        Pending::False(lit) => {
            let core = state.core_of_false(alloc, assumed, lit)?;
            Ok(Round::Done(Answer::Unsat(core)))
        }
        Pending::None => {
            let wanted = state.choice.next(&state.values);
            match pick(state, wanted) {
                Some(lit) => {
                    state.branch(lit)?;
                    Ok(Round::Next)
                }
                None => {
                    let values = Vec::from_slice(alloc, &state.values)?;
                    Ok(Round::Done(Answer::Sat(Assignment::from_vec(values))))
                }
            }
        }
    }
}

/// What is done where propagation is complete.
fn ask<C: Checker>(
    alloc: Global,
    state: &mut State,
    added: &[Clause],
    assumed: &[Lit],
    turns: Turns,
    checker: &mut C,
) -> Result<Round<C::Stop>, AllocError>
    requires going { Going (lists_of state.old) added.now (C.stands checker.old) assumed.now }
    requires recorded { Recorded state.old.clauses.items added.now (C.stands checker.old) assumed.now turns }
    requires known { (m : Lit) → In m assumed.now → m.var < length state.old.values.items }
    requires propagated { Propagated state.old.values.items state.old.clauses.items }
    requires done { state.old.done ≡ length state.old.order.items }
    ensures stands { (c : List Lit) → C.stands checker.new c ↔ C.stands checker.old c }
    ensures rounds { IfOk result (λ r. Rounds (length state.old.values.items) added.now (C.stands checker.old) assumed.now turns (C.newest checker.new) (weight (lists_of state.old) added.now) (lists_of state.new) r) }
{
    match show(alloc, state, checker) {
        Look::Fits => extend(alloc, state, added, assumed, checker),
        Look::Conflict(clause) => learn_from(
            alloc,
            state,
            added,
            assumed,
            turns,
            clause.as_slice(),
            checker,
        ),
        Look::Stop(reason) => Ok(Round::Done(Answer::Stopped(reason))),
        Look::NoMemory => Ok(Round::Done(Answer::NoMemory)),
    }
}

/// One round of the search.
fn run_round<C: Checker>(
    alloc: Global,
    state: &mut State,
    added: &[Clause],
    assumed: &[Lit],
    turns: Turns,
    checker: &mut C,
) -> Result<Round<C::Stop>, AllocError>
    requires going { Going (lists_of state.old) added.now (C.stands checker.old) assumed.now }
    requires recorded { Recorded state.old.clauses.items added.now (C.stands checker.old) assumed.now turns }
    requires known { (m : Lit) → In m assumed.now → m.var < length state.old.values.items }
    ensures stands { (c : List Lit) → C.stands checker.new c ↔ C.stands checker.old c }
    ensures rounds { IfOk result (λ r. Rounds (length state.old.values.items) added.now (C.stands checker.old) assumed.now turns (C.newest checker.new) (weight (lists_of state.old) added.now) (lists_of state.new) r) }
{
    match state.propagate()? {
        Some(c) => {
            state.relevance.touch(c);
            let lits = copy_clause(alloc, state, c)?;
            learn_from(
                alloc,
                state,
                added,
                assumed,
                turns,
                lits.as_slice(),
                checker,
            )
        }
        None => ask(alloc, state, added, assumed, turns, checker),
    }
}

/// Whether learned clauses may be thrown away: under a limit each one is kept.
fn may_reduce(turns: Turns, left: u64) -> bool
    ensures { OnTrue result ((turns ≡ Turns.Whole) × (0 < left)) }
{
    match turns {
        Turns::Whole => left > 0,
        Turns::Counted(_) => false,
    }
}

/// Runs the search to its end, or as far as there is room for learned clauses where some may be
/// thrown away.
fn stretch<C: Checker>(
    alloc: Global,
    state: &mut State,
    added: &[Clause],
    assumed: &[Lit],
    turns: Turns,
    may: bool,
    checker: &mut C,
) -> Result<Round<C::Stop>, AllocError>
    requires going { Going (lists_of state.old) added.now (C.stands checker.old) assumed.now }
    requires recorded { Recorded state.old.clauses.items added.now (C.stands checker.old) assumed.now turns }
    requires known { (m : Lit) → In m assumed.now → m.var < length state.old.values.items }
    ensures stands { (c : List Lit) → C.stands checker.new c ↔ C.stands checker.old c }
    ensures stretches { IfOk result (λ r. Stretches (length state.old.values.items) added.now (C.stands checker.old) assumed.now turns (C.newest checker.new) may (lists_of state.new) r) }
{
    loop {
        match run_round(alloc, state, added, assumed, turns, checker)? {
            Round::Next => {
                if may && state.relevance.is_full() {
                    return Ok(Round::Next);
                }
            }
            Round::Done(answer) => return Ok(Round::Done(answer)),
        }
    }
}

/// Runs the search to its end.
pub fn run<C: Checker>(
    alloc: Global,
    state: &mut State,
    added: &[Clause],
    assumed: &[Lit],
    turns: Turns,
    checker: &mut C,
) -> Result<Answer<C::Stop>, AllocError>
    requires going { Going (lists_of state.old) added.now (C.stands checker.old) assumed.now }
    requires recorded { Recorded state.old.clauses.items added.now (C.stands checker.old) assumed.now turns }
    requires known { (m : Lit) → In m assumed.now → m.var < length state.old.values.items }
    ensures stands { (c : List Lit) → C.stands checker.new c ↔ C.stands checker.old c }
    ensures justified { IfOk result (λ a. Justified (length state.old.values.items) added.now (C.stands checker.old) assumed.now turns (C.newest checker.new) a) }
{
    let mut left = u64::MAX;
    state.relevance.begin(added.len());
    loop {
        let may = may_reduce(turns, left);
        match stretch(alloc, state, added, assumed, turns, may, checker)? {
            Round::Done(answer) => return Ok(answer),
            Round::Next => {}
        }
        if !reduce(alloc, state, added, assumed, checker)? {
            return Ok(Answer::Unsat(Lits::new(alloc)));
        }
        left -= 1;
    }
}
