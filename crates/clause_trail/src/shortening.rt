//! Derived clauses made shorter.
//!
//! A literal goes where the clause that made it false has no other literals than ones that are
//! false where the derived clause's are: literals of it, or ones that are implied in turn. This is
//! the recursive rule of N. Sörensson and A. Biere, Minimizing learned clauses, 2009, with a stack
//! in place of the recursion.

ghost use Rattle.std.specs.Prelude.{◌≡◌, ◌<◌, ◌⊎◌, List, ℕ, Some, length, slice_get, IfOk, OnOk};
ghost use Rattle.std.specs.Bool.{OnTrue};
ghost use Rattle.clause_logic.specs.declared.Lit.{Lit};
ghost use Rattle.clause_logic.specs.Clauses.{In, Listed};
ghost use Rattle.clause_logic.specs.Trails.{IsPlaced, FalseBefore};
ghost use Rattle.clause_trail.specs.View.{lists_of, Sound};
ghost use Rattle.clause_trail.specs.Shortening.{AreFound, AllFalsified, LooksAlong, LooksAt, IsRedundant, Shortens};

use crate::State;
use clause_logic::Lit;
use std::alloc::{AllocError, Global};

/// What is found for a literal that is false.
#[derive(Clone, Copy)]
pub enum Finding {
    /// Nothing yet.
    Unknown,
    /// It is false where the clause's literals are.
    Implied,
    /// No clause shows that.
    Independent,
}

/// What a look at a literal comes to.
#[derive(Clone, Copy)]
pub enum Look {
    /// Another literal has to be settled first.
    After(Lit),
    /// The finding for it.
    Settled(Finding),
}

/// The findings by the places of the trail, and the literals that are still to be settled, each
/// after the ones above it.
#[derive(Drop)]
struct Findings {
    found: Vec<Finding>,
    waiting: Vec<Lit>,
}

/// The literals of a clause as the findings to begin with.
fn begin(alloc: Global, state: &State, lits: &[Lit]) -> Result<Findings, AllocError>
    requires placed { IsPlaced state.now.order.items state.now.places.items }
    requires false_there { AllFalsified state.now.order.items lits.now }
    ensures { IfOk result (λ f. AreFound (Listed state.now.clauses.items) state.now.order.items lits.now f.found.items) }
{
    let mut found = vec![in alloc; Finding::Unknown; state.order.len()]?;
    for lit in lits {
        let place = state.places[lit.var];
        found[place] = Finding::Implied;
    }
    Ok(Findings {
        found,
        waiting: Vec::new(alloc),
    })
}

/// Looks for a literal of a clause, but of one variable, that isn't implied.
fn look_along(state: &State, found: &[Finding], var: usize, lits: &[Lit]) -> Look
    requires placed { IsPlaced state.now.order.items state.now.places.items }
    requires found { length found.now ≡ length state.now.order.items }
    requires reasons { (m : Lit) → In m lits.now → m.var < length state.now.reasons.items }
    requires false_there { (m : Lit) → In m lits.now → (m.var ≡ var) ⊎ FalseBefore state.now.order.items (length state.now.order.items) m }
    ensures { LooksAlong state.now.places.items found.now var lits.now result }
{
    for lit in lits {
        if lit.var != var {
            let place = state.places[lit.var];
            match found[place] {
                Finding::Implied => {}
                Finding::Independent => return Look::Settled(Finding::Independent),
                Finding::Unknown => {
                    if state.reasons[lit.var].is_none() {
                        return Look::Settled(Finding::Independent);
                    }
                    return Look::After(*lit);
                }
            }
        }
    }
    Look::Settled(Finding::Implied)
}

/// Looks whether the clause that made a literal false shows that it is implied.
fn look_at(state: &State, found: &[Finding], lits: &[Lit], lit: Lit) -> Look
    requires sound { Sound (lists_of state.now) }
    requires found { AreFound (Listed state.now.clauses.items) state.now.order.items lits.now found.now }
    requires is_false { FalseBefore state.now.order.items (length state.now.order.items) lit }
    ensures { LooksAt (Listed state.now.clauses.items) state.now.order.items lits.now lit result }
{
    match state.reasons[lit.var] {
        None => Look::Settled(Finding::Independent),
        Some(reason) => look_along(state, found, lit.var, state.lits_at(reason)),
    }
}

impl Findings {
    /// Settles the literal on top, or puts one on it that has to be settled first.
    fn turn(&mut self, state: &State, lits: &[Lit], top: Lit) -> Result<(), AllocError>
        requires sound { Sound (lists_of state.now) }
        requires found { AreFound (Listed state.now.clauses.items) state.now.order.items lits.now self.old.found.items }
        requires waiting { AllFalsified state.now.order.items self.old.waiting.items }
        requires is_false { FalseBefore state.now.order.items (length state.now.order.items) top }
        ensures found { OnOk result (AreFound (Listed state.now.clauses.items) state.now.order.items lits.now self.new.found.items) }
        ensures waiting { OnOk result (AllFalsified state.now.order.items self.new.waiting.items) }
    {
        match look_at(state, &self.found, lits, top) {
            Look::After(lit) => self.waiting.push(lit)?,
            Look::Settled(finding) => {
                let place = state.places[top.var];
                self.found[place] = finding;
                self.waiting.pop();
            }
        }
        Ok(())
    }

    /// Whether a literal is redundant. Each turn puts a literal on the stack or settles one, so
    /// twice the length of the trail is enough of them.
    fn is_redundant(&mut self, state: &State, lits: &[Lit], lit: Lit) -> Result<bool, AllocError>
        requires sound { Sound (lists_of state.now) }
        requires found { AreFound (Listed state.now.clauses.items) state.now.order.items lits.now self.old.found.items }
        requires is_false { FalseBefore state.now.order.items (length state.now.order.items) lit }
        ensures found { OnOk result (AreFound (Listed state.now.clauses.items) state.now.order.items lits.now self.new.found.items) }
        ensures redundant { IfOk result (λ b. OnTrue b (IsRedundant (Listed state.now.clauses.items) state.now.order.items lits.now lit)) }
    {
        self.waiting.clear();
        for made in 0..state.order.len().saturating_mul(2) {
            match self.waiting.last().copied() {
                Some(top) => self.turn(state, lits, top)?,
                None => match look_at(state, &self.found, lits, lit) {
                    Look::After(first) => self.waiting.push(first)?,
                    Look::Settled(Finding::Implied) => return Ok(true),
                    Look::Settled(_) => return Ok(false),
                },
            }
        }
        Ok(false)
    }
}

/// Leaves out literals that are false where others of the list are. It reads each reason on the way
/// once, and once more for each literal of it that has to be settled first.
pub fn shorten(alloc: Global, state: &State, lits: &[Lit]) -> Result<Vec<Lit>, AllocError>
    requires sound { Sound (lists_of state.now) }
    requires false_there { AllFalsified state.now.order.items lits.now }
    ensures { IfOk result (λ v. Shortens (Listed state.now.clauses.items) state.now.order.items lits.now v.items) }
{
    let mut findings = begin(alloc, state, lits)?;
    let mut kept = Vec::new(alloc);
    for lit in lits {
        if !findings.is_redundant(state, lits, *lit)? {
            kept.push(*lit)?;
        }
    }
    Ok(kept)
}
