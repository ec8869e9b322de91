//! A state with fewer learned clauses.

ghost use Rattle.std.specs.Prelude.{◌≡◌, ◌++◌, List, length, IfOk};
ghost use Rattle.clause_logic.specs.declared.Lit.{Lit};
ghost use Rattle.clause_trail.specs.View.{lists_of, Sound};
ghost use Rattle.clause_search.specs.Solving.{Going, Rebuilds, Reduces};

use crate::Checker;
use crate::loading::{Loaded, load, refute};
use crate::solving::copy_clause;
use clause_logic::Lit;
use clause_logic::lists::Clause;
use clause_trail::{Added, State};
use std::alloc::{AllocError, Global};
use std::mem;

/// A state of the added clauses and the learned ones that are kept, at the root.
fn rebuild(alloc: Global, state: &State, added: &[Clause]) -> Result<Loaded, AllocError>
    requires sound { Sound (lists_of state.now) }
    requires front { (learned : List (List Lit)) × (state.now.clauses.items ≡ added.now ++ learned) }
    ensures { IfOk result (λ l. Rebuilds (lists_of state.now) added.now l) }
{
    let mut fresh = match load(alloc, state.values.len(), added)? {
        Loaded::Ready(fresh) => fresh,
        Loaded::Refuted => return Ok(Loaded::Refuted),
    };
    for c in added.len()..state.clauses.len() {
        if state.relevance.keeps(c) {
            match fresh.add_clause(copy_clause(alloc, state, c)?)? {
                Added::Kept => {}
                Added::False => {
                    refute(alloc, &fresh, state.lits_at(c))?;
                    return Ok(Loaded::Refuted);
                }
            }
        }
    }
    Ok(Loaded::Ready(fresh))
}

/// Hands the choices of one state over to another.
fn hand_over(from: &mut State, to: &mut State)
    ensures { lists_of to.new ≡ lists_of to.old }
{
    from.choice.release_all(&from.order);
    from.relevance.thin();
    mem::swap(&mut to.choice, &mut from.choice);
    mem::swap(&mut to.relevance, &mut from.relevance);
}

/// Throws learned clauses away that are of little use, and begins at the root again: the search
/// can go on, or the clauses can't hold.
pub fn reduce<C: Checker>(
    alloc: Global,
    state: &mut State,
    added: &[Clause],
    assumed: &[Lit],
    checker: &C,
) -> Result<bool, AllocError>
    requires { Going (lists_of state.old) added.now (C.stands checker.now) assumed.now }
    ensures { IfOk result (λ b. Reduces (lists_of state.old) added.now (C.stands checker.now) assumed.now (lists_of state.new) b) }
{
    state.relevance.choose(alloc)?;
    match rebuild(alloc, state, added)? {
        Loaded::Refuted => Ok(false),
        Loaded::Ready(mut fresh) => {
            hand_over(state, &mut fresh);
            *state = fresh;
            Ok(true)
        }
    }
}
