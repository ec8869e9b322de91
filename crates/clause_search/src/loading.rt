//! A state made of the added clauses.

ghost use Rattle.std.specs.Prelude.{◌≡◌, ◌<◌, ◌≤◌, ◌+◌, ◌++◌, ◌∷◌, [], List, ℕ, Some, length, slice_get, take, IfOk};
ghost use Rattle.clause_logic.specs.declared.Lit.{Lit};
ghost use Rattle.clause_trail.specs.Words.{AllFalse};
ghost use Rattle.clause_trail.specs.View.{lists_of, Sound};
ghost use Rattle.clause_search.specs.Content.{AllKnown};
ghost use Rattle.clause_search.specs.Loading.{IsRoot, Impossible, Loads};

use clause_logic::Lit;
use clause_logic::lists::Clause;
use clause_trail::analysis::core_of;
use clause_trail::{Added, State};
use std::alloc::{AllocError, Global};

/// What the added clauses come to.
#[derive(Drop)]
pub enum Loaded {
    /// A state with all of them.
    Ready(State),
    /// One is false by the others.
    Refuted,
}

/// A state with so many variables and no clause.
fn empty_state(alloc: Global, vars: usize) -> Result<State, AllocError>
    ensures { IfOk result (λ s. IsRoot (lists_of s) vars []) }
{
    let mut state = State::new(alloc);
    for number in 0..vars {
        state.new_var(alloc)?;
    }
    Ok(state)
}

/// Shows that a clause that is false at the root can't hold.
pub fn refute(alloc: Global, state: &State, lits: &[Lit]) -> Result<(), AllocError>
    requires sound { Sound (lists_of state.now) }
    requires root { state.now.starts.items ≡ [] }
    requires is_false { AllFalse state.now.values.items lits.now }
    ensures { IfOk result (λ _. Impossible (state.now.clauses.items ++ lits.now ∷ [])) }
{
    core_of(alloc, state, &[], lits)?;
    Ok(())
}

/// Makes a state of the added clauses, up to one that is false at the root.
pub fn load(alloc: Global, vars: usize, added: &[Clause]) -> Result<Loaded, AllocError>
    requires { AllKnown vars added.now }
    ensures { IfOk result (λ l. Loads vars added.now l) }
{
    let mut state = empty_state(alloc, vars)?;
    for clause in added {
        let lits = Vec::from_slice(alloc, clause.as_slice())?;
        match state.add_clause(Clause::from_vec(lits))? {
            Added::Kept => {}
            Added::False => {
                refute(alloc, &state, clause.as_slice())?;
                return Ok(Loaded::Refuted);
            }
        }
    }
    Ok(Loaded::Ready(state))
}
