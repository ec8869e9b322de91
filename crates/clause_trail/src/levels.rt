//! Where literals that are false stand, and the levels before a place.

ghost use Rattle.std.specs.Prelude.{◌≡◌, ◌<◌, ◌≤◌, ◌+◌, List, ℕ, Some, length, slice_get};
ghost use Rattle.clause_logic.specs.declared.Lit.{Lit};
ghost use Rattle.clause_logic.specs.Clauses.{In};
ghost use Rattle.clause_logic.specs.Trails.{IsPlaced, FalseBefore};
ghost use Rattle.clause_trail.specs.Levels.{IsTop};

use crate::State;
use clause_logic::Lit;

/// One past the last place of literals that are false.
pub fn top_of(state: &State, lits: &[Lit]) -> usize
    requires placed { IsPlaced state.now.order.items state.now.places.items }
    requires false_there { (m : Lit) → In m lits.now → FalseBefore state.now.order.items (length state.now.order.items) m }
    ensures { (s : ℕ) → ((m : Lit) → In m lits.now → FalseBefore state.now.order.items s m) → IsTop state.now.order.items s lits.now result }
{
    let mut top = 0;
    for lit in lits {
        let place = state.places[lit.var];
        if place >= top {
            top = place + 1;
        }
    }
    top
}

impl State {
    /// Where a level begins on the trail.
    pub fn start_of(&self, level: usize) -> usize
        requires { level < length self.now.starts.items }
        ensures { slice_get self.now.starts.items level ≡ Some result }
    {
        self.starts[level]
    }

    /// How many levels begin before a place.
    pub fn levels_before(&self, place: usize) -> usize
        ensures bound { result ≤ length self.now.starts.items }
        ensures below { (k n : ℕ) → k < result → slice_get self.now.starts.items k ≡ Some n → n < place }
        ensures above { (s : ℕ) → slice_get self.now.starts.items result ≡ Some s → place ≤ s }
    {
        for level in 0..self.starts.len() {
            if self.start_of(level) >= place {
                return level;
            }
        }
        self.starts.len()
    }
}
