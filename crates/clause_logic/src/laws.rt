//! Laws of learned clauses, as the clauses of functions that do nothing.

ghost use Rattle.clause_logic.specs.Laws.{NewLaw, FewLaw, NewHoldsNoneLaw, NewPlainLaw, NewFewerLaw, NewWeakerLaw, NewStaysLaw};

/// What analysis derives is new.
pub fn newness()
    ensures { NewLaw }
{}

/// There are few different clauses.
pub fn few_clauses()
    ensures { FewLaw }
{}

/// What a new clause doesn't hold: all literals of a clause that is there, or a literal with its
/// opposite.
pub fn new_clauses()
    ensures holds_none { NewHoldsNoneLaw }
    ensures plain { NewPlainLaw }
{}

/// What is new over some clauses is new over fewer, and over others by which unit propagation
/// finds no more.
pub fn strength()
    ensures fewer { NewFewerLaw }
    ensures weaker { NewWeakerLaw }
{}

/// What is new stays new where clauses are added that define one variable more: unit propagation
/// through them comes back to the other variables with nothing that it didn't have.
pub fn extension()
    ensures { NewStaysLaw }
{}
