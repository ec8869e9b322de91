//! A checker of assignments, which stands for clauses that the search doesn't hold.

ghost use Rattle.std.specs.Prelude.{◌≡◌, ◌↔◌, List, Option, Some, None, Bool};
ghost use Rattle.clause_logic.specs.declared.Lit.{Lit};
ghost use Rattle.clause_search.specs.Answers.{Lawful};
ghost use Rattle.clause_search.specs.declared.checker.Look.{Look};

use clause_logic::lists::{Assignment, Clause};

/// What a checker says of an assignment.
#[derive(Drop)]
pub enum Look<S> {
    /// It has nothing against it.
    Fits,
    /// A clause that is false under the assignment, and follows from what the checker stands for.
    Conflict(Clause),
    /// The search is to end.
    Stop(S),
    /// Memory was refused.
    NoMemory,
}

/// A checker stands for clauses: the search asks it after each complete propagation.
pub trait Checker {
    /// Why a checker stops a search.
    type Stop;

    /// The clauses that it stands for.
    ghost stands: { Self → List Lit → Type 0 };

    /// The newest assignment that it was shown, with its answer.
    ghost newest: { Self → Option (List (Option Bool) × Look Self.Stop) };

    /// Forgets the newest answer.
    fn begin(&mut self)
        ensures same { (c : List Lit) → stands self.new c ↔ stands self.old c }
        ensures none { newest self.new ≡ None };

    /// Looks at an assignment, in which not all variables need have a value.
    fn look(&mut self, shown: &Assignment) -> Look<Self::Stop>
        ensures same { (c : List Lit) → stands self.new c ↔ stands self.old c }
        ensures newest { newest self.new ≡ Some (shown.now, result) }
        ensures lawful { Lawful (stands self.old) shown.now result };
}
