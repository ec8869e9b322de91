//! Literals and clauses, what they mean, and records of learned clauses.
//!
//! The definitions stand in `specs/`: when a clause follows from others, what unit propagation
//! gives (a closure that knows no code), and what a record of learned clauses is.
#![tactic(auto)]

ghost use Rattle.std.specs.Prelude.{◌≡◌, ◌↔◌, IsTrue};
ghost use Rattle.clause_logic.specs.Clauses.{opposite};

pub mod laws;
pub mod lists;

/// A literal: a variable, or its negation.
#[derive(Clone, Copy, PartialEq, Eq, Debug)]
pub struct Lit {
    /// The number of the variable, from 0.
    pub var: usize,
    /// Whether the literal is the variable itself.
    pub positive: bool,
}

impl Lit {
    /// The literal that is true just where this one is false.
    pub fn opposite(self) -> Lit
        ensures { result ≡ opposite self }
    {
        Lit {
            var: self.var,
            positive: !self.positive,
        }
    }
}

/// Whether two literals are one.
pub fn same(a: Lit, b: Lit) -> bool
    ensures { IsTrue result ↔ (a ≡ b) }
{
    a.var == b.var && a.positive == b.positive
}
