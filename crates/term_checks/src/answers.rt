//! What a check answers.
ghost use Rattle.std.specs.Prelude.{◌≡◌, ◌++◌, ◌∷◌, ◌↔◌, [], length, OnOk, OnErr, IsTrue};

use std::alloc::{AllocError, Global};
use std::marker::Model;
use term_table::{Term, Terms};
use theory_combine::Learned;

/// A list of constants, each with a truth value.
#[derive(Debug, Drop)]
pub struct TermValues {
    items: Vec<(Term, bool)>,
}

impl Model for TermValues {
    ghost use Rattle.std.specs.Prelude.{Bool, List};
    ghost use Rattle.term_shapes.specs.declared.handles.Term.{Term};

    ghost Value = { List (Term × Bool) };

    ghost view = { λ v. v.items.items };
}

impl TermValues {
    /// The empty list. Takes no memory.
    pub fn new(alloc: Global) -> Self
        ensures { result ≡ [] }
    {
        TermValues {
            items: Vec::new(alloc),
        }
    }

    /// Adds a constant with its value at the end. On an error the list is as before. O(1) amortized.
    ///
    /// # Errors
    ///
    /// Where memory is refused.
    pub fn push(&mut self, item: (Term, bool)) -> Result<(), AllocError>
        ensures ok { OnOk result (self.new ≡ self.old ++ item ∷ []) }
        ensures err { OnErr result (self.new ≡ self.old) }
    {
        self.items.push(item)?;
        Ok(())
    }

    /// How many entries there are. O(1).
    pub fn len(&self) -> usize
        ensures { result ≡ length self.now }
    {
        self.items.len()
    }

    /// Whether there are none. O(1).
    pub fn is_empty(&self) -> bool
        ensures { IsTrue result ↔ (self.now ≡ []) }
    {
        self.items.is_empty()
    }

    /// The entries in order. O(1).
    pub fn as_slice(&self) -> &[(Term, bool)]
        ensures { result.now ≡ self.now }
    {
        self.items.as_slice()
    }
}

/// What [`check_terms`](crate::check_terms) answers.
#[derive(Drop)]
pub enum TermVerdict {
    /// A truth value for each constant below the formulas and assumptions, each once, in the order of their subterms;
    /// under these values all formulas and assumptions are true.
    Sat(TermValues),
    /// Assumptions that no assignment makes true together with the formulas, each once, in the order of their first places.
    Unsat(Terms),
    /// What was learned, one clause more than the limit allows.
    Unknown(Learned),
}

/// Why there is no verdict.
#[derive(Clone, Copy, Debug, PartialEq, Eq, Drop)]
pub enum CheckError {
    /// A term below a formula or an assumption is no truth value.
    NotBuilt,
    /// Memory was refused.
    NoMemory,
}
