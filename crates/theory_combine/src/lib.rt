//! Decides lists of literals over numbered nodes, and evaluates nodes.
//!
//! [`decide`] answers values of the constants under which every literal is true, or places of literals that no assignment
//! makes true together, or, under a limit alone, what was learned before it was passed. [`values_under`] gives the value
//! of each node where the constants have given values.
//!
//! Each node becomes a literal of a clause search (`node_encoding`): a model of the clauses gives values of the constants,
//! under which each node is as its literal, and what follows of the clauses holds of the nodes under every assignment.
//! A clause that the search learned is one over nodes by the same names, and it is new there: unit propagation over the
//! search's clauses finds all that it finds over the defining clauses of the nodes.
#![tactic(auto)]

ghost use Rattle.std.specs.Prelude.{◌≡◌, ℕ, ◌<◌, ◌≤◌, ◌+◌, [], ◌∷◌, ◌++◌, ◌↔◌, length, All, slice_get, IsTrue, IfOk, OnOk, OnErr, if◌then◌else◌, is_ok};
ghost use Rattle.theory_combine.specs.Learned.{NewStaysNew};

use std::alloc::{AllocError, Global};
use std::marker::Model;

mod deciding;
mod learning;
mod lists;
mod theories;
mod values;

pub use clause_search::Turns;
pub use deciding::{decide, decide_assuming};
pub use lists::{NodeClause, NodeClauses};
pub use node_encoding::{Encoding, Node, NodeLit, Origin, Places, Problem, trees_of_nodes};
pub use values::{ConstValues, constant_values, values_under};

/// A list of nodes' numbers, each with a truth value.
#[derive(Debug, Drop)]
pub struct NodeValues {
    items: Vec<(usize, bool)>,
}

impl Model for NodeValues {
    ghost use Rattle.std.specs.Prelude.{ℕ, Bool, List};

    ghost Value = { List (ℕ × Bool) };

    ghost view = { λ v. v.items.items };
}

impl NodeValues {
    /// The empty list. Takes no memory.
    pub fn new(alloc: Global) -> Self
        ensures { result ≡ [] }
    {
        NodeValues {
            items: Vec::new(alloc),
        }
    }

    /// Adds a node's value at the end. On an error the list is as before. O(1) amortized.
    pub fn push(&mut self, item: (usize, bool)) -> Result<(), AllocError>
        ensures ok { OnOk result (self.new ≡ self.old ++ item ∷ []) }
        ensures err { OnErr result (self.new ≡ self.old) }
    {
        self.items.push(item)?;
        Ok(())
    }

    /// How many entries there are. O(1).
    pub fn len(&self) -> usize
        ensures { result ≡ length self.now }
    {
        self.items.len()
    }

    /// Whether there are none. O(1).
    pub fn is_empty(&self) -> bool
        ensures { IsTrue result ↔ (self.now ≡ []) }
    {
        self.items.is_empty()
    }

    /// The entries in order. O(1).
    pub fn as_slice(&self) -> &[(usize, bool)]
        ensures { result.now ≡ self.now }
    {
        self.items.as_slice()
    }
}

/// A clause that says more than unit propagation does still says more where nodes are added. Does
/// nothing: its clause is a law.
pub fn records_stay()
    ensures { NewStaysNew }
{}

/// What was learned before a limit of turns was passed: clauses, each of which says more than unit
/// propagation does from the problem and the earlier clauses.
#[derive(Drop)]
pub struct Learned {
    /// The problem's nodes, and then those that were added: parities of the first arguments of a
    /// parity of the problem.
    pub nodes: Problem,
    /// The clauses, the oldest first.
    pub clauses: NodeClauses,
}

/// What [`decide`] and [`decide_assuming`] answer.
#[derive(Drop)]
pub enum Verdict {
    /// Values of the constant nodes under which every literal is true, by rising number of node.
    Sat(NodeValues),
    /// Places of literals, from 0 on, that no assignment makes true together.
    Unsat(Places),
    /// Clauses that were learned, one more than the limit allows.
    Unknown(Learned),
}

#[cfg(test)]
mod tests;
