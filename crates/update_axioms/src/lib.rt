//! Functions that are updates of others: the instances of axioms that a problem needs, and the functions that its
//! applications make.
//!
//! A function type has finitely many function nodes, and finitely many tuples of nodes to which they are applied. The
//! contract of `instances` is that it lists for each update that it has its value at its tuple; for each update and each
//! tuple that the tuple is the update's, or the update has the value of its function there; and for each unequal pair
//! that its functions have different values at the pair's tuple. These are the axioms of reading and writing (J. McCarthy,
//! Towards a mathematical science of computation, 1962) and of extensionality (A. Stump, C. Barrett, D. Dill and
//! J. Levitt, A decision procedure for an extensional theory of arrays, 2001), at these tuples alone, as in combinatory
//! array logic (L. de Moura and N. Bjorner, Generalized, efficient array decision procedures, 2009).
//!
//! The instances are valid: an update and its meaning are one function, and functions that are one agree at each tuple.
//! They are enough: let each function have an entry at each tuple of the view, and all of them one value elsewhere. An
//! update and its function then differ at tuples of the view alone, and there the instances say what the update is;
//! elsewhere both have the shared value. So any value of the type serves, and it is no matter whether the tuples are all
//! of a finite domain.
#![tactic(auto)]

ghost use Rattle.std.specs.Prelude.{◌≡◌, ◌++◌, ◌+◌, ℕ, length, map, IfOk, OnOk};
ghost use Rattle.std.specs.List.{range_with_len};
ghost use Rattle.update_axioms.specs.Views.{EachOnce, instances_of, at_each, apart};
ghost use Rattle.update_axioms.specs.Enough.{SayOneByOne, AreValid, AreEnough};
ghost use Rattle.update_axioms.specs.Tables.{HaveValues, TabulateThemselves, FunctionsFit, TablesAreEnough, TablesHaveValues, OneTableOneFunction};

mod building;
mod candidate;
mod grouping;
mod looking;
mod shown;
mod tabling;

pub use candidate::{
    Applications, Candidate, Demand, FunctionNodes, Judged, Made, demands_end, first_broken,
};
pub use shown::{FunctionValues, FunctionsAt, TuplesAt, ValuesAt, first_false};
use sqlite_items::Items;
use std::alloc::{AllocError, Global};
pub use tabling::{Tabled, tabled_groups_fit, tabulate};

/// A function node with a new value at one tuple: the result node, the function node, the tuple's number, and the value node.
pub type Update = (usize, usize, usize, usize);

/// Two function nodes that are unequal, and the number of the tuple at which they differ.
pub type UnequalPair = (usize, usize, Option<usize>);

/// The nodes of a tuple.
pub type TupleNodes = Items<usize>;

/// Updates, in order.
pub type Updates = Items<Update>;

/// Unequal pairs, in order.
pub type UnequalPairs = Items<UnequalPair>;

/// Tuples, in order.
pub type Tuples = Items<TupleNodes>;

/// Functions of one type, by their nodes: the updates among them, pairs that are unequal, and the tuples of arguments at which they count.
#[derive(Drop)]
pub struct FunctionView {
    /// The updates.
    pub updates: Updates,
    /// The unequal pairs.
    pub unequal: UnequalPairs,
    /// The tuples, which go by their numbers from 0.
    pub tuples: Tuples,
}

/// One axiom of a view. An update and a tuple go by their numbers, the functions of a pair by their nodes.
#[derive(Clone, Copy, Debug, PartialEq, Eq)]
pub enum Instance {
    /// At its tuple the update has its value.
    AtPoint { update: usize },
    /// The tuple is the update's own, or the update has the function's value there.
    Elsewhere { update: usize, tuple: usize },
    /// The two functions have different values at the tuple of their pair.
    Differ { left: usize, right: usize },
}

/// Instances, in order.
pub type Instances = Items<Instance>;

/// The axioms of a view: each update at its tuple, each update at each tuple, and each unequal pair. It takes time and
/// room for as many items as there are. The one error is a refused allocation.
#[tactic(auto, using(crate::proofs::Lists::pieces_more))]
pub fn instances(alloc: Global, view: &FunctionView) -> Result<Instances, AllocError>
    ensures { IfOk result (λ r. r ≡ instances_of view.now) }
{
    let mut made = Instances::new(alloc);
    push_points(&mut made, view.updates.len())?;
    for update in 0..view.updates.len() {
        push_elsewhere(&mut made, update, view.tuples.len())?;
    }
    push_pairs(&mut made, view.unequal.as_slice())?;
    Ok(made)
}

/// Adds each update at its tuple.
#[tactic(auto, using(crate::proofs::Lists::mapped_more))]
fn push_points(made: &mut Instances, updates: usize) -> Result<(), AllocError>
    ensures { OnOk result (made.new ≡ made.old ++ map (λ k. Instance.AtPoint k) (range_with_len 0 updates)) }
{
    for update in 0..updates {
        made.push(Instance::AtPoint { update })?;
    }
    Ok(())
}

/// Adds one update at each tuple.
#[tactic(auto, using(crate::proofs::Lists::mapped_more))]
fn push_elsewhere(made: &mut Instances, update: usize, tuples: usize) -> Result<(), AllocError>
    ensures { OnOk result (made.new ≡ made.old ++ at_each tuples update) }
{
    for tuple in 0..tuples {
        made.push(Instance::Elsewhere { update, tuple })?;
    }
    Ok(())
}

/// Adds each unequal pair.
fn push_pairs(made: &mut Instances, unequal: &[UnequalPair]) -> Result<(), AllocError>
    ensures { OnOk result (made.new ≡ made.old ++ map apart unequal.now) }
{
    for pair in unequal {
        made.push(Instance::Differ {
            left: pair.0,
            right: pair.1,
        })?;
    }
    Ok(())
}

/// No axiom of a view stands twice.
pub fn axioms_stand_once()
    ensures { EachOnce }
{}

/// What the axioms say together, update by update, tuple by tuple and pair by pair.
pub fn axioms_one_by_one()
    ensures { SayOneByOne }
{}

/// Functions under which each update has its meaning, and each unequal pair has different values at its tuple, make the
/// axioms so.
pub fn axioms_are_valid()
    ensures { AreValid }
{}

/// Functions that satisfy the axioms make the view so, where all of them have one value outside its tuples: each update
/// has its meaning everywhere, and each unequal pair has two functions. Any value of the result's type serves.
pub fn axioms_are_enough()
    ensures functions { AreEnough }
    ensures tables { TablesAreEnough }
    ensures have_values { TablesHaveValues }
    ensures alike { OneTableOneFunction }
{}

/// Applications that are congruent give functions with their values: each function's entries are the keys and the values
/// of its applications.
pub fn applications_give_functions()
    ensures points { HaveValues }
    ensures in_order { TabulateThemselves }
    ensures functions { FunctionsFit }
{}

#[cfg(test)]
mod tests;
