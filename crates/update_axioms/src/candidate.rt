//! A candidate model of the nodes, and the first thing that it breaks. Functions are made of the applications that are made:
//! two of one function with one key and two values break congruence, and else the functions are looked at by `first_false`.
//! An instance that the candidate meets at nodes that are made is so of these functions, so what is broken is none of what
//! was met, and as there are finitely many demands a caller that makes each answer's nodes is done at last.
ghost use Rattle.std.specs.Prelude.{◌≡◌, IfOk};
ghost use Rattle.y_tree.specs.Sorts.{Sort};
ghost use Rattle.update_axioms.specs.Candidates.{CanBeJudged, Judges, IsJudged, MetIsSo, BrokenIsNew, DemandedIsWithin, FewDemands};
ghost use Rattle.update_axioms.specs.Shown.{Shows};

use crate::building::{All, all_functions, tuple_values, update_values};
use crate::shown::{FunctionValues, FunctionsAt, first_false};
use crate::{FunctionView, Instance};
use sqlite_items::Items;
use std::alloc::{AllocError, Global};
use y_tree::{Sorts, Value, Values};

/// An application that is made: a function node, the number of a tuple, and its own node.
pub type Made = (usize, usize, usize);

/// Applications that are made.
pub type Applications = Items<Made>;

/// Function nodes.
pub type FunctionNodes = Items<usize>;

/// Values for the nodes of a problem, as far as functions of one type depend on them.
#[derive(Drop)]
pub struct Candidate {
    /// The function nodes.
    pub functions: FunctionNodes,
    /// The applications of them that are made.
    pub applications: Applications,
    /// The value of each node, by its number; that of a function node isn't looked at.
    pub values: Values,
    /// The value of each function at tuples to which it isn't applied.
    pub default_value: Value,
    /// The types of the arguments.
    pub arguments: Sorts,
}

/// What a candidate has to keep.
#[derive(Clone, Copy, Debug, PartialEq, Eq)]
pub enum Demand {
    /// Where the two tuples are equal, the function has one value at both.
    Congruent {
        function: usize,
        left: usize,
        right: usize,
    },
    /// An axiom of the view.
    Axiom(Instance),
}

/// What came of a candidate.
#[derive(Drop)]
pub enum Judged {
    /// A demand that the candidate breaks.
    Broken(Demand),
    /// The functions that its applications make, which are as the view says.
    Functions(FunctionsAt),
}

/// The first thing that a candidate breaks, or the functions that its applications make: a demand is broken where the
/// candidate doesn't meet it at nodes that are made. Each function's applications are sorted by their keys, and each
/// update is looked up at each tuple. The one error is a refused allocation.
pub fn first_broken(
    alloc: Global,
    view: &FunctionView,
    candidate: Candidate,
) -> Result<Judged, AllocError>
    requires { (result : Sort) × CanBeJudged view.now candidate result }
    ensures { IfOk result (Judges view.now candidate) }
{
    let tuples = tuple_values(alloc, view, &candidate)?;
    let values = update_values(alloc, view, &candidate)?;
    match all_functions(alloc, view, &candidate, tuples.as_slice())? {
        All::Functions(functions) => judge(
            alloc,
            view,
            FunctionValues {
                functions,
                values,
                tuples,
                arguments: into_arguments(candidate),
            },
        ),
        All::Clashes(function, left, right) => Ok(Judged::Broken(Demand::Congruent {
            function,
            left,
            right,
        })),
    }
}

/// The types of the arguments, and nothing else of a candidate.
fn into_arguments(candidate: Candidate) -> Sorts
    ensures { result ≡ candidate.arguments }
{
    let Candidate { arguments, .. } = candidate;
    arguments
}

/// The first axiom that is false of functions, or the functions.
fn judge(alloc: Global, view: &FunctionView, shown: FunctionValues) -> Result<Judged, AllocError>
    requires { Shows view.now shown }
    ensures { IfOk result (IsJudged view.now shown) }
{
    match first_false(alloc, view, &shown)? {
        Some(axiom) => Ok(Judged::Broken(Demand::Axiom(axiom))),
        None => {
            let FunctionValues { functions, .. } = shown;
            Ok(Judged::Functions(functions))
        }
    }
}

/// A demand that is broken is none of those that are met. So a caller that makes the nodes of each answer, and has
/// candidates meet it from then on, is never answered a demand twice; and there are no more demands than these.
pub fn demands_end()
    ensures met { MetIsSo }
    ensures new { BrokenIsNew }
    ensures within { DemandedIsWithin }
    ensures few { FewDemands }
{}
