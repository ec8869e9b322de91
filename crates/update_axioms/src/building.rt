//! Functions made of the applications of a candidate.
ghost use Rattle.std.specs.Prelude.{◌≡◌, ◌<◌, ℕ, length, slice_get, map, Some, IfOk};
ghost use Rattle.y_tree.specs.Sorts.{Sort};
ghost use Rattle.update_axioms.specs.Candidates.{CanBeJudged};
ghost use Rattle.update_axioms.specs.Building.{AreTupleValues, AreUpdateValues, IsOne, IsAll};
ghost use Rattle.y_tree.specs.Plain.{plain_value};
ghost use Rattle.update_axioms.specs.Shown.{value_or_none};

use crate::FunctionView;
use crate::candidate::Candidate;
use crate::grouping::group_of;
use crate::shown::{FunctionsAt, TuplesAt, ValuesAt};
use crate::tabling::{Tabled, tabulate};
use std::alloc::{AllocError, Global};
use y_tree::{FunValue, Value, Values, copy_value};

/// What came of one function.
#[derive(Drop)]
pub enum One {
    /// The function that its applications make.
    Function(FunValue),
    /// Its applications at these tuples, which are one, have different values.
    Clash(usize, usize),
}

/// What came of all functions.
#[derive(Drop)]
pub enum All {
    /// The functions, by their nodes.
    Functions(FunctionsAt),
    /// A function node, and two tuples that are one at which it has different values.
    Clashes(usize, usize, usize),
}

/// The functions that the applications of a candidate make. All applications are looked at once for each function, and
/// those of each function are sorted by their keys. The one error is a refused allocation.
pub fn all_functions(
    alloc: Global,
    view: &FunctionView,
    candidate: &Candidate,
    tuples: &[Values],
) -> Result<All, AllocError>
    requires judged { (result : Sort) × CanBeJudged view.now candidate.now result }
    requires tuples { AreTupleValues view.now candidate.now tuples.now }
    ensures { IfOk result (IsAll candidate.now tuples.now) }
{
    let mut functions = FunctionsAt::new(alloc);
    for function in candidate.functions.as_slice() {
        match one_function(alloc, view, candidate, tuples, *function)? {
            One::Function(made) => functions.push((*function, made))?,
            One::Clash(left, right) => return Ok(All::Clashes(*function, left, right)),
        }
    }
    Ok(All::Functions(functions))
}

/// The function that the applications of one node make.
fn one_function(
    alloc: Global,
    view: &FunctionView,
    candidate: &Candidate,
    tuples: &[Values],
    function: usize,
) -> Result<One, AllocError>
    requires judged { (result : Sort) × CanBeJudged view.now candidate.now result }
    requires tuples { AreTupleValues view.now candidate.now tuples.now }
    ensures { IfOk result (IsOne candidate.now tuples.now function) }
{
    let made = group_of(alloc, candidate.applications.as_slice(), function, tuples)?;
    let group = made.as_slice();
    match tabulate(alloc, group, tuples, candidate.values.as_slice())? {
        Tabled::Entries(entries) => {
            let default_value = copy_value(alloc, &candidate.default_value)?;
            let made = FunValue::from_entries(alloc, entries, default_value)?;
            Ok(One::Function(made))
        }
        Tabled::Clash(place) => Ok(One::Clash(group[place - 1].1, group[place].1)),
    }
}

/// The values of the nodes of each tuple. The one error is a refused allocation.
pub fn tuple_values(
    alloc: Global,
    view: &FunctionView,
    candidate: &Candidate,
) -> Result<TuplesAt, AllocError>
    requires { (result : Sort) × CanBeJudged view.now candidate.now result }
    ensures { IfOk result (AreTupleValues view.now candidate.now) }
{
    let values = candidate.values.as_slice();
    let mut tuples = TuplesAt::new(alloc);
    for nodes in view.tuples.as_slice() {
        tuples.push(node_values(alloc, nodes.as_slice(), values)?)?;
    }
    Ok(tuples)
}

/// The values of nodes.
fn node_values(alloc: Global, nodes: &[usize], all: &[Value]) -> Result<Values, AllocError>
    requires there { (i n : ℕ) → slice_get nodes.now i ≡ Some n → n < length all.now }
    ensures { IfOk result (λ r. map plain_value r ≡ map (λ n. value_or_none (slice_get all.now n)) nodes.now) }
{
    let mut copies = Values::new(alloc);
    for node in nodes {
        copies.push(copy_value(alloc, &all[*node])?)?;
    }
    Ok(copies)
}

/// The value of each node that an update has at its tuple. The one error is a refused allocation.
pub fn update_values(
    alloc: Global,
    view: &FunctionView,
    candidate: &Candidate,
) -> Result<ValuesAt, AllocError>
    requires { (result : Sort) × CanBeJudged view.now candidate.now result }
    ensures { IfOk result (AreUpdateValues view.now candidate.now) }
{
    let values = candidate.values.as_slice();
    let mut shown = ValuesAt::new(alloc);
    for update in view.updates.as_slice() {
        shown.push((update.3, copy_value(alloc, &values[update.3])?))?;
    }
    Ok(shown)
}
