//! The first instance that is false of given functions. The keys of a function rise, so its value at a tuple is found by
//! binary search. Functions that have one value elsewhere and entries at the tuples alone can differ from what an update
//! means at these tuples alone, and there the instances say that they don't.
ghost use Rattle.std.specs.Prelude.{◌≡◌, ◌<◌, ◌||◌, map, length, IsSome, IsTrue, Some, None, IfOk};
ghost use Rattle.std.specs.List.{range_with_len, flat_map};
ghost use Rattle.y_tree.specs.Plain.{plain_values, plain_function};
ghost use Rattle.y_tree.specs.Values.{call, equal, equal_all, are_flat};
ghost use Rattle.y_tree.specs.Order.{is_formed};
ghost use Rattle.update_axioms.specs.Views.{instances_of, at_each, apart};
ghost use Rattle.update_axioms.specs.Shown.{found, is_so_of, first_failing, Shows, AreAsSaid};

use crate::looking::{are_equal, is_equal};
use crate::{FunctionView, Instance};
use sqlite_items::Items;
use std::alloc::{AllocError, Global};
use y_tree::{FunValue, Sorts, Value, Values, same_function};

/// Function nodes with their functions.
pub type FunctionsAt = Items<(usize, FunValue)>;

/// Value nodes with their values.
pub type ValuesAt = Items<(usize, Value)>;

/// The values of tuples, in order.
pub type TuplesAt = Items<Values>;

/// Functions and values for the nodes of a view, and the types of the functions' arguments.
#[derive(Drop)]
pub struct FunctionValues {
    /// The functions; of items with one node the first counts.
    pub functions: FunctionsAt,
    /// The values of the updates' value nodes; of items with one node the first counts.
    pub values: ValuesAt,
    /// The values of each tuple of the view, in its order.
    pub tuples: TuplesAt,
    /// The types of the arguments.
    pub arguments: Sorts,
}

/// The first axiom of the view, in the order of `instances`, that is false under these values, where a pair's axiom says
/// that its two functions are not one. Each update is looked up at each tuple. The one error is a refused allocation.
pub fn first_false(
    alloc: Global,
    view: &FunctionView,
    shown: &FunctionValues,
) -> Result<Option<Instance>, AllocError>
    requires { Shows view.now shown.now }
    ensures first { IfOk result (λ r. r ≡ first_failing (is_so_of view.now shown.now) (instances_of view.now)) }
    ensures enough { IfOk result (λ r. r ≡ None → AreAsSaid view.now shown.now) }
{
    let _ = alloc;
    Ok(false_axiom(view, shown))
}

/// The first false axiom.
#[tactic(auto, using(crate::proofs::Finding::failing_append, crate::proofs::Finding::failing_early))]
fn false_axiom(view: &FunctionView, shown: &FunctionValues) -> Option<Instance>
    requires { Shows view.now shown.now }
    ensures { result ≡ first_failing (is_so_of view.now shown.now) (instances_of view.now) }
{
    if let Some(point) = false_point(view, shown) {
        return Some(point);
    }
    if let Some(elsewhere) = false_elsewhere(view, shown) {
        return Some(elsewhere);
    }
    false_pair(view, shown)
}

/// The first update that hasn't its value at its tuple.
#[tactic(auto, using(crate::proofs::Finding::failing_at, crate::proofs::Finding::failing_nowhere))]
fn false_point(view: &FunctionView, shown: &FunctionValues) -> Option<Instance>
    requires { Shows view.now shown.now }
    ensures { result ≡ first_failing (is_so_of view.now shown.now) (map (λ k. Instance.AtPoint k) (range_with_len 0 (length view.now.updates))) }
{
    for update in 0..view.updates.len() {
        if !has_value(view, shown, update) {
            return Some(Instance::AtPoint { update });
        }
    }
    None
}

/// Whether an update has its value at its tuple.
fn has_value(view: &FunctionView, shown: &FunctionValues, update: usize) -> bool
    requires shown { Shows view.now shown.now }
    requires within { update < length view.now.updates }
    ensures { result ≡ is_so_of view.now shown.now (Instance.AtPoint update) }
{
    let u = &view.updates.as_slice()[update];
    let made = item_of(shown.functions.as_slice(), u.0);
    let value = item_of(shown.values.as_slice(), u.3);
    let key = &shown.tuples.as_slice()[u.2];
    is_equal(made.value_at(key.as_slice()), value)
}

/// The first update with the first tuple at which it hasn't the function's value.
#[tactic(auto, using(crate::proofs::Finding::failing_piece, crate::proofs::Finding::failing_none))]
fn false_elsewhere(view: &FunctionView, shown: &FunctionValues) -> Option<Instance>
    requires { Shows view.now shown.now }
    ensures { result ≡ first_failing (is_so_of view.now shown.now) (flat_map (at_each (length view.now.tuples)) (range_with_len 0 (length view.now.updates))) }
{
    for update in 0..view.updates.len() {
        if let Some(elsewhere) = false_in_row(view, shown, update) {
            return Some(elsewhere);
        }
    }
    None
}

/// The first tuple at which an update hasn't the function's value.
#[tactic(auto, using(crate::proofs::Finding::failing_at, crate::proofs::Finding::failing_nowhere))]
fn false_in_row(view: &FunctionView, shown: &FunctionValues, update: usize) -> Option<Instance>
    requires shown { Shows view.now shown.now }
    requires within { update < length view.now.updates }
    ensures { result ≡ first_failing (is_so_of view.now shown.now) (at_each (length view.now.tuples) update) }
{
    let u = &view.updates.as_slice()[update];
    let made = item_of(shown.functions.as_slice(), u.0);
    let function = item_of(shown.functions.as_slice(), u.1);
    let key = &shown.tuples.as_slice()[u.2];
    for tuple in 0..shown.tuples.len() {
        let other = shown.tuples.as_slice()[tuple].as_slice();
        if !is_kept(made, function, key.as_slice(), other) {
            return Some(Instance::Elsewhere { update, tuple });
        }
    }
    None
}

/// Whether a key is the one that is updated, or both functions have one value there.
fn is_kept(made: &FunValue, function: &FunValue, updated: &[Value], key: &[Value]) -> bool
    requires made { IsTrue (is_formed (plain_function made.now)) }
    requires function { IsTrue (is_formed (plain_function function.now)) }
    requires flat { IsTrue (are_flat (plain_values key.now)) }
    ensures { result ≡ (equal_all (plain_values key.now) (plain_values updated.now) || equal (call (plain_function made.now) (plain_values key.now)) (call (plain_function function.now) (plain_values key.now))) }
{
    are_equal(key, updated) || is_equal(made.value_at(key), function.value_at(key))
}

/// The first pair whose functions are one.
fn false_pair(view: &FunctionView, shown: &FunctionValues) -> Option<Instance>
    requires { Shows view.now shown.now }
    ensures { result ≡ first_failing (is_so_of view.now shown.now) (map apart view.now.unequal) }
{
    for pair in view.unequal.as_slice() {
        let left = item_of(shown.functions.as_slice(), pair.0);
        let right = item_of(shown.functions.as_slice(), pair.1);
        if same_function(left, right, &shown.arguments) {
            return Some(Instance::Differ {
                left: pair.0,
                right: pair.1,
            });
        }
    }
    None
}

/// What the first item with a number has, by a look at the items one by one.
#[tactic(auto, using(crate::proofs::Finding::found_here, crate::proofs::Finding::found_later, crate::proofs::Finding::found_end))]
fn item_of<T>(items: &[(usize, T)], node: usize) -> &T
    requires { IsSome (found items.now node) }
    ensures { found items.now node ≡ Some result.now }
{
    for item in items {
        if item.0 == node {
            return &item.1;
        }
    }
    unreachable!()
}
