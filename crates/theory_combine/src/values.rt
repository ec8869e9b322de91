//! The values of nodes where the constants have given values.

ghost use Rattle.std.specs.Prelude.{◌≡◌, ◌<◌, Some, All, length, map, IfOk};
ghost use Rattle.std.specs.List.{list_all, list_any};
ghost use Rattle.y_tree.specs.Sorts.{boolean};
ghost use Rattle.y_tree.specs.Values.{truth};
ghost use Rattle.y_tree.specs.Meaning.{truth_of, apply, value_in, is_odd, are_distinct};
ghost use Rattle.node_encoding.specs.Nodes.{op_of, arguments_of, number_of, number_at, constants_in, booleans};
ghost use Rattle.theory_combine.specs.Values.{values_at, AreValues, IsTable};

use crate::{Node, NodeValues, Problem};
use indexmap::IndexMap;
use std::alloc::{AllocError, Global};
use std::marker::Model;
use y_erased::{Erased, Makes, made};

// The truth values of the constants that stand at nodes.
struct ConstantsIn;

impl Makes for ConstantsIn {
    type From = Problem;

    type With = NodeValues;

    type Of = NodeValues;

    ghost make = { constants_in };
}

/// Truth values of constants, by the constants' numbers. The first value of a number counts.
#[derive(Drop)]
pub struct ConstValues {
    // The value that counts, for each number.
    table: IndexMap<u64, bool>,
    // All values.
    given: Erased<NodeValues>,
}

impl Model for ConstValues {
    ghost use Rattle.std.specs.Prelude.{ℕ, Bool, List};
    ghost use Rattle.theory_combine.specs.Values.{IsTable};

    ghost Value = { List (ℕ × Bool) };

    ghost view = { λ v. v.given.value };

    ghost invariant = { λ v. IsTable v.table.entries v.given.value };
}

impl ConstValues {
    /// The value of the Boolean constant with that number, and false where it has none. Expected
    /// O(1).
    pub fn value(&self, number: u64) -> bool
        ensures { truth result ≡ value_in (booleans self.now).constants number boolean }
    {
        match self.table.get(&number) {
            Some(value) => *value,
            None => false,
        }
    }
}

/// The values of the constants that stand at nodes, by the constants' numbers. Expected O(n) for n
/// values.
pub fn constant_values(
    alloc: Global,
    problem: &Problem,
    values: &NodeValues,
) -> Result<ConstValues, AllocError>
    ensures { IfOk result (λ s. s ≡ constants_in problem.now values.now) }
{
    let table = table_of(alloc, problem, values)?;
    Ok(ConstValues {
        table,
        given: made::<ConstantsIn>(problem, values),
    })
}

// The value that counts for each constant: the first comes last, and takes the place of the others.
fn table_of(
    alloc: Global,
    problem: &Problem,
    values: &NodeValues,
) -> Result<IndexMap<u64, bool>, AllocError>
    ensures { IfOk result (λ t. IsTable t.entries (constants_in problem.now values.now)) }
{
    let items = values.as_slice();
    let mut table: IndexMap<u64, bool> = IndexMap::new(alloc);
    for i in (0..items.len()).rev() {
        let (k, value) = items[i];
        if let Some(number) = constant_at(problem, k) {
            table.insert(number, value)?;
        }
    }
    Ok(table)
}

// The number of the constant at a node, if one stands there.
fn constant_at(problem: &Problem, k: usize) -> Option<u64>
    ensures { result ≡ number_at problem.now k }
{
    match problem.node(k) {
        Some(node) => constant_of(node),
        None => None,
    }
}

// The number of a constant.
fn constant_of(node: &Node) -> Option<u64>
    ensures { result ≡ number_of (Some node.now) }
{
    match node {
        Node::Const { number } => Some(*number),
        _ => None,
    }
}

/// The value of each node where the constants have the given values, in one pass over the nodes.
/// Expected O(n + a) for n nodes with a arguments in all.
pub fn values_under(
    alloc: Global,
    problem: &Problem,
    given: &ConstValues,
) -> Result<Vec<bool>, AllocError>
    ensures each { IfOk result (λ v. length v.items ≡ length problem.now) }
    ensures right { IfOk result (λ v. AreValues problem.now (booleans given.now) v.items) }
{
    let nodes = problem.as_slice();
    let mut values: Vec<bool> = Vec::new(alloc);
    for k in 0..nodes.len() {
        let value = value_over(&nodes[k], values.as_slice(), given);
        values.push(value)?;
    }
    Ok(values)
}

// The value of a node over the values of earlier ones.
fn value_over(node: &Node, values: &[bool], given: &ConstValues) -> bool
    requires { All (λ a. a < length values.now) (arguments_of node.now) }
    ensures { truth result ≡ apply (op_of node.now) boolean (values_at values.now (arguments_of node.now)) (booleans given.now) }
{
    match node {
        Node::True => true,
        Node::False => false,
        Node::Const { number } => given.value(*number),
        Node::Not(argument) => !values[*argument],
        Node::And(arguments) => all_true(values, arguments.as_slice()),
        Node::Or(arguments) => some_true(values, arguments.as_slice()),
        Node::Xor(arguments) => odd_true(values, arguments.as_slice()),
        Node::Ite(test, yes, no) => {
            if values[*test] {
                values[*yes]
            } else {
                values[*no]
            }
        }
        Node::Eq(left, right) => values[*left] == values[*right],
        Node::Distinct(arguments) => all_differ(values, arguments.as_slice()),
    }
}

// Whether all values at the places are true.
fn all_true(values: &[bool], places: &[usize]) -> bool
    requires { All (λ a. a < length values.now) places.now }
    ensures { result ≡ list_all truth_of (values_at values.now places.now) }
{
    for place in places {
        if !values[*place] {
            return false;
        }
    }
    true
}

// Whether some value at the places is true.
fn some_true(values: &[bool], places: &[usize]) -> bool
    requires { All (λ a. a < length values.now) places.now }
    ensures { result ≡ list_any truth_of (values_at values.now places.now) }
{
    for place in places {
        if values[*place] {
            return true;
        }
    }
    false
}

// Whether an odd number of the values at the places is true.
fn odd_true(values: &[bool], places: &[usize]) -> bool
    requires { All (λ a. a < length values.now) places.now }
    ensures { result ≡ is_odd (map truth_of (values_at values.now places.now)) }
{
    let mut odd = false;
    for place in places {
        if values[*place] {
            odd = !odd;
        }
    }
    odd
}

// Whether no two values at the places are one: of three truth values two are.
fn all_differ(values: &[bool], places: &[usize]) -> bool
    requires { All (λ a. a < length values.now) places.now }
    ensures { result ≡ are_distinct boolean (values_at values.now places.now) }
{
    match places {
        [] => true,
        [_] => true,
        [left, right] => values[*left] != values[*right],
        _ => false,
    }
}
