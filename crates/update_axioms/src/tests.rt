//! Views with their instances, values that make each instance false that can be, and candidates with what they break.
ghost use Rattle.std.specs.Prelude.{◌≡◌, ◌<◌, true, ℕ, List, [], ◌∷◌, Some, None, length, slice_get, IsSome, IsTrue, IfOk};
ghost use Rattle.y_tree.specs.declared.values.Value as code;
ghost use Rattle.y_tree.specs.declared.values.FunValue.{FunValue};
ghost use Rattle.y_tree.specs.Sorts.{boolean};
ghost use Rattle.y_tree.specs.Sorts as sort;
ghost use Rattle.y_tree.specs.Values.{has_sort, is_flat, are_flat, is_flat_function};
ghost use Rattle.y_tree.specs.Order.{is_formed};
ghost use Rattle.y_tree.specs.Plain.{plain_sorts, plain_value, plain_values, plain_function};
ghost use Rattle.update_axioms.specs.Views.{Update, Pair};
ghost use Rattle.update_axioms.specs.Shown.{found, AreShown, Shows};

use super::*;
use std::process::Abort;
use std::test::Fail;
use y_tree::{FunValue, Sort, Sorts, Value, Values};

// A function over bit-vectors: its node, its keys with the values there, and its value elsewhere.
type Function<'a> = (usize, &'a [(u128, u128)], u128);

fn point(update: usize) -> Instance {
    Instance::AtPoint { update }
}

fn kept(update: usize, tuple: usize) -> Instance {
    Instance::Elsewhere { update, tuple }
}

fn apart(left: usize, right: usize) -> Instance {
    Instance::Differ { left, right }
}

fn nodes_of(alloc: Global, node: usize) -> Result<TupleNodes, AllocError>
    ensures { IfOk result (λ ns. ns ≡ node ∷ []) }
{
    let mut nodes = TupleNodes::new(alloc);
    nodes.push(node)?;
    Ok(nodes)
}

// A view with two tuples, of the nodes 5 and 6.
fn view_of(
    alloc: Global,
    updates: &[Update],
    unequal: &[UnequalPair],
) -> Result<FunctionView, AllocError> {
    let mut view = FunctionView {
        updates: Updates::new(alloc),
        unequal: UnequalPairs::new(alloc),
        tuples: Tuples::new(alloc),
    };
    for update in updates {
        view.updates.push(*update)?;
    }
    for pair in unequal {
        view.unequal.push(*pair)?;
    }
    for node in [5, 6] {
        view.tuples.push(nodes_of(alloc, node)?)?;
    }
    Ok(view)
}

#[tactic(auto, unfolding(y_tree::specs::Plain::plain_value))]
fn bits(width: u32, bits: u128) -> Value
    ensures { IsTrue (is_flat (plain_value result)) }
{
    Value::Bv { width, bits }
}

#[tactic(auto, unfolding(y_tree::specs::Values::are_flat))]
fn key_of(alloc: Global, width: u32, number: u128) -> Result<Values, AllocError>
    ensures { IfOk result (λ k. IsTrue (are_flat (plain_values k))) }
{
    let mut key = Values::new(alloc);
    key.push(bits(width, number))?;
    Ok(key)
}

fn function_of(
    alloc: Global,
    width: u32,
    entries: &[(u128, u128)],
    elsewhere: u128,
) -> Result<FunValue, AllocError>
    ensures formed { IfOk result (λ f. IsTrue (is_formed (plain_function f))) }
    ensures flat { IfOk result (λ f. IsTrue (is_flat_function (plain_function f))) }
{
    let mut f = FunValue::new(alloc, bits(width, elsewhere))?;
    for entry in entries {
        f.set(key_of(alloc, width, entry.0)?, bits(width, entry.1))?;
    }
    Ok(f)
}

fn functions_of(
    alloc: Global,
    width: u32,
    functions: &[Function],
) -> Result<FunctionsAt, AllocError>
    ensures formed { IfOk result (λ fs. (f : ℕ) (g : FunValue) → found fs f ≡ Some g → is_formed (plain_function g) ≡ true) }
    ensures flat { IfOk result (λ fs. (f : ℕ) (g : FunValue) → found fs f ≡ Some g → is_flat_function (plain_function g) ≡ true) }
{
    let mut made = FunctionsAt::new(alloc);
    for function in functions {
        let f = function_of(alloc, width, function.1, function.2)?;
        made.push((function.0, f))?;
    }
    Ok(made)
}

fn tuples_of(alloc: Global, width: u32, keys: &[u128]) -> Result<TuplesAt, AllocError>
    ensures { IfOk result (λ ts. (t : ℕ) (key : List code.Value) → slice_get ts t ≡ Some key → are_flat (plain_values key) ≡ true) }
{
    let mut tuples = TuplesAt::new(alloc);
    for key in keys {
        tuples.push(key_of(alloc, width, *key)?)?;
    }
    Ok(tuples)
}

// Functions by their entries, the values 1 and 2 of the nodes 7 and 8, and those of the tuples' nodes.
fn shown_of(
    alloc: Global,
    width: u32,
    keys: &[u128],
    functions: &[Function],
) -> Result<FunctionValues, AllocError>
    ensures { IfOk result AreShown }
{
    let mut values = ValuesAt::new(alloc);
    values.push((7, bits(width, 1)))?;
    values.push((8, bits(width, 2)))?;
    let mut arguments = Sorts::new(alloc);
    arguments.push(Sort::Bv(width))?;
    Ok(FunctionValues {
        functions: functions_of(alloc, width, functions)?,
        values,
        tuples: tuples_of(alloc, width, keys)?,
        arguments,
    })
}

fn has_node<T>(items: &[(usize, T)], node: usize) -> bool
    ensures { IsTrue result → IsSome (found items.now node) }
{
    for item in items {
        if item.0 == node {
            return true;
        }
    }
    false
}

// Whether each node that the view names is shown, and each tuple.
fn is_shown(view: &FunctionView, shown: &FunctionValues) -> bool
    requires { AreShown shown.now }
    ensures { IsTrue result → Shows view.now shown.now }
{
    if !updates_shown(view.updates.as_slice(), shown) {
        return false;
    }
    if !pairs_shown(view.unequal.as_slice(), shown.functions.as_slice()) {
        return false;
    }
    view.tuples.len() == shown.tuples.len()
}

fn updates_shown(updates: &[Update], shown: &FunctionValues) -> bool
    ensures { IsTrue result → (k : ℕ) (u : Update) → slice_get updates.now k ≡ Some u → IsSome (found shown.now.functions u.0) × IsSome (found shown.now.functions u.1) × (u.2 < length shown.now.tuples) × IsSome (found shown.now.values u.3) }
{
    for i in 0..updates.len() {
        if !has_node(shown.functions.as_slice(), updates[i].0) {
            return false;
        }
        if !has_node(shown.functions.as_slice(), updates[i].1) {
            return false;
        }
        if updates[i].2 >= shown.tuples.len() {
            return false;
        }
        if !has_node(shown.values.as_slice(), updates[i].3) {
            return false;
        }
    }
    true
}

fn pairs_shown(unequal: &[UnequalPair], functions: &[(usize, FunValue)]) -> bool
    ensures { IsTrue result → (k : ℕ) (p : Pair) → slice_get unequal.now k ≡ Some p → IsSome (found functions.now p.0) × IsSome (found functions.now p.1) }
{
    for i in 0..unequal.len() {
        if !has_node(functions, unequal[i].0) {
            return false;
        }
        if !has_node(functions, unequal[i].1) {
            return false;
        }
    }
    true
}

fn check_instances(
    rt: &impl Abort,
    alloc: Global,
    view: &FunctionView,
    expected: &[Instance],
) -> Result<(), Fail> {
    let made = instances(alloc, view)?;
    assert_eq!(rt; made.as_slice(), expected);
    Ok(())
}

fn check_first(
    rt: &impl Abort,
    alloc: Global,
    view: &FunctionView,
    shown: &FunctionValues,
    expected: Option<Instance>,
) -> Result<(), Fail>
    requires { AreShown shown.now }
{
    if !is_shown(view, shown) {
        assert!(rt; false);
        return Ok(());
    }
    assert_eq!(rt; first_false(alloc, view, shown)?, expected);
    Ok(())
}

// Two unequal pairs and no update: the functions are one where they agree at each key of either, and elsewhere too unless
// the keys of both together are all bit-vectors of the width.
#[test]
fn unequal_pairs(rt: HostRuntime) -> Result<(), Fail> {
    let alloc: Global = rt.alloc();
    let view = view_of(alloc, &[], &[(1, 2, Some(0)), (2, 3, Some(1))])?;
    check_instances(&rt, alloc, &view, &[apart(1, 2), apart(2, 3)])?;
    let rows: [(u32, &[Function], Option<Instance>); 5] = [
        (
            1,
            &[
                (1, &[(0, 0), (1, 1)], 0),
                (2, &[(0, 0), (1, 1)], 1),
                (3, &[(0, 1), (1, 1)], 0),
            ],
            Some(apart(1, 2)),
        ),
        (
            2,
            &[
                (1, &[(0, 0), (1, 1)], 0),
                (2, &[(0, 0), (1, 1)], 1),
                (3, &[(0, 1), (1, 1)], 0),
            ],
            None,
        ),
        (
            1,
            &[(1, &[(0, 1)], 0), (2, &[(1, 0)], 1), (3, &[], 0)],
            Some(apart(1, 2)),
        ),
        (
            1,
            &[(1, &[(0, 1)], 0), (2, &[(0, 1)], 1), (3, &[(0, 0)], 1)],
            None,
        ),
        (
            2,
            &[
                (1, &[(0, 0), (1, 1)], 0),
                (2, &[(0, 0)], 0),
                (3, &[(1, 0)], 0),
            ],
            Some(apart(2, 3)),
        ),
    ];
    for (width, functions, first) in rows {
        check_first(
            &rt,
            alloc,
            &view,
            &shown_of(alloc, width, &[0, 1], functions)?,
            first,
        )?;
    }
    Ok(())
}

// Node 2 is node 1 updated at the first tuple with node 7, node 3 is node 2 updated at the second with node 8, and 1 and
// 3 are unequal.
#[test]
fn updates_in_a_chain(rt: HostRuntime) -> Result<(), Fail> {
    let alloc: Global = rt.alloc();
    let view = view_of(alloc, &[(2, 1, 0, 7), (3, 2, 1, 8)], &[(1, 3, Some(1))])?;
    let expected = [
        point(0),
        point(1),
        kept(0, 0),
        kept(0, 1),
        kept(1, 0),
        kept(1, 1),
        apart(1, 3),
    ];
    check_instances(&rt, alloc, &view, &expected)?;
    let rows: [(u128, &[Function], Option<Instance>); 10] = [
        (
            1,
            &[(1, &[], 0), (2, &[(0, 1)], 0), (3, &[(0, 1), (1, 2)], 0)],
            None,
        ),
        (
            1,
            &[(1, &[], 0), (2, &[(0, 3)], 0), (3, &[(0, 3), (1, 2)], 0)],
            Some(point(0)),
        ),
        (
            1,
            &[(1, &[], 0), (2, &[(0, 1)], 0), (3, &[(0, 1), (1, 3)], 0)],
            Some(point(1)),
        ),
        (
            1,
            &[
                (1, &[], 0),
                (2, &[(0, 1), (1, 3)], 0),
                (3, &[(0, 1), (1, 2)], 0),
            ],
            Some(kept(0, 1)),
        ),
        (
            1,
            &[(1, &[], 0), (2, &[(0, 1)], 0), (3, &[(0, 2), (1, 2)], 0)],
            Some(kept(1, 0)),
        ),
        (
            1,
            &[(1, &[(0, 1)], 2), (2, &[(0, 1)], 2), (3, &[(0, 1)], 2)],
            Some(apart(1, 3)),
        ),
        (
            1,
            &[(1, &[], 0), (2, &[(0, 1), (1, 3)], 0), (3, &[(1, 1)], 0)],
            Some(point(1)),
        ),
        (
            0,
            &[(1, &[(0, 3)], 0), (2, &[(0, 1)], 0), (3, &[(0, 2)], 0)],
            None,
        ),
        (
            0,
            &[(1, &[(0, 3)], 0), (2, &[(0, 1)], 0), (3, &[(0, 1)], 0)],
            Some(point(1)),
        ),
        (
            0,
            &[(1, &[(0, 2)], 0), (2, &[(0, 1)], 0), (3, &[(0, 2)], 0)],
            Some(apart(1, 3)),
        ),
    ];
    for (second, functions, first) in rows {
        check_first(
            &rt,
            alloc,
            &view,
            &shown_of(alloc, 2, &[0, second], functions)?,
            first,
        )?;
    }
    Ok(())
}

// Truth values of nodes.
#[tactic(auto, unfolding(y_tree::specs::Plain::plain_value, y_tree::specs::Values::has_sort))]
fn truth(value: bool) -> Value
    ensures { has_sort (plain_value result) boolean ≡ true }
{
    Value::Bool(value)
}

fn truths_of(alloc: Global, truths: &[bool]) -> Result<Values, AllocError>
    ensures { IfOk result (λ vs. (n : ℕ) (w : code.Value) → slice_get vs n ≡ Some w → has_sort (plain_value w) boolean ≡ true) }
{
    let mut values = Values::new(alloc);
    for value in truths {
        values.push(truth(*value))?;
    }
    Ok(values)
}

// Node 1 is node 0 updated at the first tuple with node 4, and both are unequal.
fn updated_view(alloc: Global) -> Result<FunctionView, AllocError>
    ensures updates { IfOk result (λ v. v.updates ≡ (1, 0, 0, 4) ∷ []) }
    ensures unequal { IfOk result (λ v. v.unequal ≡ (0, 1, None) ∷ []) }
    ensures tuples { IfOk result (λ v. v.tuples ≡ (5 ∷ []) ∷ (6 ∷ []) ∷ []) }
{
    let mut updates = Updates::new(alloc);
    updates.push((1, 0, 0, 4))?;
    let mut unequal = UnequalPairs::new(alloc);
    unequal.push((0, 1, None))?;
    let mut tuples = Tuples::new(alloc);
    tuples.push(nodes_of(alloc, 5)?)?;
    tuples.push(nodes_of(alloc, 6)?)?;
    Ok(FunctionView {
        updates,
        unequal,
        tuples,
    })
}

// Nodes 2 and 3 are node 1 applied to the tuples, and node 7 is node 0 applied to the second.
#[tactic(auto, unfolding(y_tree::specs::Plain::plain_sort))]
fn candidate_of(alloc: Global, truths: &[bool]) -> Result<Candidate, AllocError>
    ensures functions { IfOk result (λ c. c.functions ≡ 0 ∷ 1 ∷ []) }
    ensures applications { IfOk result (λ c. c.applications ≡ (1, 0, 2) ∷ (1, 1, 3) ∷ (0, 1, 7) ∷ []) }
    ensures values { IfOk result (λ c. (n : ℕ) (w : code.Value) → slice_get c.values n ≡ Some w → has_sort (plain_value w) boolean ≡ true) }
    ensures arguments { IfOk result (λ c. plain_sorts c.arguments ≡ sort.more boolean sort.none) }
    ensures elsewhere { IfOk result (λ c. has_sort (plain_value c.default_value) boolean ≡ true) }
{
    let mut functions = FunctionNodes::new(alloc);
    functions.push(0)?;
    functions.push(1)?;
    let mut applications = Applications::new(alloc);
    applications.push((1, 0, 2))?;
    applications.push((1, 1, 3))?;
    applications.push((0, 1, 7))?;
    let mut arguments = Sorts::new(alloc);
    arguments.push(Sort::Bool)?;
    Ok(Candidate {
        functions,
        applications,
        values: truths_of(alloc, truths)?,
        default_value: truth(false),
        arguments,
    })
}

fn check_judged(
    rt: &impl Abort,
    alloc: Global,
    truths: &[bool],
    expected: Option<Demand>,
) -> Result<(), Fail> {
    let view = updated_view(alloc)?;
    let candidate = candidate_of(alloc, truths)?;
    if candidate.values.len() != 8 {
        assert!(rt; false);
        return Ok(());
    }
    let broken = match first_broken(alloc, &view, candidate)? {
        Judged::Broken(demand) => Some(demand),
        Judged::Functions(_) => None,
    };
    assert_eq!(rt; broken, expected);
    Ok(())
}

// The nodes 0 and 1 are functions, and have no truth value of their own.
#[test]
fn candidates(rt: HostRuntime) -> Result<(), Fail> {
    let alloc: Global = rt.alloc();
    let (f, t) = (false, true);
    let clash = Demand::Congruent {
        function: 1,
        left: 0,
        right: 1,
    };
    let rows = [
        ([f, f, t, f, t, f, t, f], None),
        ([f, f, t, t, t, f, f, f], None),
        ([f, f, t, f, t, f, f, f], Some(clash)),
        ([f, f, f, f, t, f, t, f], Some(Demand::Axiom(point(0)))),
        ([f, f, t, t, t, f, t, f], Some(Demand::Axiom(kept(0, 1)))),
        ([f, f, f, f, f, f, t, f], Some(Demand::Axiom(apart(0, 1)))),
    ];
    for (truths, expected) in rows {
        check_judged(&rt, alloc, &truths, expected)?;
    }
    Ok(())
}
