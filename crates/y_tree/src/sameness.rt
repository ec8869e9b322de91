//! Whether two functions are one.
ghost use Rattle.std.specs.Prelude.{◌≡◌, IsTrue};
ghost use Rattle.y_tree.specs.Sorts.{is_sort};
ghost use Rattle.y_tree.specs.Values.{equal, agree_at, has_key, count_keys, is_number, cover, same_function, same_value, has_sort, is_flat, are_flat, has_flat, is_flat_function};
ghost use Rattle.y_tree.specs.Order.{is_formed};
ghost use Rattle.y_tree.specs.Plain.{plain_sort, plain_sorts, plain_value, plain_entries, plain_function};
ghost use Rattle.y_tree.specs.declared.values.FunValue.{out-FunValue};

use crate::counting::count_tuples;
use crate::order::value_cmp;
use crate::sorts::{Sort, Sorts};
use crate::values::{Entry, FunValue, Value};

// Whether two values are one, the first of them no function.
#[tactic(auto, using(crate::proofs::Equality::equal_by_order))]
fn equal(a: &Value, b: &Value) -> bool
    requires { IsTrue (is_flat (plain_value a.now)) }
    ensures { result ≡ equal (plain_value a.now) (plain_value b.now) }
{
    value_cmp(a, b).is_eq()
}

// Whether both functions have one value at each key of the entries.
#[tactic(auto, using(crate::proofs::EntryLists::agree_found, crate::proofs::EntryLists::agree_passed, crate::proofs::EntryLists::agree_ended, crate::proofs::EntryLists::key_flat, crate::proofs::EntryLists::call_flat))]
fn agree_at(entries: &[Entry], f: &FunValue, g: &FunValue) -> bool
    requires flat { IsTrue (has_flat (plain_entries entries.now)) }
    requires f_formed { IsTrue (is_formed (plain_function f.now)) }
    requires f_flat { IsTrue (is_flat_function (plain_function f.now)) }
    requires g_formed { IsTrue (is_formed (plain_function g.now)) }
    ensures { result ≡ agree_at (plain_entries entries.now) (plain_function f.now) (plain_function g.now) }
{
    for i in 0..entries.len() {
        let key = entries[i].key.as_slice();
        if !equal(f.value_at(key), g.value_at(key)) {
            return false;
        }
    }
    true
}

// How many different keys both functions have.
#[tactic(auto, using(crate::proofs::EntryLists::keys_start, crate::proofs::EntryLists::keys_old, crate::proofs::EntryLists::keys_new, crate::proofs::EntryLists::keys_end, crate::proofs::EntryLists::key_flat))]
fn count_keys(f: &FunValue, g: &FunValue) -> u128
    requires f_formed { IsTrue (is_formed (plain_function f.now)) }
    requires g_formed { IsTrue (is_formed (plain_function g.now)) }
    requires g_flat { IsTrue (is_flat_function (plain_function g.now)) }
    ensures { result ≡ count_keys (plain_entries (out-FunValue f.now).entries.items) (plain_entries (out-FunValue g.now).entries.items) }
{
    let entries = g.entries();
    let mut count = f.entries().len() as u128;
    for i in 0..entries.len() {
        if !f.has_key(entries[i].key.as_slice()) {
            count += 1;
        }
    }
    count
}

/// Whether two functions from these argument types to one result are one: they agree at each key of either and, unless
/// the keys of both together are the whole finite domain, in the value elsewhere. No functions stand in them.
///
/// Cost: two binary searches for each entry.
#[tactic(auto, using(crate::proofs::EntryLists::function_flat, crate::proofs::EntryLists::covered))]
pub fn same_function(a: &FunValue, b: &FunValue, arguments: &Sorts) -> bool
    requires a_formed { IsTrue (is_formed (plain_function a.now)) }
    requires b_formed { IsTrue (is_formed (plain_function b.now)) }
    requires a_flat { IsTrue (is_flat_function (plain_function a.now)) }
    requires b_flat { IsTrue (is_flat_function (plain_function b.now)) }
    ensures { result ≡ same_function (plain_sorts arguments.now) (plain_function a.now) (plain_function b.now) }
{
    if !agree_at(a.entries(), a, b) {
        return false;
    }
    if !agree_at(b.entries(), a, b) {
        return false;
    }
    if equal(a.default_value(), b.default_value()) {
        return true;
    }
    let count = count_keys(a, b);
    match count_tuples(arguments.as_slice()) {
        Some(size) => count == size,
        None => false,
    }
}

/// Whether two values of a type are one: equal, or functions that are one.
///
/// Cost: as `value_cmp` or `same_function`.
#[tactic(auto, using(crate::proofs::EntryLists::plain_same), unfolding(crate::specs::Plain::plain_sort, crate::specs::Plain::plain_value))]
pub fn same_value(a: &Value, b: &Value, of: &Sort) -> bool
    requires limits { IsTrue (is_sort (plain_sort of.now)) }
    requires left { IsTrue (has_sort (plain_value a.now) (plain_sort of.now)) }
    requires right { IsTrue (has_sort (plain_value b.now) (plain_sort of.now)) }
    requires a_formed { IsTrue (is_formed (plain_value a.now)) }
    requires b_formed { IsTrue (is_formed (plain_value b.now)) }
    ensures { result ≡ same_value (plain_sort of.now) (plain_value a.now) (plain_value b.now) }
{
    match of {
        Sort::Fun(domain, _) => match (a, b) {
            (Value::Fun(f), Value::Fun(g)) => same_function(f, g, domain),
            _ => false,
        },
        _ => value_cmp(a, b).is_eq(),
    }
}
