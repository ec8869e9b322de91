//! The order of values.
ghost use Rattle.std.specs.Prelude.{◌≡◌};
ghost use Rattle.std.specs.Ordering.{ordering_then};
ghost use Rattle.y_tree.specs.Order.{kind_of, order, order_keys, order_entries};
ghost use Rattle.y_tree.specs.Plain.{plain_value, plain_values, plain_entry, plain_entries};

use crate::values::{Entry, Value};
use fraction128::Frac;
use std::cmp::Ordering;

// The place of the value's variant among the variants.
#[tactic(auto, unfolding(crate::specs::Plain::plain_value))]
fn kind(value: &Value) -> u8
    ensures { result ≡ kind_of (plain_value value.now) }
{
    match value {
        Value::Bool(_) => 0,
        Value::Real(_) => 1,
        Value::Bv { .. } => 2,
        Value::Elem { .. } => 3,
        Value::Fun(_) => 4,
    }
}

/// The order of values: by variant as listed, then `false` before `true`, fractions by value, bit-vectors by width and
/// bits, elements by kind and number, functions by entries and value elsewhere.
///
/// It is total, and equal by it is equal. Cost: at most one look at each part of the two.
#[cycle(compare)]
#[tactic(auto, unfolding(crate::specs::Plain::plain_value, crate::specs::Order::order))]
pub fn value_cmp(a: &Value, b: &Value) -> Ordering
    ensures { result ≡ order (plain_value a.now) (plain_value b.now) }
{
    match (a, b) {
        (Value::Bool(p), Value::Bool(q)) => p.cmp(q),
        (Value::Real(p), Value::Real(q)) => Frac::cmp(*p, *q),
        (Value::Bv { width: m, bits: x }, Value::Bv { width: n, bits: y }) => {
            m.cmp(n).then(x.cmp(y))
        }
        (Value::Elem { kind: m, number: x }, Value::Elem { kind: n, number: y }) => {
            m.cmp(n).then(x.cmp(y))
        }
        (Value::Fun(f), Value::Fun(g)) => {
            let by_entries = cmp_entries(f.entries(), g.entries());
            if by_entries.is_ne() {
                return by_entries;
            }
            value_cmp(f.default_value(), g.default_value())
        }
        _ => kind(a).cmp(&kind(b)),
    }
}

/// The order of keys: place by place, the front of a key before the key.
#[cycle(compare)]
#[tactic(auto, using(crate::proofs::OrderLists::values_found, crate::proofs::OrderLists::values_passed, crate::proofs::OrderLists::values_ended), unfolding(crate::specs::Plain::plain_value, crate::specs::Order::order))]
pub fn cmp_keys(xs: &[Value], ys: &[Value]) -> Ordering
    ensures { result ≡ order_keys (plain_values xs.now) (plain_values ys.now) }
{
    let both = xs.len().min(ys.len());
    for i in 0..both {
        let here = value_cmp(&xs[i], &ys[i]);
        if here.is_ne() {
            return here;
        }
    }
    xs.len().cmp(&ys.len())
}

#[cycle(compare)]
#[tactic(auto, using(crate::proofs::OrderLists::entries_found, crate::proofs::OrderLists::entries_passed, crate::proofs::OrderLists::entries_ended), unfolding(crate::specs::Plain::plain_value, crate::specs::Order::order))]
fn cmp_entries(xs: &[Entry], ys: &[Entry]) -> Ordering
    ensures { result ≡ order_entries (plain_entries xs.now) (plain_entries ys.now) }
{
    let both = xs.len().min(ys.len());
    for i in 0..both {
        let here = cmp_entry(&xs[i], &ys[i]);
        if here.is_ne() {
            return here;
        }
    }
    xs.len().cmp(&ys.len())
}

#[cycle(compare)]
#[tactic(auto, unfolding(crate::specs::Plain::plain_value))]
fn cmp_entry(x: &Entry, y: &Entry) -> Ordering
    ensures { result ≡ ordering_then (order_keys (plain_entry x.now).0 (plain_entry y.now).0)
        (order (plain_entry x.now).1 (plain_entry y.now).1) }
{
    let by_key = cmp_keys(x.key.as_slice(), y.key.as_slice());
    if by_key.is_ne() {
        return by_key;
    }
    value_cmp(&x.value, &y.value)
}
