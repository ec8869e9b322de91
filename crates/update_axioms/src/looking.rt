//! Values and keys that are one.
ghost use Rattle.std.specs.Prelude.{◌≡◌};
ghost use Rattle.y_tree.specs.Plain.{plain_value, plain_values};
ghost use Rattle.y_tree.specs.Values.{equal, equal_all};

use y_tree::Value;

/// Whether two values are one, neither of them a function, in constant time.
#[tactic(auto, unfolding(y_tree::specs::Plain::plain_value))]
pub fn is_equal(a: &Value, b: &Value) -> bool
    ensures { result ≡ equal (plain_value a.now) (plain_value b.now) }
{
    match (a, b) {
        (Value::Bool(x), Value::Bool(y)) => *x == *y,
        (Value::Real(x), Value::Real(y)) => *x == *y,
        (Value::Bv { width: m, bits: x }, Value::Bv { width: n, bits: y }) => *m == *n && *x == *y,
        (Value::Elem { kind: k, number: x }, Value::Elem { kind: l, number: y }) => *k == *l
            && *x == *y,
        _ => false,
    }
}

/// Whether two keys are one, in time linear in the shorter one.
#[tactic(auto, using(crate::proofs::Keys::unequal_lengths, crate::proofs::Keys::keys_step, crate::proofs::Keys::keys_end))]
pub fn are_equal(xs: &[Value], ys: &[Value]) -> bool
    ensures { result ≡ equal_all (plain_values xs.now) (plain_values ys.now) }
{
    if xs.len() != ys.len() {
        return false;
    }
    for i in 0..xs.len() {
        if !is_equal(&xs[i], &ys[i]) {
            return false;
        }
    }
    true
}
