//! Functions that are one.
ghost use Rattle.std.specs.Prelude.{◌≡◌, IsTrue, IfOk, [], ◌∷◌};
ghost use Rattle.y_tree.specs.Values.{is_flat_function};
ghost use Rattle.y_tree.specs.Order.{is_formed};
ghost use Rattle.y_tree.specs.Plain.{plain_function};

use super::*;
use std::alloc::{AllocError, Global};
use std::test::Fail;

fn key(alloc: Global, value: Value) -> Result<Values, AllocError>
    ensures { IfOk result (λ k. k ≡ value ∷ []) }
{
    let mut key = Values::new(alloc);
    key.push(value)?;
    Ok(key)
}

// The function with that value at each truth value but one.
#[tactic(auto, unfolding(crate::specs::Plain::plain_value, crate::specs::Values::are_flat))]
fn all_but_one(
    alloc: Global,
    elsewhere: bool,
    key_truth: bool,
    there: bool,
) -> Result<FunValue, AllocError>
    ensures formed { IfOk result (λ f. IsTrue (is_formed (plain_function f))) }
    ensures flat { IfOk result (λ f. IsTrue (is_flat_function (plain_function f))) }
{
    let mut f = FunValue::new(alloc, Value::Bool(elsewhere))?;
    f.set(key(alloc, Value::Bool(key_truth))?, Value::Bool(there))?;
    Ok(f)
}

#[test]
fn functions_are_one_where_no_key_is_left(rt: HostRuntime) -> Result<(), Fail> {
    let alloc: Global = rt.alloc();
    let mut of = Sorts::new(alloc);
    of.push(Sort::Bool)?;
    let f = all_but_one(alloc, true, false, true)?;
    let g = all_but_one(alloc, true, true, true)?;
    let h = all_but_one(alloc, false, true, true)?;
    assert!(rt; same_function(&f, &g, &of));
    assert!(rt; !same_function(&f, &h, &of));
    let copy = copy_function(alloc, &h)?;
    assert!(rt; same_function(&copy, &h, &of));
    Ok(())
}
