//! Fractions in place of numbers with an infinitesimal part, by one step that is small enough for every bound.

ghost use Rattle.std.specs.Prelude.{◌≡◌, Contains, IfOk, IfErr};
ghost use Rattle.std.specs.Bool.{OnTrue, OnFalse};
ghost use Rattle.rationals.specs.Rational.{◌<ℚ◌, ◌≤ℚ◌, ◌-ℚ◌};
ghost use Rattle.simplex_logic.specs.Concretes.{at_step};
ghost use Rattle.simplex_table.specs.View.{delta_of, delta_at};
ghost use Rattle.simplex_table.specs.Causes.{OnWide};
ghost use Rattle.simplex_bounds.specs.declared.Bound.{Bound};
ghost use Rattle.simplex_bounds.specs.Ranges.{Holds};
ghost use Rattle.simplex_core.specs.Concrete.{IsDifferenceWide, IsLargest, IsStepWide, low_of, high_of, IsCommonStep, IsBoundWide, IsValueWide, AreConcrete, IsSomeValueWide, IsLeast};

use fraction128::{Delta, Frac, Wide};
use simplex_bounds::{Bound, zero};
use simplex_table::TableauError;
use std::alloc::Global;
use std::cmp::Ordering;

/// The value of a variable; one that is not listed has the value 0.
pub fn value_of(values: &[Delta], var: usize) -> Delta
    ensures { delta_of result ≡ delta_at values.now var }
{
    if var < values.len() {
        values[var]
    } else {
        zero()
    }
}

/// Whether a is less than b.
fn is_less(a: Frac, b: Frac) -> bool
    ensures yes { OnTrue result (a <ℚ b) }
    ensures no { OnFalse result (b ≤ℚ a) }
{
    match a.cmp(b) {
        Ordering::Less => true,
        Ordering::Equal => false,
        Ordering::Greater => false,
    }
}

/// The difference, without an operation where one of the two is 0.
fn minus(a: Frac, b: Frac) -> Result<Frac, Wide>
    ensures ok { IfOk result (λ d. d ≡ a -ℚ b) }
    ensures wide { IfErr result (IsDifferenceWide a b) }
{
    if b.is_zero() {
        return Ok(a);
    }
    if a.is_zero() {
        return Ok(b.neg());
    }
    a.sub(b)
}

/// The largest step with which the first number is at most the second, if there is a largest.
fn largest_step(low: &Delta, high: &Delta) -> Result<Option<Frac>, Wide>
    ensures ok { IfOk result (IsLargest (delta_of low.now) (delta_of high.now)) }
    ensures wide { IfErr result (IsStepWide (delta_of low.now) (delta_of high.now)) }
{
    if !is_less(high.inf, low.inf) {
        return Ok(None);
    }
    let above = match minus(high.real, low.real) {
        Ok(above) => above,
        Err(wide) => return Err(wide),
    };
    let below = match minus(low.inf, high.inf) {
        Ok(below) => below,
        Err(wide) => return Err(wide),
    };
    match above.div(below) {
        Ok(step) => Ok(Some(step)),
        Err(wide) => Err(wide),
    }
}

/// The largest step with which a value meets a bound, if there is a largest.
fn step_to(bound: &Bound, at: &Delta) -> Result<Option<Frac>, Wide>
    ensures ok { IfOk result (IsLargest (low_of bound.now.upper (delta_of bound.now.value) (delta_of at.now)) (high_of bound.now.upper (delta_of bound.now.value) (delta_of at.now))) }
    ensures wide { IfErr result (IsStepWide (low_of bound.now.upper (delta_of bound.now.value) (delta_of at.now)) (high_of bound.now.upper (delta_of bound.now.value) (delta_of at.now))) }
{
    if bound.upper {
        largest_step(at, &bound.value)
    } else {
        largest_step(&bound.value, at)
    }
}

/// The least of a step and another, if there is another.
fn least(step: Frac, other: Option<Frac>) -> Frac
    ensures { IsLeast step other result }
{
    match other {
        Some(limit) => { if is_less(limit, step) { limit } else { step } }
        None => step,
    }
}

/// A positive step with which the values meet every bound.
pub fn common_step(bounds: &[Bound], values: &[Delta]) -> Result<Frac, Wide>
    requires { (b : Bound) → Contains bounds.now b → Holds (delta_at values.now) b }
    ensures ok { IfOk result (IsCommonStep bounds.now values.now) }
    ensures wide { IfErr result (IsBoundWide bounds.now values.now) }
{
    let mut step = Frac::one();
    for bound in bounds {
        let at = value_of(values, bound.variable);
        match step_to(bound, &at) {
            Ok(limit) => step = least(step, limit),
            Err(wide) => return Err(wide),
        }
    }
    Ok(step)
}

/// A number with the step in place of the infinitesimal.
fn concrete_value(at: &Delta, step: Frac) -> Result<Frac, Wide>
    ensures ok { IfOk result (λ q. q ≡ at_step step (delta_of at.now)) }
    ensures wide { IfErr result (IsValueWide step (delta_of at.now)) }
{
    match step.mul(at.inf) {
        Ok(product) => at.real.add(product),
        Err(wide) => Err(wide),
    }
}

/// The values of the first variables with the step in place of the infinitesimal.
pub fn concrete_values(
    alloc: Global,
    values: &[Delta],
    count: usize,
    step: Frac,
) -> Result<Vec<Frac>, TableauError>
    ensures ok { IfOk result (λ v. AreConcrete step values.now count v.items) }
    ensures wide { IfErr result (OnWide (IsSomeValueWide step values.now count)) }
{
    let mut found = Vec::new(alloc);
    for v in 0..count {
        let at = value_of(values, v);
        let number = match concrete_value(&at, step) {
            Ok(number) => number,
            Err(wide) => return Err(TableauError::Wide(wide)),
        };
        found.push(number)?;
    }
    Ok(found)
}
