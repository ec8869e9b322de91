//! Bounds of variables, and the range that they leave to each variable.
#![tactic(auto)]

ghost use Rattle.std.specs.Prelude.{◌≡◌, ◌<◌, ℕ, true, false, Contains, IfOk, IfSome, IfNone};
ghost use Rattle.std.specs.Bool.{OnTrue, OnFalse};
ghost use Rattle.rationals.specs.Rational.{zero_ℚ};
ghost use Rattle.rationals.specs.Delta.{◌≤Δ◌, ◌<Δ◌};
ghost use Rattle.simplex_logic.specs.Limits.{AtLeast, AtMost};
ghost use Rattle.simplex_table.specs.View.{delta_of};
ghost use Rattle.simplex_bounds.specs.Ranges.{limit_of, range_at, InRange, Keeps, Tightens, Ranged, Crosses, IsStraight, Stands, Above, Under, Raised, Lowered, AllFree};
ghost use Rattle.simplex_bounds.specs.declared.Bound.{Bound};

use fraction128::{Delta, Frac};
use std::alloc::{AllocError, Global};
use std::cmp::Ordering;

/// A bound of a variable, with the number that its giver knows it by.
#[derive(Clone, Copy)]
pub struct Bound {
    pub variable: usize,
    /// Whether the variable is at most the value; else it is at least the value.
    pub upper: bool,
    pub value: Delta,
    pub tag: usize,
}

/// The strongest bounds of a variable, where there are any.
#[derive(Clone, Copy)]
pub struct Range {
    pub low: Option<Bound>,
    pub up: Option<Bound>,
}

/// Whether a is below b.
pub fn is_below(a: &Delta, b: &Delta) -> bool
    ensures yes { OnTrue result (delta_of a.now <Δ delta_of b.now) }
    ensures no { OnFalse result (delta_of b.now ≤Δ delta_of a.now) }
{
    let left = *a;
    let right = *b;
    match left.cmp(right) {
        Ordering::Less => true,
        Ordering::Equal => false,
        Ordering::Greater => false,
    }
}

/// The number 0.
pub fn zero() -> Delta
    ensures { result ≡ record { real = zero_ℚ; inf = zero_ℚ } }
{
    Delta {
        real: Frac::zero(),
        inf: Frac::zero(),
    }
}

/// The greater of a lower bound, if there is one, and another.
fn greater(old: Option<Bound>, bound: Bound) -> Option<Bound>
    requires { bound.upper ≡ false }
    ensures above { Above old bound result }
    ensures kept { Keeps false old bound result }
{
    match old {
        Some(held) => {
            if is_below(&held.value, &bound.value) {
                Some(bound)
            } else {
                Some(held)
            }
        }
        None => Some(bound),
    }
}

/// The smaller of an upper bound, if there is one, and another.
fn smaller(old: Option<Bound>, bound: Bound) -> Option<Bound>
    requires { bound.upper ≡ true }
    ensures below { Under old bound result }
    ensures kept { Keeps true old bound result }
{
    match old {
        Some(held) => {
            if is_below(&bound.value, &held.value) {
                Some(bound)
            } else {
                Some(held)
            }
        }
        None => Some(bound),
    }
}

/// The lower bound's value if it is above 0, or else 0.
fn raised(low: Option<Bound>) -> Delta
    ensures least { AtLeast (limit_of low) (delta_of result) }
    ensures stands { Raised low (delta_of result) }
{
    match low {
        Some(bound) => {
            if is_below(&zero(), &bound.value) {
                bound.value
            } else {
                zero()
            }
        }
        None => zero(),
    }
}

/// The number, or the upper bound's value if that is less.
fn lowered(up: Option<Bound>, at: Delta) -> Delta
    ensures most { AtMost (limit_of up) (delta_of result) }
    ensures stands { Lowered up (delta_of at) (delta_of result) }
{
    match up {
        Some(bound) => {
            if is_below(&bound.value, &at) {
                bound.value
            } else {
                at
            }
        }
        None => at,
    }
}

impl Range {
    /// The range with one bound more.
    pub fn tightened(self, bound: Bound) -> Range
        ensures { Tightens self bound result }
    {
        if bound.upper {
            Range {
                low: self.low,
                up: smaller(self.up, bound),
            }
        } else {
            Range {
                low: greater(self.low, bound),
                up: self.up,
            }
        }
    }

    /// The bounds, where the lower one is above the upper one.
    pub fn crossing(self) -> Option<(Bound, Bound)>
        ensures some { IfSome result (λ p. Crosses self p.0 p.1) }
        ensures none { IfNone result (IsStraight self) }
    {
        let Range { low, up } = self;
        let Some(low) = low else {
            return None;
        };
        let Some(up) = up else {
            return None;
        };
        if is_below(&up.value, &low.value) {
            Some((low, up))
        } else {
            None
        }
    }

    /// The number of the range that is nearest to 0.
    pub fn start(self) -> Delta
        requires { IsStraight self }
        ensures in_range { InRange self (delta_of result) }
        ensures stands { Stands self (delta_of result) }
    {
        let Range { low, up } = self;
        let at = raised(low);
        lowered(up, at)
    }
}

/// Ranges without bounds.
fn free_ranges(alloc: Global, count: usize) -> Result<Vec<Range>, AllocError>
    ensures { IfOk result (λ v. AllFree count v.items) }
{
    let mut ranges = Vec::new(alloc);
    for _made in 0..count {
        let low: Option<Bound> = None;
        let up: Option<Bound> = None;
        ranges.push(Range { low, up })?;
    }
    Ok(ranges)
}

/// The range that the bounds leave to each variable.
pub fn ranges_of(alloc: Global, count: usize, bounds: &[Bound]) -> Result<Vec<Range>, AllocError>
    requires { (b : Bound) → Contains bounds.now b → b.variable < count }
    ensures { IfOk result (λ v. Ranged count bounds.now v.items) }
{
    let mut ranges = free_ranges(alloc, count)?;
    for bound in bounds {
        let range = ranges[bound.variable];
        ranges[bound.variable] = range.tightened(*bound);
    }
    Ok(ranges)
}

/// The bounds of the first range whose lower bound is above its upper one.
pub fn first_crossing(ranges: &[Range]) -> Option<(Bound, Bound)>
    ensures some { IfSome result (λ p. (v : ℕ) × Crosses (range_at ranges.now v) p.0 p.1) }
    ensures none { IfNone result ((v : ℕ) → IsStraight (range_at ranges.now v)) }
{
    for range in ranges {
        if let Some(pair) = range.crossing() {
            return Some(pair);
        }
    }
    None
}
