//! Which variable is beyond a limit, and which column can repair its row.

ghost use Rattle.std.specs.Prelude.{◌≡◌, ◌<◌, ℕ, length, slice_index, IfSome, IfNone};
ghost use Rattle.std.specs.Bool.{OnTrue, OnFalse};
ghost use Rattle.std.specs.Ordering.{MatchOrdering};
ghost use Rattle.rationals.specs.Rational.{zero_ℚ, ◌<ℚ◌};
ghost use Rattle.simplex_logic.specs.Limits.{Moves, Stuck, CanRise, CanFall, Full, Empty, First, turned};
ghost use Rattle.simplex_table.specs.View.{delta_of, delta_at};
ghost use Rattle.simplex_bounds.specs.Ranges.{limit_of, limits_of, InRange};
ghost use Rattle.simplex_core.specs.Choosing.{IsViolated, IsFirstViolated, AreWithin, AllStuck};

use fraction128::{Delta, Frac};
use simplex_bounds::{Bound, Range, is_below};
use std::cmp::Ordering;

/// The bound of the range that a number is beyond.
fn violated(range: &Range, at: &Delta) -> Option<Bound>
    ensures some { IfSome result (λ b. IsViolated range.now (delta_of at.now) b) }
    ensures none { IfNone result (InRange range.now (delta_of at.now)) }
{
    if let Some(low) = range.low {
        if is_below(at, &low.value) {
            return Some(low);
        }
    }
    if let Some(up) = range.up {
        if is_below(&up.value, at) {
            return Some(up);
        }
    }
    None
}

/// The bound that the first variable beyond a limit is beyond.
pub fn first_violated(ranges: &[Range], values: &[Delta]) -> Option<Bound>
    requires { length values.now ≡ length ranges.now }
    ensures some { IfSome result (λ b. IsFirstViolated ranges.now values.now b) }
    ensures none { IfNone result (AreWithin ranges.now values.now) }
{
    for v in 0..ranges.len() {
        if let Some(bound) = violated(&ranges[v], &values[v]) {
            return Some(bound);
        }
    }
    None
}

/// The coefficient as it counts where the row must rise, or fall.
pub fn oriented(entry: Frac, rises: bool) -> Frac
    ensures { result ≡ turned rises entry }
{
    if rises { entry } else { entry.neg() }
}

/// How a number stands to 0.
pub fn sign(by: Frac) -> Ordering
    ensures { MatchOrdering result (by <ℚ zero_ℚ) (by ≡ zero_ℚ) (zero_ℚ <ℚ by) }
{
    let number = by.numer();
    if number < 0 {
        Ordering::Less
    } else if number > 0 {
        Ordering::Greater
    } else {
        Ordering::Equal
    }
}

/// Whether there is room up to the upper bound.
fn can_rise(up: &Option<Bound>, at: &Delta) -> bool
    ensures yes { OnTrue result (CanRise (limit_of up.now) (delta_of at.now)) }
    ensures no { OnFalse result (Full (limit_of up.now) (delta_of at.now)) }
{
    match up {
        Some(bound) => is_below(at, &bound.value),
        None => true,
    }
}

/// Whether there is room down to the lower bound.
fn can_fall(low: &Option<Bound>, at: &Delta) -> bool
    ensures yes { OnTrue result (CanFall (limit_of low.now) (delta_of at.now)) }
    ensures no { OnFalse result (Empty (limit_of low.now) (delta_of at.now)) }
{
    match low {
        Some(bound) => is_below(&bound.value, at),
        None => true,
    }
}

/// Whether a column with this coefficient can move so that its row rises.
fn moves(by: Frac, range: &Range, at: &Delta) -> bool
    ensures yes { OnTrue result (Moves by (limit_of range.now.low) (limit_of range.now.up) (delta_of at.now)) }
    ensures no { OnFalse result (Stuck by (limit_of range.now.low) (limit_of range.now.up) (delta_of at.now)) }
{
    match sign(by) {
        Ordering::Greater => can_rise(&range.up, at),
        Ordering::Less => can_fall(&range.low, at),
        Ordering::Equal => false,
    }
}

/// The first column whose move repairs a row.
pub fn first_moving(
    row: &[Frac],
    rises: bool,
    columns: &[usize],
    ranges: &[Range],
    values: &[Delta],
) -> Option<usize>
    requires width { length row.now ≡ length columns.now }
    requires named { (k : ℕ) → k < length columns.now → slice_index columns.now k < length ranges.now }
    requires valued { length values.now ≡ length ranges.now }
    ensures some { IfSome result (λ j. First (limits_of ranges.now) (delta_at values.now) rises row.now columns.now j) }
    ensures none { IfNone result (AllStuck (limits_of ranges.now) (delta_at values.now) rises row.now columns.now) }
{
    for k in 0..columns.len() {
        let column = columns[k];
        if moves(oriented(row[k], rises), &ranges[column], &values[column]) {
            return Some(k);
        }
    }
    None
}
