//! Multipliers of bounds whose sum is a contradiction.

ghost use Rattle.std.specs.Prelude.{◌≡◌, ◌<◌, ℕ, length, slice_index, IfSome, IfNone, Some, None, IfOk};
ghost use Rattle.simplex_core.specs.Conflicts.{IsStop, Certifies, IsPair, ConflictsRefute};

use crate::choice::{oriented, sign};
use crate::lists::Multipliers;
use fraction128::Frac;
use simplex_bounds::{Bound, Range};
use std::alloc::{AllocError, Global};
use std::cmp::Ordering;

/// The tag of a bound, if there is one, with a multiplier.
fn tagged(bound: &Option<Bound>, by: Frac) -> Option<(usize, Frac)>
    ensures some { IfSome bound.now (λ b. result ≡ Some (b.tag, by)) }
    ensures none { IfNone bound.now (result ≡ None) }
{
    match bound {
        Some(held) => Some((held.tag, by)),
        None => None,
    }
}

/// The bound that stops a column, with the size of its coefficient.
fn stop_of(by: Frac, range: &Range) -> Option<(usize, Frac)>
    ensures { IsStop range.now by result }
{
    match sign(by) {
        Ordering::Greater => tagged(&range.up, by),
        Ordering::Less => tagged(&range.low, by.neg()),
        Ordering::Equal => None,
    }
}

/// The violated bound of a row, and the bounds that stop the row's columns.
pub fn certificate(
    alloc: Global,
    bound: &Bound,
    row: &[Frac],
    columns: &[usize],
    ranges: &[Range],
) -> Result<Multipliers, AllocError>
    requires width { length row.now ≡ length columns.now }
    requires named { (k : ℕ) → k < length columns.now → slice_index columns.now k < length ranges.now }
    ensures { IfOk result (Certifies ranges.now bound.now row.now columns.now) }
{
    let mut multipliers = Vec::new(alloc);
    multipliers.push((bound.tag, Frac::one()))?;
    for k in 0..columns.len() {
        let by = oriented(row[k], !bound.upper);
        if let Some(stop) = stop_of(by, &ranges[columns[k]]) {
            multipliers.push(stop)?;
        }
    }
    Ok(Multipliers::from_vec(multipliers))
}

/// A lower and an upper bound, each once.
pub fn pair(alloc: Global, low: &Bound, up: &Bound) -> Result<Multipliers, AllocError>
    ensures { IfOk result (IsPair low.now up.now) }
{
    let mut multipliers = Vec::new(alloc);
    multipliers.push((low.tag, Frac::one()))?;
    multipliers.push((up.tag, Frac::one()))?;
    Ok(Multipliers::from_vec(multipliers))
}

/// No values meet the rows and the bounds that a conflict names.
pub fn conflicts_refute()
    ensures { ConflictsRefute }
{}
