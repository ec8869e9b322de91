//! The applications of one function, in the order of their keys.
ghost use Rattle.std.specs.Prelude.{◌≡◌, IfOk, OnOk};
ghost use Rattle.std.specs.List.{filter};
ghost use Rattle.std.specs.List.Sorted.{IsPermutation};
ghost use Rattle.y_tree.specs.Order.{order_keys};
ghost use Rattle.y_tree.specs.Plain.{plain_values};
ghost use Rattle.update_axioms.specs.Grouping.{key_at, is_of, IsGroup, AreByKey};

use crate::candidate::Made;
use std::alloc::{AllocError, Global};
use std::cmp::Ordering;
use y_tree::{Value, Values, cmp_keys};

/// The applications of one function, in the order of their keys. The one error is a refused allocation.
pub fn group_of(
    alloc: Global,
    made: &[Made],
    function: usize,
    tuples: &[Values],
) -> Result<Vec<Made>, AllocError>
    ensures group { IfOk result (λ r. IsGroup made.now function r.items) }
    ensures order { IfOk result (λ r. AreByKey tuples.now r.items) }
{
    let mut group = chosen(alloc, made, function)?;
    sort_by_key(&mut group, tuples)?;
    Ok(group)
}

/// The applications of one function.
fn chosen(alloc: Global, made: &[Made], function: usize) -> Result<Vec<Made>, AllocError>
    ensures { IfOk result (λ r. r.items ≡ filter (is_of function) made.now) }
{
    made.iter()
        .copied()
        .filter(|a| a.0 == function)
        .collect(alloc)
}

/// Puts applications in the order of their keys.
fn sort_by_key(group: &mut Vec<Made>, tuples: &[Values]) -> Result<(), AllocError>
    ensures same { IsPermutation group.old.items group.new.items }
    ensures order { OnOk result (AreByKey tuples.now group.new.items) }
{
    group.sort_by(
        |a: &Made, b: &Made| -> Ordering
            ensures { result ≡ order_keys (key_at tuples.entry.now a.entry.now.1) (key_at tuples.entry.now b.entry.now.1) }
        { cmp_keys(key_of(tuples, a.1), key_of(tuples, b.1)) },
    )
}

/// The values of a tuple, and none past the last tuple.
fn key_of(tuples: &[Values], tuple: usize) -> &[Value]
    ensures { plain_values result.now ≡ key_at tuples.now tuple }
{
    match tuples.get(tuple) {
        Some(key) => key.as_slice(),
        None => &[],
    }
}
