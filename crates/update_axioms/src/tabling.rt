//! A function's applications in order of their keys, as entries. Applications of one key stand together, so each is compared
//! to the last entry alone: it has a later key, or that key with the same value, or congruence is broken there.
ghost use Rattle.std.specs.Prelude.{◌≡◌, ◌<◌, ◌++◌, ◌∷◌, [], OnOk, ℕ, length, slice_get, Some, IfOk, map};
ghost use Rattle.y_tree.specs.Plain.{plain_value, plain_values, plain_entry};
ghost use Rattle.update_axioms.specs.Tabling.{Made, points_made, AreInOrder, AreFlat, IsTabled, IsStep, TabledGroupsFit, last_of};

use crate::candidate::Made;
use crate::looking::is_equal;
use std::alloc::{AllocError, Global};
use std::cmp::Ordering;
use y_tree::{Entry, Value, Values, cmp_keys, copy_value, copy_values};

/// What came of a function's applications.
#[derive(Drop)]
pub enum Tabled {
    /// Entries in rising order of their keys, with the applications' values.
    Entries(Vec<Entry>),
    /// The application at this place and the one before it have one key, and different values.
    Clash(usize),
}

// How an application stands to the last entry.
#[derive(Clone, Copy)]
enum Step {
    Behind,
    Again,
    Differs,
}

/// The entries of a function's applications, which stand in order of their keys, in one pass. Tuples are found by their
/// numbers, and values by their nodes. The one error is a refused allocation.
pub fn tabulate(
    alloc: Global,
    made: &[Made],
    tuples: &[Values],
    values: &[Value],
) -> Result<Tabled, AllocError>
    requires tuples { (i : ℕ) (a : Made) → slice_get made.now i ≡ Some a → a.1 < length tuples.now }
    requires nodes { (i : ℕ) (a : Made) → slice_get made.now i ≡ Some a → a.2 < length values.now }
    requires order { AreInOrder (points_made tuples.now values.now made.now) }
    requires flat { AreFlat (points_made tuples.now values.now made.now) }
    ensures { IfOk result (IsTabled (points_made tuples.now values.now made.now)) }
{
    let mut kept: Vec<Entry> = Vec::new(alloc);
    for i in 0..made.len() {
        let key = tuples[made[i].1].as_slice();
        let value = &values[made[i].2];
        match step_of(kept.as_slice(), key, value) {
            Step::Behind => push_entry(alloc, &mut kept, key, value)?,
            Step::Again => {}
            Step::Differs => return Ok(Tabled::Clash(i)),
        }
    }
    Ok(Tabled::Entries(kept))
}

/// Adds an entry with a copy of its key and of its value.
fn push_entry(
    alloc: Global,
    kept: &mut Vec<Entry>,
    key: &[Value],
    value: &Value,
) -> Result<(), AllocError>
    ensures { OnOk result (map plain_entry kept.new.items ≡ map plain_entry kept.old.items ++ (plain_values key.now, plain_value value.now) ∷ []) }
{
    let key = copy_values(alloc, key)?;
    let value = copy_value(alloc, value)?;
    kept.push(Entry { key, value })?;
    Ok(())
}

/// How an application stands to the last entry.
#[tactic(auto, using(crate::proofs::Copies::last_is, crate::proofs::Copies::step_again, crate::proofs::Copies::step_differs, crate::proofs::Copies::step_behind, crate::proofs::Copies::step_first))]
fn step_of(kept: &[Entry], key: &[Value], value: &Value) -> Step
    ensures { IsStep result (last_of (map plain_entry kept.now)) (plain_values key.now, plain_value value.now) }
{
    if kept.is_empty() {
        return Step::Behind;
    }
    let last = &kept[kept.len() - 1];
    match cmp_keys(last.key.as_slice(), key) {
        Ordering::Equal => {
            if is_equal(&last.value, value) {
                Step::Again
            } else {
                Step::Differs
            }
        }
        _ => Step::Behind,
    }
}

/// Where each function's applications are tabled, all applications are congruent, and the entries tabulate them.
pub fn tabled_groups_fit()
    ensures { TabledGroupsFit }
{}
