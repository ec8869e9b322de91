//! Operators on truth values, and whether values are one.
ghost use Rattle.std.specs.Prelude.{◌≡◌, ◌∷◌, [], IfOk, IsTrue, List, not, map, if◌then◌else◌};
ghost use Rattle.std.specs.List.{list_all, list_any};
ghost use Rattle.y_tree.specs.Sorts.{Sort as Plain, is_sort};
ghost use Rattle.y_tree.specs.Values.{truth, same_value};
ghost use Rattle.y_tree.specs.Plain.{plain_sort, plain_value};
ghost use Rattle.y_tree.specs.Meaning.{truth_of, is_odd, are_distinct};
ghost use Rattle.term_table.specs.Checking.{HasSort, HaveSorts};
ghost use Rattle.term_orders.specs.Orders.{IsIn};
ghost use Rattle.term_shapes.specs.declared.handles.Term.{Term};
ghost use Rattle.model_eval.specs.Known.{found, IsKnown, AllKnown};
ghost use Rattle.model_eval.specs.Evaluating.{ArePair, AreAlike};

use crate::known::{Known, copy_at, truth_at, value_at};
use std::alloc::{AllocError, Global};
use term_table::{Table, Term};
use y_tree::{Sort, Value, same_value};

/// Whether all terms are true.
pub(crate) fn all_true(known: &Known, terms: &[Term]) -> bool
    ensures { result ≡ list_all truth_of (map (found known.now.entries) terms.now) }
{
    for term in terms {
        if !truth_at(known, *term) {
            return false;
        }
    }
    true
}

/// Whether a term is true.
pub(crate) fn some_true(known: &Known, terms: &[Term]) -> bool
    ensures { result ≡ list_any truth_of (map (found known.now.entries) terms.now) }
{
    for term in terms {
        if truth_at(known, *term) {
            return true;
        }
    }
    false
}

/// Whether an odd number of the terms is true.
pub(crate) fn odd_true(known: &Known, terms: &[Term]) -> bool
    ensures { result ≡ is_odd (map truth_of (map (found known.now.entries) terms.now)) }
{
    let mut odd = false;
    for term in terms {
        if truth_at(known, *term) {
            odd = !odd;
        }
    }
    odd
}

/// The value of the second term where the first is true, and else that of the third.
///
/// # Errors
///
/// Where memory is refused.
pub(crate) fn chosen(
    alloc: Global,
    known: &Known,
    test: Term,
    yes: Term,
    no: Term,
) -> Result<Value, AllocError>
    ensures { IfOk result (λ v. plain_value v ≡ (if truth_of (found known.now.entries test) then found known.now.entries yes else found known.now.entries no)) }
{
    if truth_at(known, test) {
        copy_at(alloc, known, yes)
    } else {
        copy_at(alloc, known, no)
    }
}

/// Whether the values of two terms of a sort are one.
#[tactic(auto, unfolding(crate::specs::Known::found))]
fn are_same(known: &Known, of: &Sort, left: Term, right: Term) -> bool
    requires limits { IsTrue (is_sort (plain_sort of.now)) }
    requires left { IsKnown known.now.entries left (plain_sort of.now) }
    requires right { IsKnown known.now.entries right (plain_sort of.now) }
    ensures { result ≡ same_value (plain_sort of.now) (found known.now.entries left) (found known.now.entries right) }
{
    let Some(first) = value_at(known, left) else {
        unreachable!()
    };
    let Some(second) = value_at(known, right) else {
        unreachable!()
    };
    same_value(first, second, of)
}

/// Whether the value of a term is one with that of another.
fn has_same(known: &Known, of: &Sort, t: Term, others: &[Term]) -> bool
    requires limits { IsTrue (is_sort (plain_sort of.now)) }
    requires left { IsKnown known.now.entries t (plain_sort of.now) }
    requires right { AllKnown known.now.entries others.now (plain_sort of.now) }
    ensures { result ≡ list_any (same_value (plain_sort of.now) (found known.now.entries t)) (map (found known.now.entries) others.now) }
{
    for other in others {
        if are_same(known, of, t, *other) {
            return true;
        }
    }
    false
}

/// Whether no two terms have values that are one.
fn all_differ(known: &Known, of: &Sort, terms: &[Term]) -> bool
    requires limits { IsTrue (is_sort (plain_sort of.now)) }
    requires known { AllKnown known.now.entries terms.now (plain_sort of.now) }
    ensures { result ≡ are_distinct (plain_sort of.now) (map (found known.now.entries) terms.now) }
{
    for i in 0..terms.len() {
        if has_same(known, of, terms[i], &terms[i + 1..]) {
            return false;
        }
    }
    true
}

/// The sort of a live term.
///
/// # Errors
///
/// Where memory is refused.
fn sort_at(alloc: Global, table: &Table, t: Term) -> Result<Sort, AllocError>
    requires { (k : Plain) × HasSort table.now t k }
    ensures { IfOk result (λ s. (k : Plain) → HasSort table.now t k → plain_sort s ≡ k) }
{
    let Some(of) = table.type_of(t) else {
        unreachable!()
    };
    match table.sort_of(alloc, of)? {
        Some(sort) => Ok(sort),
        None => unreachable!(),
    }
}

/// Whether the values of two terms of one sort are one, as a value.
///
/// # Errors
///
/// Where memory is refused.
pub(crate) fn equality(
    alloc: Global,
    table: &Table,
    known: &Known,
    left: Term,
    right: Term,
) -> Result<bool, AllocError>
    requires { ArePair table.now known.now.entries left right }
    ensures { IfOk result (λ b. (k : Plain) → HasSort table.now left k → b ≡ same_value k (found known.now.entries left) (found known.now.entries right)) }
{
    let sort = sort_at(alloc, table, left)?;
    Ok(are_same(known, &sort, left, right))
}

/// Whether no two terms of one sort have values that are one.
///
/// # Errors
///
/// Where memory is refused.
pub(crate) fn distinctness(
    alloc: Global,
    table: &Table,
    known: &Known,
    terms: &[Term],
) -> Result<bool, AllocError>
    requires { AreAlike table.now known.now.entries terms.now }
    ensures { IfOk result (λ b. (k : Plain) → ((t : Term) → IsIn terms.now t → HasSort table.now t k) → b ≡ are_distinct k (map (found known.now.entries) terms.now)) }
{
    match terms.get(0) {
        Some(first) => distinct_from(alloc, table, known, *first, terms),
        None => Ok(true),
    }
}

/// Whether no two terms have values that are one, where all have the sort of the first.
///
/// # Errors
///
/// Where memory is refused.
fn distinct_from(
    alloc: Global,
    table: &Table,
    known: &Known,
    first: Term,
    terms: &[Term],
) -> Result<bool, AllocError>
    requires alike { AreAlike table.now known.now.entries terms.now }
    requires first { IsIn terms.now first }
    ensures { IfOk result (λ b. (k : Plain) → ((t : Term) → IsIn terms.now t → HasSort table.now t k) → b ≡ are_distinct k (map (found known.now.entries) terms.now)) }
{
    let sort = sort_at(alloc, table, first)?;
    Ok(all_differ(known, &sort, terms))
}
