//! Lists of terms: their places, each one once, and one list behind another.
ghost use Rattle.std.specs.Prelude.{◌≡◌, ℕ, ◌<◌, ◌++◌, All, IfOk, OnOk, List, Some, length, map, slice_get};
ghost use Rattle.term_shapes.specs.declared.handles.Term.{Term};
ghost use Rattle.term_orders.specs.Orders.{IsIn};
ghost use Rattle.term_orders.specs.Walk.{Inserts};
ghost use Rattle.term_checks.specs.Listing.{AreOnce, term_in};

use indexmap::IndexSet;
use std::alloc::{AllocError, Global};
use term_table::{Term, Terms};

/// The place of a term that is there. Expected O(1).
pub(crate) fn place_of(order: &IndexSet<Term>, t: Term) -> usize
    requires { IsIn order.now.keys t }
    ensures { slice_get order.now.keys result ≡ Some t }
{
    match order.get_index_of(&t) {
        Some(place) => place,
        None => unreachable!(),
    }
}

/// Gives the term the last place, where it has none.
fn put(order: &mut IndexSet<Term>, t: Term) -> Result<(), AllocError>
    ensures { OnOk result (Inserts order.old.keys t order.new.keys) }
{
    order.insert(t)?;
    Ok(())
}

/// Different terms as a set, in their order.
pub(crate) fn as_set(alloc: Global, terms: &[Term]) -> Result<IndexSet<Term>, AllocError>
    requires { (i j : ℕ) (t : Term) → slice_get terms.now i ≡ Some t → slice_get terms.now j ≡ Some t → i ≡ j }
    ensures { IfOk result (λ order. order.keys ≡ terms.now) }
{
    let mut order = IndexSet::new(alloc);
    for term in terms {
        put(&mut order, *term)?;
    }
    Ok(order)
}

/// Each of the terms once, in the order of their first places.
pub(crate) fn each_once(alloc: Global, terms: &[Term]) -> Result<IndexSet<Term>, AllocError>
    ensures { IfOk result (λ once. AreOnce terms.now (length terms.now) once.keys) }
{
    let mut once = IndexSet::new(alloc);
    for term in terms {
        put(&mut once, *term)?;
    }
    Ok(once)
}

/// Adds terms at the end.
fn append(list: &mut Terms, terms: &[Term]) -> Result<(), AllocError>
    ensures { OnOk result (list.new ≡ list.old ++ terms.now) }
{
    for term in terms {
        list.push(*term)?;
    }
    Ok(())
}

/// One list behind another.
pub(crate) fn joined(alloc: Global, front: &[Term], back: &[Term]) -> Result<Terms, AllocError>
    ensures { IfOk result (λ all. all ≡ front.now ++ back.now) }
{
    let mut all = Terms::new(alloc);
    append(&mut all, front)?;
    append(&mut all, back)?;
    Ok(all)
}

/// The terms at these places.
pub(crate) fn terms_at(alloc: Global, terms: &[Term], places: &[usize]) -> Result<Terms, AllocError>
    requires { All (λ p. p < length terms.now) places.now }
    ensures { IfOk result (λ ts. ts ≡ map (term_in terms.now) places.now) }
{
    let mut found = Terms::new(alloc);
    for place in places {
        found.push(terms[*place])?;
    }
    Ok(found)
}
