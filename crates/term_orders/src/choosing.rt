//! The subterms of terms, and the variables and constants among them.
ghost use Rattle.std.specs.Prelude.{◌≡◌, ◌↔◌, ℕ, IsTrue, List, Some, slice_get, IfOk, IfSome, IfNone, IsSome, Bool, filter};
ghost use Rattle.term_shapes.specs.declared.handles.Term.{Term};
ghost use Rattle.term_table.specs.World.{World, node_at, shape_at};
ghost use Rattle.term_table.specs.Checking.{AreLive};
ghost use Rattle.term_orders.specs.Orders.{IsIn, IsBelow, IsUnder, IsOrder, IsVariable, AreConstants, is_constant_shape};

use crate::ending::with_ends;
use crate::walk::place;
use indexmap::IndexSet;
use std::alloc::{AllocError, Global};
use term_table::{Shape, Table, Term, Terms};

/// The distinct subterms of live terms: for each root in turn, its arguments from left to right before itself, each term
/// where it is met first. The time is expected linear in these terms, their arguments and the roots.
///
/// # Errors
///
/// Where memory is refused.
pub fn subterms(alloc: Global, table: &Table, roots: &[Term]) -> Result<Terms, AllocError>
    requires { AreLive table.now roots.now }
    ensures { IfOk result (λ ts. IsOrder table.now roots.now ts) }
{
    let order = ordered(alloc, table, roots)?;
    let terms = listed(alloc, order.as_slice())?;
    Ok(terms)
}

/// The subterms in order, as a set.
fn ordered(alloc: Global, table: &Table, roots: &[Term]) -> Result<IndexSet<Term>, AllocError>
    requires { AreLive table.now roots.now }
    ensures { IfOk result (λ order. IsOrder table.now roots.now order.keys) }
{
    let grounded = with_ends(table);
    let mut order = IndexSet::new(alloc);
    for root in roots {
        place(alloc, &grounded, *root, &mut order)?;
    }
    Ok(order)
}

/// The terms as a list.
fn listed(alloc: Global, terms: &[Term]) -> Result<Terms, AllocError>
    ensures { IfOk result (λ ts. ts ≡ terms.now) }
{
    let mut list = Terms::new(alloc);
    for term in terms {
        list.push(*term)?;
    }
    Ok(list)
}

/// Whether the term is a variable.
fn is_variable(table: &Table, t: Term) -> bool
    ensures { IsTrue result ↔ IsVariable table.now t }
{
    matches!(table.shape(t), Some(Shape::Var { .. }))
}

/// Whether the term is a constant.
fn is_constant(table: &Table, t: Term) -> bool
    ensures { result ≡ is_constant_shape (shape_at table.now t) }
{
    matches!(table.shape(t), Some(Shape::Const { .. }))
}

/// A variable below a live term, the first in the order of `subterms`; `None` exactly where there is none. The time is
/// expected linear in the term's distinct subterms and their arguments.
///
/// # Errors
///
/// Where memory is refused.
pub fn first_variable(alloc: Global, table: &Table, t: Term) -> Result<Option<Term>, AllocError>
    requires { IsSome (node_at table.now t) }
    ensures variable { IfOk result (λ found. IfSome found (λ v. IsVariable table.now v)) }
    ensures below { IfOk result (λ found. IfSome found (λ v. IsBelow table.now v t)) }
    ensures none { IfOk result (λ found. IfNone found ((v : Term) → IsBelow table.now v t → IsVariable table.now v → ⊥)) }
{
    let order = subterms(alloc, table, &[t])?;
    Ok(variable_among(table, order.as_slice()))
}

/// The first variable of a list.
fn variable_among(table: &Table, terms: &[Term]) -> Option<Term>
    ensures some { IfSome result (λ v. IsIn terms.now v × IsVariable table.now v) }
    ensures none { IfNone result ((i : ℕ) (u : Term) → slice_get terms.now i ≡ Some u → IsVariable table.now u → ⊥) }
{
    for term in terms {
        if is_variable(table, *term) {
            return Some(*term);
        }
    }
    None
}

/// The constants below live terms, each once, in the order of `subterms`. The time is expected linear in the distinct
/// subterms and their arguments.
///
/// # Errors
///
/// Where memory is refused.
pub fn constants_of(alloc: Global, table: &Table, roots: &[Term]) -> Result<Terms, AllocError>
    requires { AreLive table.now roots.now }
    ensures { IfOk result (λ cs. AreConstants table.now roots.now cs) }
{
    let order = subterms(alloc, table, roots)?;
    let constants = constants_among(alloc, table, order.as_slice())?;
    Ok(constants)
}

/// The constants of a list, in order.
fn constants_among(alloc: Global, table: &Table, terms: &[Term]) -> Result<Terms, AllocError>
    ensures { IfOk result (λ cs. cs ≡ filter (λ t. is_constant_shape (shape_at table.now t)) terms.now) }
{
    let mut constants = Terms::new(alloc);
    for term in terms {
        if is_constant(table, *term) {
            constants.push(*term)?;
        }
    }
    Ok(constants)
}

/// Whatever is below a root stands in an order of the roots' subterms.
#[tactic(auto, using(crate::proofs::Standing::under_stands))]
pub fn every_subterm_stands()
    ensures { (w : World) (roots ts : List Term) → IsOrder w roots ts → (t : Term) → IsUnder w roots t → IsIn ts t }
{}
