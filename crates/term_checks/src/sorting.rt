//! Which terms are truth values, and which are formulas.
ghost use Rattle.std.specs.Prelude.{◌≡◌, ◌↔◌, ℕ, IfNone, IfOk, IfSome, IsTrue, Some, slice_get};
ghost use Rattle.y_tree.specs.Sorts.{boolean};
ghost use Rattle.term_shapes.specs.declared.handles.Term.{Term};
ghost use Rattle.term_table.specs.World.{HasTypeShape};
ghost use Rattle.term_table.specs.Checking.{HasSort};
ghost use Rattle.term_orders.specs.Orders.{IsIn};
ghost use Rattle.term_checks.specs.Formulas.{IsFormula, AreFormulas};

use std::alloc::{AllocError, Global};
use term_orders::first_variable;
use term_table::{Table, Term, TypeId, TypeShape};

/// Whether the type is that of truth values.
fn is_bool_type(table: &Table, of: TypeId) -> bool
    ensures { IsTrue result ↔ HasTypeShape table.now of TypeShape.Bool }
{
    matches!(table.type_shape(of), Some(TypeShape::Bool))
}

/// Whether the term is a truth value.
pub fn is_truth_value(table: &Table, t: Term) -> bool
    ensures { IsTrue result ↔ HasSort table.now t boolean }
{
    let Some(of) = table.type_of(t) else {
        return false;
    };
    is_bool_type(table, of)
}

/// The first of the terms that is no truth value.
pub(crate) fn first_other(table: &Table, terms: &[Term]) -> Option<Term>
    ensures some { IfSome result (λ t. IsIn terms.now t × (HasSort table.now t boolean → ⊥)) }
    ensures none { IfNone result ((i : ℕ) (t : Term) → slice_get terms.now i ≡ Some t → HasSort table.now t boolean) }
{
    for term in terms {
        if !is_truth_value(table, *term) {
            return Some(*term);
        }
    }
    None
}

/// Whether the term is a formula.
fn is_formula(alloc: Global, table: &Table, t: Term) -> Result<bool, AllocError>
    ensures { IfOk result (λ b. IsTrue b ↔ IsFormula table.now t) }
{
    if !is_truth_value(table, t) {
        return Ok(false);
    }
    let variable = first_variable(alloc, table, t)?;
    Ok(variable.is_none())
}

/// Whether each of the terms is a formula: live, a truth value, and with no variable below it. The time is expected linear
/// in the distinct subterms of each term and their arguments.
///
/// # Errors
///
/// Where memory is refused.
pub fn are_formulas(alloc: Global, table: &Table, terms: &[Term]) -> Result<bool, AllocError>
    ensures { IfOk result (λ b. IsTrue b ↔ AreFormulas table.now terms.now) }
{
    for term in terms {
        if !is_formula(alloc, table, *term)? {
            return Ok(false);
        }
    }
    Ok(true)
}
