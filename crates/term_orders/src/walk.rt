//! The walk below one root.
ghost use Rattle.std.specs.Prelude.{◌≡◌, ◌+◌, ◌^◌, ◌<◌, ◌⊎◌, ◌++◌, ◌∷◌, [], List, Some, None, IfSome, IfNone, IfOk, OnOk, IsSome, IsTrue, ◌↔◌, slice_get};
ghost use Rattle.term_shapes.specs.declared.handles.Term.{Term};
ghost use Rattle.term_table.specs.World.{node_at};
ghost use Rattle.term_orders.specs.Orders.{IsIn, IsOrder};
ghost use Rattle.term_orders.specs.Walk.{args_at, fresh, Advances, Inserts};

use crate::ending::Grounded;
use indexmap::IndexSet;
use std::alloc::{AllocError, Global};
use term_table::{Table, Term};

/// How far the walk is at a term: its arguments before that place were looked at.
#[derive(Clone, Copy, Debug, PartialEq, Eq)]
pub(crate) struct Frame {
    term: Term,
    next: usize,
}

/// The argument at that place; `None` behind the last.
fn next_argument(table: &Table, term: Term, place: usize) -> Option<Term>
    ensures some { IfSome result (λ u. slice_get (args_at table.now term) place ≡ Some u) }
    ensures more { IfSome result (λ _. place + 1 < 2 ^ 64) }
    ensures none { IfNone result (slice_get (args_at table.now term) place ≡ None) }
{
    let shape = table.shape(term)?;
    if place >= shape.count_arguments() {
        return None;
    }
    shape.argument(place)
}

/// Whether the term has its place.
fn is_placed(order: &IndexSet<Term>, term: Term) -> bool
    ensures { IsTrue result ↔ IsIn order.now.keys term }
{
    order.contains(&term)
}

/// Gives the term the last place, where it has none.
fn put(order: &mut IndexSet<Term>, term: Term) -> Result<(), AllocError>
    ensures { OnOk result (Inserts order.old.keys term order.new.keys) }
{
    order.insert(term)?;
    Ok(())
}

/// Puts a frame for a term on the stack, where the term has no place.
fn enter(term: Term, stack: &mut Vec<Frame>, order: &IndexSet<Term>) -> Result<(), AllocError>
    ensures { OnOk result ((IsIn order.now.keys term × (stack.new.items ≡ stack.old.items)) ⊎ (stack.new.items ≡ stack.old.items ++ fresh term ∷ [])) }
{
    if is_placed(order, term) {
        return Ok(());
    }
    stack.push(Frame { term, next: 0 })?;
    Ok(())
}

/// One step of the walk at the top frame, which was taken off the stack.
fn advance(
    table: &Table,
    frame: Frame,
    stack: &mut Vec<Frame>,
    order: &mut IndexSet<Term>,
) -> Result<(), AllocError>
    ensures { OnOk result (Advances table.now frame stack.old.items stack.new.items order.old.keys order.new.keys) }
{
    match next_argument(table, frame.term, frame.next) {
        Some(argument) => {
            stack.push(Frame {
                term: frame.term,
                next: frame.next + 1,
            })?;
            enter(argument, stack, order)?;
            Ok(())
        }
        None => {
            put(order, frame.term)?;
            Ok(())
        }
    }
}

/// Lists what is below the root and has no place yet, and the root last, where it has none.
pub(crate) fn place(
    alloc: Global,
    grounded: &Grounded,
    root: Term,
    order: &mut IndexSet<Term>,
) -> Result<(), AllocError>
    requires { IsSome (node_at grounded.now.table.now root) }
    ensures { OnOk result ((rs : List Term) → IsOrder grounded.now.table.now rs order.old.keys → IsOrder grounded.now.table.now (rs ++ root ∷ []) order.new.keys) }
{
    if is_placed(order, root) {
        return Ok(());
    }
    walk_below(alloc, grounded, root, order)?;
    Ok(())
}

/// Walks below the root from its frame on.
fn walk_below(
    alloc: Global,
    grounded: &Grounded,
    root: Term,
    order: &mut IndexSet<Term>,
) -> Result<(), AllocError>
    requires { IsSome (node_at grounded.now.table.now root) }
    ensures { OnOk result ((rs : List Term) → IsOrder grounded.now.table.now rs order.old.keys → IsOrder grounded.now.table.now (rs ++ root ∷ []) order.new.keys) }
{
    grounded.table.is_table();
    let mut stack = Vec::new(alloc);
    stack.push(Frame {
        term: root,
        next: 0,
    })?;
    while let Some(frame) = stack.pop() {
        advance(grounded.table, frame, &mut stack, order)?;
    }
    Ok(())
}
