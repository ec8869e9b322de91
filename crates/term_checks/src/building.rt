//! The problem of terms: a node for each, in their order, and literals that say that terms are true.
ghost use Rattle.std.specs.Prelude.{◌≡◌, ℕ, ◌<◌, Bool, IfOk, length, Some, slice_get};
ghost use Rattle.term_shapes.specs.declared.handles.Term.{Term};
ghost use Rattle.term_shapes.specs.Shapes.{args_of};
ghost use Rattle.term_orders.specs.Orders.{IsIn};
ghost use Rattle.term_checks.specs.Building.{AreAt, AreLiteralsOf, AreNodes, IsNodeAt, IsNodeOf, valued};
ghost use Rattle.term_checks.specs.Formulas.{AreReady, IsTruthShape};

use crate::answers::TermValues;
use crate::lists::place_of;
use indexmap::IndexSet;
use std::alloc::{AllocError, Global};
use term_table::{Shape, Table, Term};
use theory_combine::{Node, NodeLit, Places, Problem};

/// The places of terms.
fn places_of(alloc: Global, order: &IndexSet<Term>, terms: &[Term]) -> Result<Places, AllocError>
    requires { (t : Term) → IsIn terms.now t → IsIn order.now.keys t }
    ensures { IfOk result (λ places. AreAt order.now.keys terms.now places) }
{
    let mut places = Places::new(alloc);
    for term in terms {
        places.push(place_of(order, *term))?;
    }
    Ok(places)
}

/// The node of a shape, over the places of its arguments.
fn node_of(alloc: Global, order: &IndexSet<Term>, shape: &Shape) -> Result<Node, AllocError>
    requires truths { IsTruthShape shape.now }
    requires placed { (t : Term) → IsIn (args_of shape.now) t → IsIn order.now.keys t }
    ensures { IfOk result (λ n. IsNodeOf order.now.keys shape.now n) }
{
    match shape {
        Shape::True => Ok(Node::True),
        Shape::False => Ok(Node::False),
        Shape::Const { number, .. } => Ok(Node::Const { number: *number }),
        Shape::Not(only) => Ok(Node::Not(place_of(order, *only))),
        Shape::And(all) => Ok(Node::And(places_of(alloc, order, all.as_slice())?)),
        Shape::Or(all) => Ok(Node::Or(places_of(alloc, order, all.as_slice())?)),
        Shape::Xor(all) => Ok(Node::Xor(places_of(alloc, order, all.as_slice())?)),
        Shape::Ite(test, yes, no) => Ok(Node::Ite(
            place_of(order, *test),
            place_of(order, *yes),
            place_of(order, *no),
        )),
        Shape::Eq(left, right) => Ok(Node::Eq(place_of(order, *left), place_of(order, *right))),
        Shape::Distinct(all) => Ok(Node::Distinct(places_of(alloc, order, all.as_slice())?)),
        Shape::Var { .. } | Shape::Number(_) | Shape::Bits { .. } => unreachable!(),
        Shape::App(_, _) | Shape::Update(_, _, _) | Shape::Sum(_, _) => unreachable!(),
        Shape::NonNeg(_) | Shape::Bv(_, _) | Shape::BvAt(_, _, _, _) => unreachable!(),
    }
}

/// The node of a term that stands in the order.
fn node_at(
    alloc: Global,
    table: &Table,
    order: &IndexSet<Term>,
    t: Term,
) -> Result<Node, AllocError>
    requires ready { AreReady table.now order.now.keys }
    requires there { IsIn order.now.keys t }
    ensures { IfOk result (λ n. IsNodeAt table.now order.now.keys t n) }
{
    table.is_table();
    match table.shape(t) {
        Some(shape) => node_of(alloc, order, shape),
        None => unreachable!(),
    }
}

/// A node for each term, in their order.
pub(crate) fn problem_of(
    alloc: Global,
    table: &Table,
    order: &IndexSet<Term>,
) -> Result<Problem, AllocError>
    requires { AreReady table.now order.now.keys }
    ensures { IfOk result (λ nodes. AreNodes table.now order.now.keys (length order.now.keys) nodes) }
{
    let mut problem = Problem::new(alloc);
    for term in order.as_slice() {
        let node = node_at(alloc, table, order, *term)?;
        problem.add(node)?;
    }
    Ok(problem)
}

/// A literal for each term, which says that it is true.
pub(crate) fn literals_of(
    alloc: Global,
    order: &IndexSet<Term>,
    terms: &[Term],
) -> Result<Vec<NodeLit>, AllocError>
    requires { (t : Term) → IsIn terms.now t → IsIn order.now.keys t }
    ensures { IfOk result (λ lits. AreLiteralsOf order.now.keys terms.now (length terms.now) lits.items) }
{
    let mut lits = Vec::new(alloc);
    for term in terms {
        let node = place_of(order, *term);
        lits.push(NodeLit {
            node,
            positive: true,
        })?;
    }
    Ok(lits)
}

/// The terms at the places of nodes, with the nodes' values.
pub(crate) fn values_of(
    alloc: Global,
    order: &[Term],
    values: &[(usize, bool)],
) -> Result<TermValues, AllocError>
    requires { (i : ℕ) (e : ℕ × Bool) → slice_get values.now i ≡ Some e → e.0 < length order.now }
    ensures { IfOk result (λ found. found ≡ valued order.now values.now) }
{
    let mut found = TermValues::new(alloc);
    for (node, value) in values {
        found.push((order[*node], *value))?;
    }
    Ok(found)
}
