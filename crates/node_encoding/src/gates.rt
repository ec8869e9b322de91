//! Clauses by which a literal is a gate of other literals.

ghost use Rattle.std.specs.Prelude.{◌≡◌, ℕ, ◌<◌, ◌≤◌, [], ◌∷◌, List, length, drop, map, OnOk, IfOk};
ghost use Rattle.clause_logic.specs.declared.Lit.{Lit as LitOf};
ghost use Rattle.clause_logic.specs.Clauses.{In, opposite};
ghost use Rattle.node_encoding.specs.Gates.{adding, odd_clauses, even_clauses, and_clauses, or_clauses, choice_clauses, distinct_clauses, shape_clauses};

use crate::Node;
use clause_search::{Lit, Search};
use std::alloc::{AllocError, Global};

/// Adds the clauses by which the literal is the gate of the others that the node's shape says.
pub fn add_shape(
    alloc: Global,
    search: &mut Search,
    node: &Node,
    gate: Lit,
    args: &[Lit],
) -> Result<(), AllocError>
    requires known { (l : LitOf) → In l (gate ∷ args.now) → l.var < search.old.content.vars }
    ensures { OnOk result (search.new ≡ adding search.old (shape_clauses node.now gate args.now)) }
{
    match node {
        Node::True => search.add_clause(&[gate]),
        Node::False => search.add_clause(&[gate.opposite()]),
        Node::Const { number: _ } => Ok(()),
        Node::Not(_) => Ok(()),
        Node::And(_) => add_and(alloc, search, gate, args),
        Node::Or(_) => add_or(alloc, search, gate, args),
        Node::Xor(_) => add_even(alloc, search, gate, args),
        Node::Ite(_, _, _) => add_choice(search, gate, args),
        Node::Eq(_, _) => add_even(alloc, search, gate.opposite(), args),
        Node::Distinct(_) => add_distinct(alloc, search, gate, args),
    }
}

// A literal, and then the opposites of others.
fn with_opposites(alloc: Global, first: Lit, others: &[Lit]) -> Result<Vec<Lit>, AllocError>
    ensures { IfOk result (λ v. v.items ≡ first ∷ map opposite others.now) }
{
    let mut clause: Vec<Lit> = Vec::new(alloc);
    clause.push(first)?;
    for lit in others {
        clause.push(lit.opposite())?;
    }
    Ok(clause)
}

// The gate is the conjunction of the others.
fn add_and(alloc: Global, search: &mut Search, gate: Lit, args: &[Lit]) -> Result<(), AllocError>
    requires known { (l : LitOf) → In l (gate ∷ args.now) → l.var < search.old.content.vars }
    ensures { OnOk result (search.new ≡ adding search.old (and_clauses gate args.now)) }
{
    for arg in args {
        search.add_clause(&[gate.opposite(), *arg])?;
    }
    let last = with_opposites(alloc, gate, args)?;
    search.add_clause(last.as_slice())
}

// The gate is the disjunction of the others.
fn add_or(alloc: Global, search: &mut Search, gate: Lit, args: &[Lit]) -> Result<(), AllocError>
    requires known { (l : LitOf) → In l (gate ∷ args.now) → l.var < search.old.content.vars }
    ensures { OnOk result (search.new ≡ adding search.old (or_clauses gate args.now)) }
{
    for arg in args {
        search.add_clause(&[gate, arg.opposite()])?;
    }
    let mut last: Vec<Lit> = Vec::new(alloc);
    last.push(gate.opposite())?;
    last.extend_from_slice(args)?;
    search.add_clause(last.as_slice())
}

// The gate is the second or the third of the others, by the first.
fn add_choice(search: &mut Search, gate: Lit, args: &[Lit]) -> Result<(), AllocError>
    requires known { (l : LitOf) → In l (gate ∷ args.now) → l.var < search.old.content.vars }
    ensures { OnOk result (search.new ≡ adding search.old (choice_clauses gate args.now)) }
{
    match args {
        [test, yes, no] => {
            search.add_clause(&[test.opposite(), gate.opposite(), *yes])?;
            search.add_clause(&[test.opposite(), gate, yes.opposite()])?;
            search.add_clause(&[*test, gate.opposite(), *no])?;
            search.add_clause(&[*test, gate, no.opposite()])
        }
        _ => Ok(()),
    }
}

// The gate says that the others have different truth values.
fn add_distinct(
    alloc: Global,
    search: &mut Search,
    gate: Lit,
    args: &[Lit],
) -> Result<(), AllocError>
    requires known { (l : LitOf) → In l (gate ∷ args.now) → l.var < search.old.content.vars }
    ensures { OnOk result (search.new ≡ adding search.old (distinct_clauses gate args.now)) }
{
    if args.len() < 2 {
        search.add_clause(&[gate])
    } else if args.len() == 2 {
        add_even(alloc, search, gate, args)
    } else {
        search.add_clause(&[gate.opposite()])
    }
}

/// Adds the clauses by which an even number of the literals, the first and the others, is true.
/// O(2^n) for n literals.
pub fn add_even(
    alloc: Global,
    search: &mut Search,
    first: Lit,
    others: &[Lit],
) -> Result<(), AllocError>
    requires known { (l : LitOf) → In l (first ∷ others.now) → l.var < search.old.content.vars }
    ensures { OnOk result (search.new ≡ adding search.old (even_clauses (first ∷ others.now))) }
{
    let mut lits: Vec<Lit> = Vec::new(alloc);
    lits.push(first)?;
    lits.extend_from_slice(others)?;
    let mut clause: Vec<Lit> = Vec::new(alloc);
    forbid(search, lits.as_slice(), &mut clause, false)
}

// Adds each clause that begins with the given one, has each further literal or its opposite, and
// is false where the number of true literals is odd, or even, as told.
fn forbid(
    search: &mut Search,
    lits: &[Lit],
    clause: &mut Vec<Lit>,
    odd: bool,
) -> Result<(), AllocError>
    requires short { length clause.old.items ≤ length lits.now }
    requires known { (l : LitOf) → In l lits.now → l.var < search.old.content.vars }
    requires begun { (l : LitOf) → In l clause.old.items → l.var < search.old.content.vars }
    ensures clause { OnOk result (clause.new.items ≡ clause.old.items) }
    ensures added { OnOk result (search.new ≡ adding search.old (odd_clauses clause.old.items (drop (length clause.old.items) lits.now) odd)) }
{
    let done = clause.len();
    if done == lits.len() {
        if odd {
            search.add_clause(clause.as_slice())?;
        }
        return Ok(());
    }
    let lit = lits[done];
    clause.push(lit.opposite())?;
    forbid(search, lits, clause, !odd)?;
    clause.pop();
    clause.push(lit)?;
    forbid(search, lits, clause, odd)?;
    clause.pop();
    Ok(())
}
