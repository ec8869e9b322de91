//! What was learned, as clauses over nodes: the problem's, and parities of first arguments. Each
//! variable of the search has a node whose literal it is; a renamed clause stays new, since unit
//! propagation over the search's clauses finds all that propagation over the nodes does.

ghost use Rattle.std.specs.Prelude.{◌≡◌, ℕ, ◌<◌, ◌≤◌, Bool, Option, List, Some, length, map, take, All, slice_get, IfOk};
ghost use Rattle.clause_logic.specs.declared.Lit.{Lit as LitOf};
ghost use Rattle.clause_logic.specs.Clauses.{In};
ghost use Rattle.node_encoding.specs.declared.NodeLit.{NodeLit as NodeLitOf};
ghost use Rattle.theory_combine.specs.Learned.{clauses_of, lit_of};
ghost use Rattle.theory_combine.specs.Naming.{IsNamed, HaveParities, HasFirst, first_of, rename};
ghost use Rattle.node_encoding.specs.Nodes.{IsFormed};

use crate::{Learned, Node, NodeClause, NodeClauses, NodeLit, Places, Problem};
use clause_search::{Clause, Lit};
use node_encoding::Origin;
use std::alloc::{AllocError, Global};

/// The learned clauses over nodes.
pub fn record_of(
    alloc: Global,
    problem: &Problem,
    origins: &[Origin],
    learned: &[Clause],
) -> Result<Learned, AllocError>
    requires formed { IsFormed problem.now }
    requires parities { HaveParities problem.now origins.now }
    requires known { (i : ℕ) (c : List LitOf) (l : LitOf) → slice_get learned.now i ≡ Some c → In l c → l.var < length origins.now }
    ensures { IfOk result (λ r. IsNamed problem.now origins.now learned.now r.nodes r.clauses) }
{
    let mut nodes = copy_of(alloc, problem)?;
    let mut names: Vec<usize> = Vec::new(alloc);
    for origin in origins {
        let name = match origin {
            Origin::Node(k) => *k,
            Origin::Prefix { node, count } => {
                let parity = first_parity(alloc, problem, *node, *count)?;
                nodes.add(parity)?
            }
        };
        names.push(name)?;
    }
    let clauses = renamed(alloc, names.as_slice(), learned)?;
    Ok(Learned { nodes, clauses })
}

// The parity of the first arguments of a parity node.
fn first_parity(
    alloc: Global,
    problem: &Problem,
    node: usize,
    count: usize,
) -> Result<Node, AllocError>
    requires { HasFirst (slice_get problem.now node) count }
    ensures { IfOk result (λ n. n ≡ first_of (slice_get problem.now node) count) }
{
    match problem.node(node) {
        Some(Node::Xor(args)) => {
            let first = copy_places(alloc, &args.as_slice()[..count])?;
            Ok(Node::Xor(first))
        }
        _ => unreachable!(),
    }
}

// The problem again.
fn copy_of(alloc: Global, problem: &Problem) -> Result<Problem, AllocError>
    ensures { IfOk result (λ p. p ≡ problem.now) }
{
    let mut nodes = Problem::new(alloc);
    for node in problem.as_slice() {
        let copy = copy_node(alloc, node)?;
        nodes.add(copy)?;
    }
    Ok(nodes)
}

// The node again.
fn copy_node(alloc: Global, node: &Node) -> Result<Node, AllocError>
    ensures { IfOk result (λ n. n ≡ node.now) }
{
    match node {
        Node::True => Ok(Node::True),
        Node::False => Ok(Node::False),
        Node::Const { number } => Ok(Node::Const { number: *number }),
        Node::Not(a) => Ok(Node::Not(*a)),
        Node::And(args) => Ok(Node::And(copy_places(alloc, args.as_slice())?)),
        Node::Or(args) => Ok(Node::Or(copy_places(alloc, args.as_slice())?)),
        Node::Xor(args) => Ok(Node::Xor(copy_places(alloc, args.as_slice())?)),
        Node::Ite(c, a, b) => Ok(Node::Ite(*c, *a, *b)),
        Node::Eq(a, b) => Ok(Node::Eq(*a, *b)),
        Node::Distinct(args) => Ok(Node::Distinct(copy_places(alloc, args.as_slice())?)),
    }
}

// The numbers again.
fn copy_places(alloc: Global, places: &[usize]) -> Result<Places, AllocError>
    ensures { IfOk result (λ p. p ≡ places.now) }
{
    let mut copy = Places::new(alloc);
    for place in places {
        copy.push(*place)?;
    }
    Ok(copy)
}

// The clauses with each variable as the node of its name.
fn renamed(alloc: Global, names: &[usize], learned: &[Clause]) -> Result<NodeClauses, AllocError>
    requires { (i : ℕ) (c : List LitOf) (l : LitOf) → slice_get learned.now i ≡ Some c → In l c → l.var < length names.now }
    ensures { IfOk result (λ cs. clauses_of cs ≡ map (map (rename names.now)) learned.now) }
{
    let mut clauses = NodeClauses::new(alloc);
    for clause in learned {
        let named = renamed_clause(alloc, names, clause.as_slice())?;
        clauses.push(named)?;
    }
    Ok(clauses)
}

// A clause with each variable as the node of its name.
fn renamed_clause(alloc: Global, names: &[usize], lits: &[Lit]) -> Result<NodeClause, AllocError>
    requires { (l : LitOf) → In l lits.now → l.var < length names.now }
    ensures { IfOk result (λ c. map lit_of c ≡ map (rename names.now) lits.now) }
{
    let mut clause = NodeClause::new(alloc);
    for lit in lits {
        clause.push(NodeLit {
            node: names[lit.var],
            positive: lit.positive,
        })?;
    }
    Ok(clause)
}
