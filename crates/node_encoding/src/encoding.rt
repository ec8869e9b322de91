//! Nodes as literals of a search. The nodes are encoded one after another, so that a search that
//! stays gets more of them as they come.
//!
//! A negation has the opposite of its argument's literal, nodes of one constant share one, and each
//! other node has a variable. A parity of different arguments is a chain of parities of two, with a
//! variable for each of its first arguments, so that it takes four clauses for each argument. Where
//! an argument stands twice a chain propagates less than all 2^n clauses of the parity do: some of
//! its clauses would be learned that propagation over the nodes finds. So there all are added.

ghost use Rattle.std.specs.Prelude.{◌≡◌, ℕ, ◌<◌, ◌≤◌, ◌+◌, ◌++◌, [], ◌∷◌, List, Some, length, map, take, slice_get, All, OnOk, IfOk, IsTrue, ◌↔◌};
ghost use Rattle.clause_logic.specs.declared.Lit.{Lit as LitOf};
ghost use Rattle.node_encoding.specs.declared.Node.TheVariants as node_of;
ghost use Rattle.node_encoding.specs.Nodes.{IsFormed, arguments_of};
ghost use Rattle.node_encoding.specs.Gates.{Differ};
ghost use Rattle.node_encoding.specs.Encoding.{lit_at, assumed_at, HasShape, IsEncoding, Defines, AreConstants, IsFresh};

use crate::gates::{add_even, add_shape};
use crate::{Node, NodeLit};
use clause_search::{Lit, Search};
use indexmap::{IndexMap, IndexSet};
use std::alloc::{AllocError, Global};

/// What a variable of the search stands for.
#[derive(Clone, Copy, Debug, PartialEq, Eq)]
pub enum Origin {
    /// A node.
    Node(usize),
    /// The parity of the first arguments of a parity node.
    Prefix {
        /// The number of the node.
        node: usize,
        /// How many of its arguments.
        count: usize,
    },
}

/// A search over variables that stand for nodes.
#[derive(Drop)]
pub struct Encoding {
    /// The search.
    pub search: Search,
    /// What each variable stands for.
    pub origins: Vec<Origin>,
    /// The literal of each node that is encoded.
    pub lits: Vec<Lit>,
    alloc: Global,
}

impl Encoding {
    /// No node is encoded. Takes no memory.
    pub fn new(alloc: Global) -> Encoding
        ensures lits { result.lits.items ≡ [] }
        ensures origins { result.origins.items ≡ [] }
        ensures clauses { result.search.content.clauses ≡ [] }
        ensures vars { result.search.content.vars ≡ 0 }
    {
        Encoding {
            search: Search::new(alloc),
            origins: Vec::new(alloc),
            lits: Vec::new(alloc),
            alloc,
        }
    }

    /// Encodes the next node, with the literals of the constants that stand among the nodes so far.
    /// After an error the encoding is of no more use. Expected O(n) for n arguments, but O(2^n) for
    /// a parity in which an argument stands twice.
    pub fn add_next(
        &mut self,
        nodes: &[Node],
        constants: &mut IndexMap<u64, Lit>,
    ) -> Result<(), AllocError>
        requires formed { IsFormed nodes.now }
        requires encodes { IsEncoding nodes.now self.old }
        requires more { length self.old.lits.items < length nodes.now }
        requires constants { AreConstants nodes.now self.old.lits.items constants.old.entries }
        ensures encodes { OnOk result (IsEncoding nodes.now self.new) }
        ensures next { OnOk result (length self.new.lits.items ≡ length self.old.lits.items + 1) }
        ensures constants { OnOk result (AreConstants nodes.now self.new.lits.items constants.new.entries) }
    {
        let k = self.lits.len();
        let lit = self.literal_for(nodes, k, constants)?;
        if let Node::Const { number } = &nodes[k] {
            constants.insert(*number, lit)?;
        }
        self.lits.push(lit)?;
        Ok(())
    }

    // A literal for the next node, with the clauses that make it one.
    fn literal_for(
        &mut self,
        nodes: &[Node],
        k: usize,
        constants: &IndexMap<u64, Lit>,
    ) -> Result<Lit, AllocError>
        requires formed { IsFormed nodes.now }
        requires encodes { IsEncoding nodes.now self.old }
        requires next { k ≡ length self.old.lits.items }
        requires more { k < length nodes.now }
        requires constants { AreConstants nodes.now self.old.lits.items constants.now.entries }
        ensures { IfOk result (λ l. Defines nodes.now k self.old self.new l) }
    {
        match &nodes[k] {
            Node::Const { number } => match constants.get(number) {
                Some(lit) => Ok(*lit),
                None => self.fresh(Origin::Node(k)),
            },
            Node::Not(argument) => Ok(self.lits[*argument].opposite()),
            Node::Xor(args) => {
                if are_different(self.alloc, args.as_slice())? {
                    self.parity(nodes, k, args.as_slice())
                } else {
                    self.gate(nodes, k)
                }
            }
            _ => self.gate(nodes, k),
        }
    }

    // A variable for a node, with the clauses of its shape.
    fn gate(&mut self, nodes: &[Node], k: usize) -> Result<Lit, AllocError>
        requires formed { IsFormed nodes.now }
        requires encodes { IsEncoding nodes.now self.old }
        requires next { k ≡ length self.old.lits.items }
        requires more { k < length nodes.now }
        requires shape { HasShape (slice_get nodes.now k) }
        ensures { IfOk result (λ l. Defines nodes.now k self.old self.new l) }
    {
        let args = self.arguments(&nodes[k])?;
        let gate = self.fresh(Origin::Node(k))?;
        add_shape(
            self.alloc,
            &mut self.search,
            &nodes[k],
            gate,
            args.as_slice(),
        )?;
        Ok(gate)
    }

    // A variable, as its literal.
    fn fresh(&mut self, origin: Origin) -> Result<Lit, AllocError>
        ensures { IfOk result (λ l. IsFresh self.old self.new origin l) }
    {
        self.origins.push(origin)?;
        let var = self.search.new_var()?;
        Ok(Lit {
            var,
            positive: true,
        })
    }

    // The literals of a node's arguments.
    fn arguments(&self, node: &Node) -> Result<Vec<Lit>, AllocError>
        requires { All (λ a. a < length self.now.lits.items) (arguments_of node.now) }
        ensures { IfOk result (λ v. v.items ≡ map (lit_at self.now.lits.items) (arguments_of node.now)) }
    {
        match node {
            Node::True => Ok(Vec::new(self.alloc)),
            Node::False => Ok(Vec::new(self.alloc)),
            Node::Const { number: _ } => Ok(Vec::new(self.alloc)),
            Node::Not(a) => self.literals(&[*a]),
            Node::And(args) => self.literals(args.as_slice()),
            Node::Or(args) => self.literals(args.as_slice()),
            Node::Xor(args) => self.literals(args.as_slice()),
            Node::Ite(c, a, b) => self.literals(&[*c, *a, *b]),
            Node::Eq(a, b) => self.literals(&[*a, *b]),
            Node::Distinct(args) => self.literals(args.as_slice()),
        }
    }

    // The literals of these nodes.
    fn literals(&self, places: &[usize]) -> Result<Vec<Lit>, AllocError>
        requires { All (λ a. a < length self.now.lits.items) places.now }
        ensures { IfOk result (λ v. v.items ≡ map (lit_at self.now.lits.items) places.now) }
    {
        let mut lits: Vec<Lit> = Vec::new(self.alloc);
        for place in places {
            lits.push(self.lits[*place])?;
        }
        Ok(lits)
    }

    // The parity of different arguments: one variable for each first arguments from two on, the
    // last of which is the node's.
    fn parity(&mut self, nodes: &[Node], k: usize, args: &[usize]) -> Result<Lit, AllocError>
        requires formed { IsFormed nodes.now }
        requires encodes { IsEncoding nodes.now self.old }
        requires next { k ≡ length self.old.lits.items }
        requires here { slice_get nodes.now k ≡ Some (node_of.Xor args.now) }
        requires apart { Differ args.now }
        ensures { IfOk result (λ l. Defines nodes.now k self.old self.new l) }
    {
        let mut last = self.lits[args[0]];
        for i in 1..args.len() {
            let origin = if i + 1 == args.len() {
                Origin::Node(k)
            } else {
                Origin::Prefix {
                    node: k,
                    count: i + 1,
                }
            };
            let next = self.fresh(origin)?;
            let arg = self.lits[args[i]];
            add_even(self.alloc, &mut self.search, next, &[last, arg])?;
            last = next;
        }
        Ok(last)
    }

    /// The search's literals of a problem's literals. O(n) for n literals.
    pub fn node_lits(&self, lits: &[NodeLit]) -> Result<Vec<Lit>, AllocError>
        requires { All (λ l. l.node < length self.now.lits.items) lits.now }
        ensures { IfOk result (λ v. v.items ≡ map (assumed_at self.now.lits.items) lits.now) }
    {
        let mut turned: Vec<Lit> = Vec::new(self.alloc);
        for lit in lits {
            let known = self.lits[lit.node];
            turned.push(if lit.positive {
                known
            } else {
                known.opposite()
            })?;
        }
        Ok(turned)
    }
}

// Whether no number stands twice. Expected O(n) for n numbers.
fn are_different(alloc: Global, args: &[usize]) -> Result<bool, AllocError>
    ensures { IfOk result (λ b. IsTrue b → Differ args.now) }
{
    let mut seen: IndexSet<usize> = IndexSet::new(alloc);
    for arg in args {
        let is_new = seen.insert(*arg)?;
        if !is_new {
            return Ok(false);
        }
    }
    Ok(true)
}
