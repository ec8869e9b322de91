//! Boolean terms as numbered nodes, and their encoding into the clauses of a search.
//!
//! A [`Problem`] is a list of nodes, each an operator over earlier nodes, so that a node's number stands for a tree. An
//! [`Encoding`] holds a search, the literal of each encoded node, and what each variable stands for. It takes one node
//! after another, and keeps one relation to them, `IsEncoding`, whose parts are the laws of [`encodings`]. Sound: under
//! every assignment the truths of what the variables stand for make all clauses true, and each literal has the truth of
//! its node. Complete: in every assignment that makes the clauses true each node has its meaning under the values read
//! off for the constants. Strong: unit propagation over the clauses finds all that it finds over the defining clauses of
//! the nodes.
//!
//! It is right since all of it is said of literals and truth values, never of trees. A node's literal is a gate over its
//! arguments' literals, by clauses that are true just where its truth value is the one that the operator makes (Tseitin,
//! On the complexity of derivation in propositional calculus, 1968), and each defining clause of the node is one of
//! these, or is propagated by them. It stays a gate where clauses and variables are added. So a search can stay from
//! check to check, and get the nodes of later ones as they come: what a check asserts is added behind a `push` of the
//! search, and its `pop` leaves the encoding as it was.
//!
//! A theory joins with literals of its own. Its variables are one more kind of [`Origin`], which has a truth value under
//! each assignment: a bit of a constant, a gate of a circuit, an order of two sums, an equality of two elements. Its
//! nodes are seen as words of literals, sums, or elements in place of one literal. Gates over these literals keep the
//! three laws, since the laws ask nothing of what a variable stands for. Where no clauses tie the variables, a checker of
//! the search does: it stands for clauses that are true wherever each variable has the truth of its origin.
#![tactic(auto)]

ghost use Rattle.std.specs.Prelude.{◌≡◌, ℕ, ◌<◌, ◌≤◌, ◌+◌, [], ◌∷◌, ◌++◌, ◌↔◌, length, All, slice_get, IsTrue, IfOk, OnOk, OnErr, if◌then◌else◌, is_ok};
ghost use Rattle.std.specs.Option.{option_copied};
ghost use Rattle.node_encoding.specs.Nodes.{Fits, IsFormed, OlderTreesStay, NewTreeOverArguments};
ghost use Rattle.node_encoding.specs.Laws.{EncodingsAreSound, EncodingsAreShaped, EncodingsAreComplete, EncodingsAreStrong};

use std::alloc::{AllocError, Global};
use std::marker::Model;

mod encoding;
mod gates;

pub use encoding::{Encoding, Origin};

/// A list of numbers: of nodes, or of places in another list.
#[derive(Debug, Drop)]
pub struct Places {
    items: Vec<usize>,
}

impl Model for Places {
    ghost use Rattle.std.specs.Prelude.{ℕ, List};

    ghost Value = { List ℕ };

    ghost view = { λ p. p.items.items };
}

impl Places {
    /// The empty list. Takes no memory.
    pub fn new(alloc: Global) -> Self
        ensures { result ≡ [] }
    {
        Places {
            items: Vec::new(alloc),
        }
    }

    /// Adds a number at the end. On an error the list is as before. O(1) amortized.
    pub fn push(&mut self, item: usize) -> Result<(), AllocError>
        ensures ok { OnOk result (self.new ≡ self.old ++ item ∷ []) }
        ensures err { OnErr result (self.new ≡ self.old) }
    {
        self.items.push(item)?;
        Ok(())
    }

    /// How many numbers there are. O(1).
    pub fn len(&self) -> usize
        ensures { result ≡ length self.now }
    {
        self.items.len()
    }

    /// Whether there are none. O(1).
    pub fn is_empty(&self) -> bool
        ensures { IsTrue result ↔ (self.now ≡ []) }
    {
        self.items.is_empty()
    }

    /// The numbers in order. O(1).
    pub fn as_slice(&self) -> &[usize]
        ensures { result.now ≡ self.now }
    {
        self.items.as_slice()
    }
}

/// A literal: a node, by its number, that is to be true or to be false.
#[derive(Clone, Copy, Debug, PartialEq, Eq)]
pub struct NodeLit {
    /// The number of a Boolean node.
    pub node: usize,
    /// Whether the node is to be true.
    pub positive: bool,
}

/// An operator over nodes, which are given by their numbers.
#[derive(Debug, Drop)]
pub enum Node {
    /// The truth value true.
    True,
    /// The truth value false.
    False,
    /// A Boolean constant, whose value is to be found. Nodes with one number have one value.
    Const {
        /// The number of the constant.
        number: u64,
    },
    /// The negation of a node.
    Not(usize),
    /// The conjunction of one or more nodes.
    And(Places),
    /// The disjunction of one or more nodes.
    Or(Places),
    /// Whether an odd number of one or more nodes is true.
    Xor(Places),
    /// The second node where the first is true, and the third elsewhere.
    Ite(usize, usize, usize),
    /// Whether two nodes have one value.
    Eq(usize, usize),
    /// Whether no two of one or more nodes have one value.
    Distinct(Places),
}

/// Numbered nodes, from 0 on, each over earlier ones.
#[derive(Debug, Drop)]
pub struct Problem {
    nodes: Vec<Node>,
}

impl Model for Problem {
    ghost use Rattle.std.specs.Prelude.{List};
    ghost use Rattle.node_encoding.specs.declared.Node.{Node};
    ghost use Rattle.node_encoding.specs.Nodes.{IsFormed};

    ghost Value = { List Node };

    ghost view = { λ p. p.nodes.items };

    ghost invariant = { λ p. IsFormed p.nodes.items };
}

impl Problem {
    /// No nodes. Takes no memory.
    pub fn new(alloc: Global) -> Problem
        ensures { result ≡ [] }
    {
        Problem {
            nodes: Vec::new(alloc),
        }
    }

    /// How many nodes there are. O(1).
    pub fn len(&self) -> usize
        ensures count { result ≡ length self.now }
        ensures formed { IsFormed self.now }
    {
        self.nodes.len()
    }

    /// Whether there are none. O(1).
    pub fn is_empty(&self) -> bool
        ensures { IsTrue result ↔ (self.now ≡ []) }
    {
        self.nodes.is_empty()
    }

    /// The nodes in order. O(1).
    pub fn as_slice(&self) -> &[Node]
        ensures value { result.now ≡ self.now }
        ensures formed { IsFormed result.now }
    {
        self.nodes.as_slice()
    }

    /// The node with that number, and none where the number is past the last. O(1).
    pub fn node(&self, k: usize) -> Option<&Node>
        ensures { option_copied result ≡ slice_get self.now k }
    {
        self.nodes.as_slice().get(k)
    }

    /// Whether the node may come next: its arguments are nodes of the problem, and as many as its
    /// operator takes. O(n) for n arguments.
    pub fn fits(&self, node: &Node) -> bool
        ensures { IsTrue result ↔ Fits self.now node.now }
    {
        let count = self.nodes.len();
        match node {
            Node::True => true,
            Node::False => true,
            Node::Const { number: _ } => true,
            Node::Not(argument) => *argument < count,
            Node::And(arguments) => are_arguments(arguments.as_slice(), count),
            Node::Or(arguments) => are_arguments(arguments.as_slice(), count),
            Node::Xor(arguments) => are_arguments(arguments.as_slice(), count),
            Node::Ite(c, a, b) => *c < count && *a < count && *b < count,
            Node::Eq(a, b) => *a < count && *b < count,
            Node::Distinct(arguments) => are_arguments(arguments.as_slice(), count),
        }
    }

    /// Adds a node that fits, and answers its number. On an error the problem is as before.
    /// O(1) amortized.
    pub fn add(&mut self, node: Node) -> Result<usize, AllocError>
        requires { Fits self.old node }
        ensures number { IfOk result (λ k. k ≡ length self.old) }
        ensures added { OnOk result (self.new ≡ self.old ++ node ∷ []) }
        ensures err { OnErr result (self.new ≡ self.old) }
    {
        let number = self.nodes.len();
        self.nodes.push(node)?;
        Ok(number)
    }
}

// Whether there are numbers, and each is below the count.
fn are_arguments(numbers: &[usize], count: usize) -> bool
    ensures some { IsTrue result → 0 < length numbers.now }
    ensures below { IsTrue result → All (λ n. n < count) numbers.now }
    ensures fails { All (λ n. n < count) numbers.now → 0 < length numbers.now → IsTrue result }
{
    !numbers.is_empty() && numbers.iter().all(|n| *n < count)
}

/// Nodes that are added later change no tree, and the tree of a new node stands over the trees of
/// its arguments. Does nothing: its clauses are laws.
pub fn trees_of_nodes()
    ensures older { OlderTreesStay }
    ensures new { NewTreeOverArguments }
{}

/// What the literals and clauses of an encoding say of its nodes. Does nothing: its clauses are laws.
pub fn encodings()
    ensures sound { EncodingsAreSound }
    ensures shaped { EncodingsAreShaped }
    ensures complete { EncodingsAreComplete }
    ensures strong { EncodingsAreStrong }
{}
