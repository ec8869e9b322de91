//! Literals, their lists, and sketches.
ghost use Rattle.std.specs.Prelude.{◌≡◌, ◌++◌, ◌∷◌, [], OnOk, OnErr, length};
ghost use Rattle.term_sketches.specs.Sketches.{opposite, constant, plain, the_truth, same_literal, same_term, is_constant};

use std::alloc::{AllocError, Global};
use std::marker::Model;
use term_shapes::Term;

/// A term, or its negation.
#[derive(Clone, Copy, Debug, PartialEq, Eq)]
pub struct Literal {
    /// The term.
    pub atom: Term,
    /// Whether the literal is its negation.
    pub negated: bool,
}

/// A constructor of terms.
#[derive(Clone, Copy, Debug, PartialEq, Eq, Drop)]
pub enum Operator {
    /// The negation of one truth value.
    Not,
    /// All truth values are true.
    And,
    /// Some truth value is true.
    Or,
    /// An odd number of the truth values is true.
    Xor,
    /// The second truth value follows from the first.
    Implies,
    /// The two truth values are one.
    Iff,
    /// The second where the first is true, else the third.
    Ite,
    /// The two are one.
    Eq,
    /// The two differ.
    Neq,
    /// No two are one.
    Distinct,
}

/// What a constructor makes of literals.
#[derive(Drop)]
pub enum Sketch {
    /// A literal.
    OneLiteral(Literal),
    /// All literals are true: two or more, ascending.
    AllOf(Literals),
    /// Some literal is true: two or more, ascending.
    AnyOf(Literals),
    /// An odd number of the atoms is true, or an even one where the flag is set: three or more, ascending.
    OddOf {
        negated: bool,
        atoms: Atoms,
    },
    /// A choice between two literals.
    OneOf {
        test: Term,
        yes: Literal,
        no: Literal,
    },
    /// The two are one, or differ where the flag is set.
    Equal {
        negated: bool,
        left: Term,
        right: Term,
    },
    /// No two are one: three or more, ascending.
    Apart(Atoms),
}

/// The permanent term of truth.
pub const THE_TRUTH: Term = Term { slot: 0, stamp: 0 };

impl Literal {
    /// The term, not negated.
    pub fn plain(atom: Term) -> Literal
        ensures { result ≡ plain atom }
    {
        Literal {
            atom,
            negated: false,
        }
    }

    /// The literal of a truth value.
    pub fn constant(value: bool) -> Literal
        ensures { result ≡ constant value }
    {
        Literal {
            atom: THE_TRUTH,
            negated: !value,
        }
    }

    /// The opposite literal.
    pub fn opposite(self) -> Literal
        ensures { result ≡ opposite self }
    {
        Literal {
            atom: self.atom,
            negated: !self.negated,
        }
    }

    /// Whether the literal is that of a truth value.
    pub fn is_constant(self) -> bool
        ensures { result ≡ is_constant self }
    {
        is_same_term(self.atom, THE_TRUTH)
    }

    /// Whether the two are one literal.
    pub(crate) fn is_same(self, other: Literal) -> bool
        ensures { result ≡ same_literal self other }
    {
        is_same_term(self.atom, other.atom) && self.negated == other.negated
    }
}

/// Whether the two are one term.
pub(crate) fn is_same_term(left: Term, right: Term) -> bool
    ensures { result ≡ same_term left right }
{
    left.slot == right.slot && left.stamp == right.stamp
}

/// A list of literals.
#[derive(Drop)]
pub struct Literals {
    pub(crate) items: Vec<Literal>,
}

impl Model for Literals {
    ghost use Rattle.std.specs.Prelude.{List};
    ghost use Rattle.term_sketches.specs.declared.items.Literal.{Literal};

    ghost Value = { List Literal };

    ghost view = { λ a. a.items.items };
}

impl Literals {
    /// No items. This takes no memory.
    pub fn new(alloc: Global) -> Literals
        ensures { result ≡ [] }
    {
        Literals {
            items: Vec::new(alloc),
        }
    }

    /// One item more, at the end.
    ///
    /// # Errors
    ///
    /// Where memory is refused. Then the list stays as it was.
    pub fn push(&mut self, item: Literal) -> Result<(), AllocError>
        ensures ok { OnOk result (self.new ≡ self.old ++ item ∷ []) }
        ensures err { OnErr result (self.new ≡ self.old) }
    {
        self.items.push(item)?;
        Ok(())
    }

    /// How many items there are.
    pub fn len(&self) -> usize
        ensures { result ≡ length self.now }
    {
        self.items.len()
    }

    /// The items, in order.
    pub fn as_slice(&self) -> &[Literal]
        ensures { result.now ≡ self.now }
    {
        self.items.as_slice()
    }
}

/// A list of terms.
#[derive(Drop)]
pub struct Atoms {
    pub(crate) items: Vec<Term>,
}

impl Model for Atoms {
    ghost use Rattle.std.specs.Prelude.{List};
    ghost use Rattle.term_shapes.specs.declared.handles.Term.{Term};

    ghost Value = { List Term };

    ghost view = { λ a. a.items.items };
}

impl Atoms {
    /// No items. This takes no memory.
    pub fn new(alloc: Global) -> Atoms
        ensures { result ≡ [] }
    {
        Atoms {
            items: Vec::new(alloc),
        }
    }

    /// One item more, at the end.
    ///
    /// # Errors
    ///
    /// Where memory is refused. Then the list stays as it was.
    pub fn push(&mut self, item: Term) -> Result<(), AllocError>
        ensures ok { OnOk result (self.new ≡ self.old ++ item ∷ []) }
        ensures err { OnErr result (self.new ≡ self.old) }
    {
        self.items.push(item)?;
        Ok(())
    }

    /// How many items there are.
    pub fn len(&self) -> usize
        ensures { result ≡ length self.now }
    {
        self.items.len()
    }

    /// The items, in order.
    pub fn as_slice(&self) -> &[Term]
        ensures { result.now ≡ self.now }
    {
        self.items.as_slice()
    }
}
