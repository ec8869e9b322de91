//! Sets of literals and of terms in their order.
ghost use Rattle.std.specs.Prelude.{◌≡◌, [], OnOk, IfOk, length, map};
ghost use Rattle.std.specs.BTreeSet.{insert_key};
ghost use Rattle.std.specs.List.{list_any};
ghost use Rattle.term_sketches.specs.Keys.{atom_of, literal_of};
ghost use Rattle.term_sketches.specs.Sketches.{has, literal_order, term_order, toggled};

use crate::items::{Atoms, Literal, Literals};
use std::alloc::{AllocError, Global};
use std::collections::BTreeSet;
use std::marker::Model;
use term_shapes::Term;

/// A term as its place in the order.
#[derive(Clone, Copy, PartialEq, Eq, PartialOrd, Ord)]
struct AtomKey {
    slot: u32,
    stamp: u32,
}

/// A literal as its place in the order.
#[derive(Clone, Copy, PartialEq, Eq, PartialOrd, Ord)]
struct LiteralKey {
    atom: AtomKey,
    negated: bool,
}

/// Literals in their order, each once.
#[derive(Drop)]
pub(crate) struct LiteralSet {
    set: BTreeSet<LiteralKey>,
}

impl Model for LiteralSet {
    ghost use Rattle.std.specs.Prelude.{List, map};
    ghost use Rattle.term_sketches.specs.declared.items.Literal.{Literal};
    ghost use Rattle.term_sketches.specs.Keys.{literal_of};

    ghost Value = { List Literal };

    ghost view = { λ s. map literal_of s.set.keys };
}

/// Terms in their order, each once.
#[derive(Drop)]
pub(crate) struct AtomSet {
    set: BTreeSet<AtomKey>,
}

impl Model for AtomSet {
    ghost use Rattle.std.specs.Prelude.{List, map};
    ghost use Rattle.term_shapes.specs.declared.handles.Term.{Term};
    ghost use Rattle.term_sketches.specs.Keys.{atom_of};

    ghost Value = { List Term };

    ghost view = { λ s. map atom_of s.set.keys };
}

/// The key of a term.
fn atom_key(atom: Term) -> AtomKey
    ensures { atom_of result ≡ atom }
{
    AtomKey {
        slot: atom.slot,
        stamp: atom.stamp,
    }
}

/// The key of a literal.
fn literal_key(literal: Literal) -> LiteralKey
    ensures { literal_of result ≡ literal }
{
    LiteralKey {
        atom: atom_key(literal.atom),
        negated: literal.negated,
    }
}

/// The literal of a key.
fn literal_of(key: LiteralKey) -> Literal
    ensures { result ≡ literal_of key }
{
    Literal {
        atom: Term {
            slot: key.atom.slot,
            stamp: key.atom.stamp,
        },
        negated: key.negated,
    }
}

/// The literals of the keys, in order.
fn literals_of(alloc: Global, keys: &BTreeSet<LiteralKey>) -> Result<Vec<Literal>, AllocError>
    ensures { IfOk result (λ list. list.items ≡ map literal_of keys.now.keys) }
{
    let mut list = Vec::new(alloc);
    for key in keys {
        list.push(literal_of(*key))?;
    }
    Ok(list)
}

/// The terms of the keys, in order.
fn atoms_of(alloc: Global, keys: &BTreeSet<AtomKey>) -> Result<Vec<Term>, AllocError>
    ensures { IfOk result (λ list. list.items ≡ map atom_of keys.now.keys) }
{
    keys.iter()
        .map(|key| Term {
            slot: key.slot,
            stamp: key.stamp,
        })
        .collect(alloc)
}

impl LiteralSet {
    /// The empty set. This takes no memory.
    pub(crate) fn new(alloc: Global) -> LiteralSet
        ensures { result ≡ [] }
    {
        LiteralSet {
            set: BTreeSet::new(alloc),
        }
    }

    /// Puts a literal in its place, unless it is there.
    pub(crate) fn insert(&mut self, literal: Literal) -> Result<(), AllocError>
        ensures { OnOk result (self.new ≡ insert_key literal_order self.old literal) }
    {
        self.set.insert(literal_key(literal))?;
        Ok(())
    }

    /// Whether the literal is there.
    pub(crate) fn contains(&self, literal: Literal) -> bool
        ensures { result ≡ has literal self.now }
    {
        self.set.contains(&literal_key(literal))
    }

    /// The literals as a list, in order.
    pub(crate) fn to_list(&self, alloc: Global) -> Result<Literals, AllocError>
        ensures { IfOk result (λ list. list ≡ self.now) }
    {
        let items = literals_of(alloc, &self.set)?;
        Ok(Literals { items })
    }
}

impl AtomSet {
    /// The empty set. This takes no memory.
    pub(crate) fn new(alloc: Global) -> AtomSet
        ensures { result ≡ [] }
    {
        AtomSet {
            set: BTreeSet::new(alloc),
        }
    }

    /// Puts a term in its place, unless it is there.
    pub(crate) fn insert(&mut self, atom: Term) -> Result<(), AllocError>
        ensures { OnOk result (self.new ≡ insert_key term_order self.old atom) }
    {
        self.set.insert(atom_key(atom))?;
        Ok(())
    }

    /// Puts a term in its place, or takes it out where it is there.
    pub(crate) fn toggle(&mut self, atom: Term) -> Result<(), AllocError>
        ensures { OnOk result (self.new ≡ toggled atom self.old) }
    {
        if self.set.remove(&atom_key(atom)) {
            return Ok(());
        }
        self.insert(atom)?;
        Ok(())
    }

    /// How many terms there are.
    pub(crate) fn len(&self) -> usize
        ensures { result ≡ length self.now }
    {
        self.set.len()
    }

    /// The terms as a list, in order.
    pub(crate) fn to_list(&self, alloc: Global) -> Result<Atoms, AllocError>
        ensures { IfOk result (λ list. list ≡ self.now) }
    {
        let items = atoms_of(alloc, &self.set)?;
        Ok(Atoms { items })
    }
}
