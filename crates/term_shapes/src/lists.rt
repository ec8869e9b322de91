//! Lists of handles, with equality and hashing.
ghost use Rattle.std.specs.Prelude.{◌≡◌, ◌++◌, ◌∷◌, [], OnOk, OnErr, length};
ghost use Rattle.std.specs.Hash as fed;
ghost use Rattle.std.specs.Cmp.Lexicographic.{pointwise, lists_equiv};
ghost use Rattle.std.specs.Cmp.{partial_equiv_from_equiv};
ghost use Rattle.std.specs.Hash.{items_Alike};
ghost use Rattle.term_shapes.specs.contracts.handles.TermEq.TheImpl.Laws.{laws-law as Term-laws};
ghost use Rattle.term_shapes.specs.contracts.handles.TermHash.TheImpl.Laws.{respects_eq-law as Term-respects};
ghost use Rattle.term_shapes.specs.contracts.handles.TypeIdEq.TheImpl.Laws.{laws-law as TypeId-laws};
ghost use Rattle.term_shapes.specs.contracts.handles.TypeIdHash.TheImpl.Laws.{respects_eq-law as TypeId-respects};
ghost use Rattle.term_shapes.specs.contracts.lists.MonomialEq.TheImpl.Laws.{laws-law as Monomial-laws};
ghost use Rattle.term_shapes.specs.contracts.lists.MonomialHash.TheImpl.Laws.{respects_eq-law as Monomial-respects};

use crate::handles::{Term, TypeId};
use fraction128::Frac;
use smallvec::SmallVec;
use std::alloc::{AllocError, Global};
use std::hash::{Hash, Hasher};
use std::marker::Model;

/// A term with a factor.
#[derive(Clone, Copy, Debug, PartialEq, Eq, Hash)]
pub struct Monomial {
    /// The factor.
    pub factor: Frac,
    /// The term that it multiplies.
    pub of: Term,
}

/// The arguments of a term.
#[derive(Drop)]
pub struct Args {
    items: SmallVec<Term, 4>,
}

impl Model for Args {
    ghost use Rattle.std.specs.Prelude.{List};
    ghost use Rattle.term_shapes.specs.declared.handles.Term.{Term};

    ghost Value = { List Term };

    ghost view = { λ a. a.items.items };
}

impl Args {
    /// No items. This takes no memory.
    pub fn new(alloc: Global) -> Args
        ensures { result ≡ [] }
    {
        Args {
            items: SmallVec::new(alloc),
        }
    }

    /// One item more, at the end.
    ///
    /// # Errors
    ///
    /// Where memory is refused. Then the list stays as it was.
    pub fn push(&mut self, item: Term) -> Result<(), AllocError>
        ensures ok { OnOk result (self.new ≡ self.old ++ item ∷ []) }
        ensures err { OnErr result (self.new ≡ self.old) }
    {
        self.items.push(item)?;
        Ok(())
    }

    /// How many items there are.
    pub fn len(&self) -> usize
        ensures { result ≡ length self.now }
    {
        self.items.len()
    }

    /// The items, in order.
    pub fn as_slice(&self) -> &[Term]
        ensures { result.now ≡ self.now }
    {
        self.items.as_slice()
    }
}

impl PartialEq for Args {
    ghost eq = { pointwise ⟦<Term as PartialEq>⟧.eq };

    ghost laws = { partial_equiv_from_equiv (lists_equiv Term-laws) };

    fn eq(&self, other: &Args) -> bool {
        self.as_slice() == other.as_slice()
    }
}

impl Eq for Args {
    ghost laws = { lists_equiv Term-laws };
}

impl Hash for Args {
    ghost hash_input = { fed.slice ⟦<Term as Hash>⟧.hash_input };

    ghost respects_eq = { (items_Alike (record { fed = Term-respects })).fed };

    fn hash<H: Hasher>(&self, state: &mut H) {
        self.as_slice().hash(state);
    }
}

/// The arguments of a function type.
#[derive(Drop)]
pub struct TypeIds {
    items: SmallVec<TypeId, 4>,
}

impl Model for TypeIds {
    ghost use Rattle.std.specs.Prelude.{List};
    ghost use Rattle.term_shapes.specs.declared.handles.TypeId.{TypeId};

    ghost Value = { List TypeId };

    ghost view = { λ a. a.items.items };
}

impl TypeIds {
    /// No items. This takes no memory.
    pub fn new(alloc: Global) -> TypeIds
        ensures { result ≡ [] }
    {
        TypeIds {
            items: SmallVec::new(alloc),
        }
    }

    /// One item more, at the end.
    ///
    /// # Errors
    ///
    /// Where memory is refused. Then the list stays as it was.
    pub fn push(&mut self, item: TypeId) -> Result<(), AllocError>
        ensures ok { OnOk result (self.new ≡ self.old ++ item ∷ []) }
        ensures err { OnErr result (self.new ≡ self.old) }
    {
        self.items.push(item)?;
        Ok(())
    }

    /// How many items there are.
    pub fn len(&self) -> usize
        ensures { result ≡ length self.now }
    {
        self.items.len()
    }

    /// The items, in order.
    pub fn as_slice(&self) -> &[TypeId]
        ensures { result.now ≡ self.now }
    {
        self.items.as_slice()
    }
}

impl PartialEq for TypeIds {
    ghost eq = { pointwise ⟦<TypeId as PartialEq>⟧.eq };

    ghost laws = { partial_equiv_from_equiv (lists_equiv TypeId-laws) };

    fn eq(&self, other: &TypeIds) -> bool {
        self.as_slice() == other.as_slice()
    }
}

impl Eq for TypeIds {
    ghost laws = { lists_equiv TypeId-laws };
}

impl Hash for TypeIds {
    ghost hash_input = { fed.slice ⟦<TypeId as Hash>⟧.hash_input };

    ghost respects_eq = { (items_Alike (record { fed = TypeId-respects })).fed };

    fn hash<H: Hasher>(&self, state: &mut H) {
        self.as_slice().hash(state);
    }
}

/// The terms of a sum, each with its factor.
#[derive(Drop)]
pub struct Monomials {
    items: Vec<Monomial>,
}

impl Model for Monomials {
    ghost use Rattle.std.specs.Prelude.{List};
    ghost use Rattle.term_shapes.specs.declared.lists.Monomial.{Monomial};

    ghost Value = { List Monomial };

    ghost view = { λ a. a.items.items };
}

impl Monomials {
    /// No items. This takes no memory.
    pub fn new(alloc: Global) -> Monomials
        ensures { result ≡ [] }
    {
        Monomials {
            items: Vec::new(alloc),
        }
    }

    /// One item more, at the end.
    ///
    /// # Errors
    ///
    /// Where memory is refused. Then the list stays as it was.
    pub fn push(&mut self, item: Monomial) -> Result<(), AllocError>
        ensures ok { OnOk result (self.new ≡ self.old ++ item ∷ []) }
        ensures err { OnErr result (self.new ≡ self.old) }
    {
        self.items.push(item)?;
        Ok(())
    }

    /// How many items there are.
    pub fn len(&self) -> usize
        ensures { result ≡ length self.now }
    {
        self.items.len()
    }

    /// The items, in order.
    pub fn as_slice(&self) -> &[Monomial]
        ensures { result.now ≡ self.now }
    {
        self.items.as_slice()
    }
}

impl PartialEq for Monomials {
    ghost eq = { pointwise ⟦<Monomial as PartialEq>⟧.eq };

    ghost laws = { partial_equiv_from_equiv (lists_equiv Monomial-laws) };

    fn eq(&self, other: &Monomials) -> bool {
        self.as_slice() == other.as_slice()
    }
}

impl Eq for Monomials {
    ghost laws = { lists_equiv Monomial-laws };
}

impl Hash for Monomials {
    ghost hash_input = { fed.slice ⟦<Monomial as Hash>⟧.hash_input };

    ghost respects_eq = { (items_Alike (record { fed = Monomial-respects })).fed };

    fn hash<H: Hasher>(&self, state: &mut H) {
        self.as_slice().hash(state);
    }
}

/// A list of terms.
#[derive(Drop)]
pub struct Terms {
    items: Vec<Term>,
}

impl Model for Terms {
    ghost use Rattle.std.specs.Prelude.{List};
    ghost use Rattle.term_shapes.specs.declared.handles.Term.{Term};

    ghost Value = { List Term };

    ghost view = { λ a. a.items.items };
}

impl Terms {
    /// No items. This takes no memory.
    pub fn new(alloc: Global) -> Terms
        ensures { result ≡ [] }
    {
        Terms {
            items: Vec::new(alloc),
        }
    }

    /// One item more, at the end.
    ///
    /// # Errors
    ///
    /// Where memory is refused. Then the list stays as it was.
    pub fn push(&mut self, item: Term) -> Result<(), AllocError>
        ensures ok { OnOk result (self.new ≡ self.old ++ item ∷ []) }
        ensures err { OnErr result (self.new ≡ self.old) }
    {
        self.items.push(item)?;
        Ok(())
    }

    /// How many items there are.
    pub fn len(&self) -> usize
        ensures { result ≡ length self.now }
    {
        self.items.len()
    }

    /// The items, in order.
    pub fn as_slice(&self) -> &[Term]
        ensures { result.now ≡ self.now }
    {
        self.items.as_slice()
    }
}
