//! Lists of literals, of clauses and of values. Contracts see each as a list.

ghost use Rattle.std.specs.Prelude.{◌≡◌, ◌++◌, ◌∷◌, ◌↔◌, [], length, OnOk, OnErr, IsTrue};

use crate::Lit;
use std::alloc::{AllocError, Global};
use std::marker::Model;

/// A list of literals.
#[derive(Drop)]
pub struct Lits {
    items: Vec<Lit>,
}

impl Model for Lits {
    ghost use Rattle.std.specs.Prelude.{List};
    ghost use Rattle.clause_logic.specs.declared.Lit.{Lit};

    ghost Value = { List Lit };

    ghost view = { λ l. l.items.items };
}

impl Lits {
    /// The empty list. It takes no memory.
    pub fn new(alloc: Global) -> Lits
        ensures { result ≡ [] }
    {
        Lits {
            items: Vec::new(alloc),
        }
    }

    /// The list of a vector's elements, in order. It takes no memory.
    pub fn from_vec(items: Vec<Lit>) -> Lits
        ensures { result ≡ items.items }
    {
        Lits { items }
    }

    /// The elements as a vector, in order. It takes no memory.
    pub fn into_vec(self) -> Vec<Lit>
        ensures { result.items ≡ self }
    {
        let Lits { items } = self;
        items
    }

    /// How many elements there are.
    pub fn len(&self) -> usize
        ensures { result ≡ length self.now }
    {
        self.items.len()
    }

    /// Whether there is no element.
    pub fn is_empty(&self) -> bool
        ensures { IsTrue result ↔ (self.now ≡ []) }
    {
        self.items.is_empty()
    }

    /// The elements, in order.
    pub fn as_slice(&self) -> &[Lit]
        ensures { result.now ≡ self.now }
    {
        self.items.as_slice()
    }

    /// Puts an element at the end, in amortized constant time. Where memory is refused, the list
    /// stays as it was.
    pub fn push(&mut self, item: Lit) -> Result<(), AllocError>
        ensures ok { OnOk result (self.new ≡ self.old ++ item ∷ []) }
        ensures err { OnErr result (self.new ≡ self.old) }
    {
        self.items.push(item)?;
        Ok(())
    }
}

/// A clause: some literal of it is to be true.
#[derive(Drop)]
pub struct Clause {
    items: Vec<Lit>,
}

impl Model for Clause {
    ghost use Rattle.std.specs.Prelude.{List};
    ghost use Rattle.clause_logic.specs.declared.Lit.{Lit};

    ghost Value = { List Lit };

    ghost view = { λ l. l.items.items };
}

impl Clause {
    /// The empty list. It takes no memory.
    pub fn new(alloc: Global) -> Clause
        ensures { result ≡ [] }
    {
        Clause {
            items: Vec::new(alloc),
        }
    }

    /// The list of a vector's elements, in order. It takes no memory.
    pub fn from_vec(items: Vec<Lit>) -> Clause
        ensures { result ≡ items.items }
    {
        Clause { items }
    }

    /// The elements as a vector, in order. It takes no memory.
    pub fn into_vec(self) -> Vec<Lit>
        ensures { result.items ≡ self }
    {
        let Clause { items } = self;
        items
    }

    /// How many elements there are.
    pub fn len(&self) -> usize
        ensures { result ≡ length self.now }
    {
        self.items.len()
    }

    /// Whether there is no element.
    pub fn is_empty(&self) -> bool
        ensures { IsTrue result ↔ (self.now ≡ []) }
    {
        self.items.is_empty()
    }

    /// The elements, in order.
    pub fn as_slice(&self) -> &[Lit]
        ensures { result.now ≡ self.now }
    {
        self.items.as_slice()
    }

    /// Puts an element at the end, in amortized constant time. Where memory is refused, the list
    /// stays as it was.
    pub fn push(&mut self, item: Lit) -> Result<(), AllocError>
        ensures ok { OnOk result (self.new ≡ self.old ++ item ∷ []) }
        ensures err { OnErr result (self.new ≡ self.old) }
    {
        self.items.push(item)?;
        Ok(())
    }
}

/// A list of clauses.
#[derive(Drop)]
pub struct Clauses {
    items: Vec<Clause>,
}

impl Model for Clauses {
    ghost use Rattle.std.specs.Prelude.{List};
    ghost use Rattle.clause_logic.specs.declared.Lit.{Lit};

    ghost Value = { List (List Lit) };

    ghost view = { λ l. l.items.items };
}

impl Clauses {
    /// The empty list. It takes no memory.
    pub fn new(alloc: Global) -> Clauses
        ensures { result ≡ [] }
    {
        Clauses {
            items: Vec::new(alloc),
        }
    }

    /// The list of a vector's elements, in order. It takes no memory.
    pub fn from_vec(items: Vec<Clause>) -> Clauses
        ensures { result ≡ items.items }
    {
        Clauses { items }
    }

    /// The elements as a vector, in order. It takes no memory.
    pub fn into_vec(self) -> Vec<Clause>
        ensures { result.items ≡ self }
    {
        let Clauses { items } = self;
        items
    }

    /// How many elements there are.
    pub fn len(&self) -> usize
        ensures { result ≡ length self.now }
    {
        self.items.len()
    }

    /// Whether there is no element.
    pub fn is_empty(&self) -> bool
        ensures { IsTrue result ↔ (self.now ≡ []) }
    {
        self.items.is_empty()
    }

    /// The elements, in order.
    pub fn as_slice(&self) -> &[Clause]
        ensures { result.now ≡ self.now }
    {
        self.items.as_slice()
    }

    /// Puts an element at the end, in amortized constant time. Where memory is refused, the list
    /// stays as it was.
    pub fn push(&mut self, item: Clause) -> Result<(), AllocError>
        ensures ok { OnOk result (self.new ≡ self.old ++ item ∷ []) }
        ensures err { OnErr result (self.new ≡ self.old) }
    {
        self.items.push(item)?;
        Ok(())
    }
}

/// The values of the variables, by their numbers; `None` where a variable has none.
#[derive(Drop)]
pub struct Assignment {
    items: Vec<Option<bool>>,
}

impl Model for Assignment {
    ghost use Rattle.std.specs.Prelude.{List, Option, Bool};

    ghost Value = { List (Option Bool) };

    ghost view = { λ l. l.items.items };
}

impl Assignment {
    /// The empty list. It takes no memory.
    pub fn new(alloc: Global) -> Assignment
        ensures { result ≡ [] }
    {
        Assignment {
            items: Vec::new(alloc),
        }
    }

    /// The list of a vector's elements, in order. It takes no memory.
    pub fn from_vec(items: Vec<Option<bool>>) -> Assignment
        ensures { result ≡ items.items }
    {
        Assignment { items }
    }

    /// The elements as a vector, in order. It takes no memory.
    pub fn into_vec(self) -> Vec<Option<bool>>
        ensures { result.items ≡ self }
    {
        let Assignment { items } = self;
        items
    }

    /// How many elements there are.
    pub fn len(&self) -> usize
        ensures { result ≡ length self.now }
    {
        self.items.len()
    }

    /// Whether there is no element.
    pub fn is_empty(&self) -> bool
        ensures { IsTrue result ↔ (self.now ≡ []) }
    {
        self.items.is_empty()
    }

    /// The elements, in order.
    pub fn as_slice(&self) -> &[Option<bool>]
        ensures { result.now ≡ self.now }
    {
        self.items.as_slice()
    }

    /// Puts an element at the end, in amortized constant time. Where memory is refused, the list
    /// stays as it was.
    pub fn push(&mut self, item: Option<bool>) -> Result<(), AllocError>
        ensures ok { OnOk result (self.new ≡ self.old ++ item ∷ []) }
        ensures err { OnErr result (self.new ≡ self.old) }
    {
        self.items.push(item)?;
        Ok(())
    }
}
