//! The table.
ghost use Rattle.std.specs.Prelude.{◌≡◌, ℕ, ◌<◌, ◌≤◌, ◌+◌, Bool, List, Option, Some, None, IfOk, OnOk, OnErr, IfSome, IfNone, IfErr, IsSome, IsTrue, ◌↔◌, is_some, slice_get, length};
ghost use Rattle.std.specs.Option.{option_copied};
ghost use Rattle.stamped_slots.specs.Slots.{Slot, Adds, held_at, live, taken};
ghost use Rattle.term_shapes.specs.Shapes.{op_of, args_of, types_of, parts_of};
ghost use Rattle.y_tree.specs.Tree.{Tree, Trees};
ghost use Rattle.y_tree.specs.Sorts.{Sort};
ghost use Rattle.term_shapes.specs.declared.handles.Term.{Term};
ghost use Rattle.term_shapes.specs.declared.handles.TypeId.{TypeId};
ghost use Rattle.stamped_slots.specs.Regular.{IsAbsent, NoneWaits};
ghost use Rattle.shape_rules.specs.Rules.{IsOperator};
ghost use Rattle.table_slots.specs.Nodes.{RefusesSlot, meant_terms, meant_types, meant_marked};
ghost use Rattle.term_table.specs.Changes.{IsNoWidth, MakesConstant, MakesVariable, MakesType, RefusesAtom, CountsUp, CountsDown, CountsTypeUp, CountsTypeDown, RefusesUp, RefusesDown, RefusesTypeUp, RefusesTypeDown, IsClosed, Sweeps, FreedCounts, TakesUp, cleared, roots_marked, term_marked, type_marked, IsTyped, AddsTerm, AddsNode, RefusesTerm};
ghost use Rattle.term_table.specs.Checking.{IsShape, AddsShape};
ghost use Rattle.term_table.specs.Functions.{IsFunctionShape, AddsFunction, RefusesType};
ghost use Rattle.term_table.specs.Naming.{term_named, type_named, term_unnamed, type_unnamed, RefusesName, RefusesTypeName, names_marked};
ghost use Rattle.name_stacks.specs.Names.{newest, oldest_name};
ghost use Rattle.term_table.specs.Start.{IsNew};
ghost use Rattle.term_table.specs.World.{World, node_at, shape_at, type_at, type_shape_at, HasShape, HasType, HasTypeShape, Keeps, KeepsAll, KeepsType, IsTable};

use name_stacks::Names;
use shape_rules::TableError;
use stamped_slots::Slots;
use std::alloc::{AllocError, Global};
use std::marker::Model;
use table_slots::{
    LiveTerms, LiveTypes, mark_terms, mark_types, permanent_terms, permanent_types, put_term,
    put_type,
};
use term_shapes::{Node, Shape, Term, TypeId, TypeShape, node_equality, type_equality};

/// A handle that was taken off the worklist.
#[derive(Clone, Copy, Debug, PartialEq, Eq, Drop)]
pub enum Marked {
    /// Of a term.
    Term(Term),
    /// Of a type.
    TypeId(TypeId),
}

/// The table of types and terms.
#[derive(Drop)]
pub struct Table {
    alloc: Global,
    terms: Slots<Node>,
    types: Slots<TypeShape>,
    term_names: Names<Term>,
    type_names: Names<TypeId>,
    constants: u64,
    variables: u64,
    kinds: u64,
}

impl Model for Table {
    ghost use Rattle.term_table.specs.World.{World, IsTable};

    ghost Value = { World };

    ghost view = { λ t. record { terms = t.terms; types = t.types; term_names = t.term_names; type_names = t.type_names; constants = t.constants; variables = t.variables; kinds = t.kinds } };

    ghost invariant = { λ t. IsTable (record { terms = t.terms; types = t.types; term_names = t.term_names; type_names = t.type_names; constants = t.constants; variables = t.variables; kinds = t.kinds }) };
}

impl Table {
    /// Whether the term is live.
    pub fn is_live(&self, t: Term) -> bool
        ensures { result ≡ is_some (node_at self.now t) }
    {
        self.terms.get(t.slot, t.stamp).is_some()
    }

    /// Whether the type is live.
    pub fn is_live_type(&self, t: TypeId) -> bool
        ensures { result ≡ is_some (type_shape_at self.now t) }
    {
        self.types.get(t.slot, t.stamp).is_some()
    }

    /// The type of a live term.
    pub fn type_of(&self, t: Term) -> Option<TypeId>
        ensures { result ≡ type_at self.now t }
    {
        match self.terms.get(t.slot, t.stamp) {
            Some(node) => Some(node.of),
            None => None,
        }
    }

    /// The shape of a live term.
    pub fn shape(&self, t: Term) -> Option<&Shape>
        ensures { option_copied result ≡ shape_at self.now t }
    {
        match self.terms.get(t.slot, t.stamp) {
            Some(node) => Some(&node.shape),
            None => None,
        }
    }

    /// The shape of a live type.
    pub fn type_shape(&self, t: TypeId) -> Option<&TypeShape>
        ensures { option_copied result ≡ type_shape_at self.now t }
    {
        self.types.get(t.slot, t.stamp)
    }

    /// How many terms are live, in constant time.
    pub fn count_terms(&self) -> usize
        ensures { result ≡ live self.now.terms }
    {
        self.terms.len()
    }

    /// How many types are live, in constant time.
    pub fn count_types(&self) -> usize
        ensures { result ≡ live self.now.types }
    {
        self.types.len()
    }
}

impl Table {
    /// What always holds of a table: its handles stand for trees and sorts, and no two for one.
    pub fn is_table(&self)
        ensures { IsTable self.now }
    {
        let _ = &self.terms;
    }

    /// No two live handles of terms stand for one tree, and no two live handles of types for one sort.
    pub fn one_handle(&self)
        ensures tree { (t u : Term) (a : Tree) → Keeps self.now t a → Keeps self.now u a → t ≡ u }
        ensures sort { (t u : TypeId) (k : Sort) → KeepsType self.now t k → KeepsType self.now u k → t ≡ u }
    {
        let _ = &self.terms;
    }
}

impl Table {
    /// The term of a shape that `check_shape` takes: the live term of that shape, or a new one. The time is expected
    /// linear in the arguments.
    ///
    /// # Errors
    ///
    /// `TableFull` where the live and the retired slots are `2^22` and no live term has the shape; `NoMemory`. Then
    /// nothing changes.
    pub fn add(&mut self, shape: Shape) -> Result<Term, TableError>
        requires { (of : TypeId) × IsShape self.old shape of }
        ensures added { IfOk result (λ t. AddsShape self.old self.new shape t) }
        ensures full { IfErr result (λ e. RefusesTerm self.old shape e) }
        ensures err { OnErr result (self.new ≡ self.old) }
    {
        self.is_table();
        let of = self.given(&shape);
        self.add_typed(shape, of)
    }

    /// The term of a shape whose type is known.
    fn add_typed(&mut self, shape: Shape, of: TypeId) -> Result<Term, TableError>
        requires typed { IsTyped self.old shape of }
        requires operator { IsOperator shape }
        ensures added { IfOk result (λ t. AddsTerm self.old self.new t (record { shape = shape; of = of })) }
        ensures full { IfErr result (λ e. RefusesTerm self.old shape e) }
        ensures err { OnErr result (self.new ≡ self.old) }
    {
        node_equality();
        let node = Node { shape, of };
        if let Some(slot) = self.terms.find(&node) {
            let stamp = self.terms.stamp(slot);
            return Ok(Term { slot, stamp });
        }
        let (slot, stamp) = put_term(&mut self.terms, node)?;
        self.terms.regular();
        Ok(Term { slot, stamp })
    }
}

impl Table {
    /// Takes all marks away, and empties the worklist. The time is linear in what is live.
    pub fn clear_marks(&mut self)
        ensures { self.new ≡ cleared self.old }
    {
        self.terms.clear_marks();
        self.types.clear_marks();
        self.terms.regular();
        self.types.regular();
    }

    /// Marks a term that has no mark, and puts it on the worklist.
    pub fn mark(&mut self, t: Term)
        requires { IsSome (node_at self.old t) }
        ensures { self.new ≡ term_marked self.old t }
    {
        self.terms.mark(t.slot);
        self.terms.regular();
    }

    /// Marks a type that has no mark, and puts it on the worklist.
    pub fn mark_type(&mut self, t: TypeId)
        requires { IsSome (type_shape_at self.old t) }
        ensures { self.new ≡ type_marked self.old t }
    {
        self.types.mark(t.slot);
        self.types.regular();
    }

    /// Marks the permanent types and terms, and whatever is referred to. The time is linear in what is live.
    pub fn mark_counted(&mut self)
        ensures { self.new ≡ roots_marked self.old }
    {
        self.terms.mark_counted(2);
        self.types.mark_counted(130);
        self.terms.regular();
        self.types.regular();
    }

    /// Marks each meaning of each name, hidden ones too. The time is linear in the names.
    pub fn mark_named(&mut self)
        ensures { self.new ≡ names_marked self.old }
    {
        mark_terms(&mut self.terms, &self.term_names);
        mark_types(&mut self.types, &self.type_names);
        self.terms.regular();
        self.types.regular();
    }

    /// Takes one handle off the worklist; `None` where it is empty.
    pub fn next_marked(&mut self) -> Option<Marked>
        ensures some { IfSome result (λ m. TakesUp self.old m self.new) }
        ensures none { IfNone result (NoneWaits self.old.terms × NoneWaits self.old.types) }
        ensures same { IfNone result (self.new ≡ self.old) }
    {
        self.terms.regular();
        self.types.regular();
        if let Some(slot) = self.terms.next() {
            let stamp = self.terms.stamp(slot);
            self.terms.regular();
            return Some(Marked::Term(Term { slot, stamp }));
        }
        let slot = self.types.next()?;
        let stamp = self.types.stamp(slot);
        self.types.regular();
        Some(Marked::TypeId(TypeId { slot, stamp }))
    }

    /// Frees what has no mark, and takes all marks away. The answer is how many terms and types were freed. The time is
    /// linear in what was live.
    pub fn free_unmarked(&mut self) -> (u32, u32)
        requires { IsClosed self.old }
        ensures swept { Sweeps self.old self.new }
        ensures counts { FreedCounts self.old self.new result.0 result.1 }
    {
        let terms = self.terms.sweep();
        let types = self.types.sweep();
        self.terms.regular();
        self.types.regular();
        self.term_names.retain(&LiveTerms { terms: &self.terms });
        self.type_names.retain(&LiveTypes { types: &self.types });
        (terms, types)
    }
}

impl Table {
    /// Refers to a term once more.
    ///
    /// # Errors
    ///
    /// `DeadTerm`, then `CountFull`.
    pub fn incref(&mut self, t: Term) -> Result<(), TableError>
        ensures counted { OnOk result (CountsUp self.old self.new t) }
        ensures refused { IfErr result (λ e. RefusesUp self.old t e) }
        ensures same { OnErr result (self.new ≡ self.old) }
    {
        if self.terms.get(t.slot, t.stamp).is_none() {
            return Err(TableError::DeadTerm);
        }
        let count = self.terms.count(t.slot);
        if count == u32::MAX {
            return Err(TableError::CountFull);
        }
        self.terms.set_count(t.slot, count + 1);
        self.terms.regular();
        Ok(())
    }

    /// Refers to a term once less. A count of 0 frees nothing by itself.
    ///
    /// # Errors
    ///
    /// `DeadTerm`, then `CountZero`.
    pub fn decref(&mut self, t: Term) -> Result<(), TableError>
        ensures counted { OnOk result (CountsDown self.old self.new t) }
        ensures refused { IfErr result (λ e. RefusesDown self.old t e) }
        ensures same { OnErr result (self.new ≡ self.old) }
    {
        if self.terms.get(t.slot, t.stamp).is_none() {
            return Err(TableError::DeadTerm);
        }
        let count = self.terms.count(t.slot);
        if count == 0 {
            return Err(TableError::CountZero);
        }
        self.terms.set_count(t.slot, count - 1);
        self.terms.regular();
        Ok(())
    }

    /// Refers to a type once more.
    ///
    /// # Errors
    ///
    /// `DeadType`, then `CountFull`.
    pub fn incref_type(&mut self, t: TypeId) -> Result<(), TableError>
        ensures counted { OnOk result (CountsTypeUp self.old self.new t) }
        ensures refused { IfErr result (λ e. RefusesTypeUp self.old t e) }
        ensures same { OnErr result (self.new ≡ self.old) }
    {
        if self.types.get(t.slot, t.stamp).is_none() {
            return Err(TableError::DeadType(1));
        }
        let uses = self.types.count(t.slot);
        if uses == u32::MAX {
            return Err(TableError::CountFull);
        }
        self.types.set_count(t.slot, uses + 1);
        self.types.regular();
        Ok(())
    }

    /// Refers to a type once less. A count of 0 frees nothing by itself.
    ///
    /// # Errors
    ///
    /// `DeadType`, then `CountZero`.
    pub fn decref_type(&mut self, t: TypeId) -> Result<(), TableError>
        ensures counted { OnOk result (CountsTypeDown self.old self.new t) }
        ensures refused { IfErr result (λ e. RefusesTypeDown self.old t e) }
        ensures same { OnErr result (self.new ≡ self.old) }
    {
        if self.types.get(t.slot, t.stamp).is_none() {
            return Err(TableError::DeadType(1));
        }
        let uses = self.types.count(t.slot);
        if uses == 0 {
            return Err(TableError::CountZero);
        }
        self.types.set_count(t.slot, uses - 1);
        self.types.regular();
        Ok(())
    }
}

impl Table {
    /// A new constant of that type.
    ///
    /// # Errors
    ///
    /// `DeadType(1)`, then `TableFull` where no slot is left, then `NoMemory`. Then nothing changes.
    pub fn new_constant(&mut self, of: TypeId) -> Result<Term, TableError>
        ensures made { IfOk result (λ t. MakesConstant self.old self.new of t) }
        ensures refused { IfErr result (λ e. RefusesAtom self.old of e) }
        ensures same { OnErr result (self.new ≡ self.old) }
    {
        node_equality();
        if self.types.get(of.slot, of.stamp).is_none() {
            return Err(TableError::DeadType(1));
        }
        let number = self.constants;
        let shape = Shape::Const { number, of };
        let (slot, stamp) = put_term(&mut self.terms, Node { shape, of })?;
        self.constants = number + 1;
        self.terms.regular();
        Ok(Term { slot, stamp })
    }

    /// A new variable of that type.
    ///
    /// # Errors
    ///
    /// `DeadType(1)`, then `TableFull` where no slot is left, then `NoMemory`. Then nothing changes.
    pub fn new_variable(&mut self, of: TypeId) -> Result<Term, TableError>
        ensures made { IfOk result (λ t. MakesVariable self.old self.new of t) }
        ensures refused { IfErr result (λ e. RefusesAtom self.old of e) }
        ensures same { OnErr result (self.new ≡ self.old) }
    {
        node_equality();
        if self.types.get(of.slot, of.stamp).is_none() {
            return Err(TableError::DeadType(1));
        }
        let number = self.variables;
        let shape = Shape::Var { number, of };
        let (slot, stamp) = put_term(&mut self.terms, Node { shape, of })?;
        self.variables = number + 1;
        self.terms.regular();
        Ok(Term { slot, stamp })
    }

    /// A new uninterpreted type.
    ///
    /// # Errors
    ///
    /// `TableFull` where no slot is left, then `NoMemory`. Then nothing changes.
    pub fn new_type(&mut self) -> Result<TypeId, TableError>
        ensures made { IfOk result (λ t. MakesType self.old self.new t) }
        ensures refused { IfErr result (λ e. RefusesSlot self.old.types e) }
        ensures same { OnErr result (self.new ≡ self.old) }
    {
        type_equality();
        let number = self.kinds;
        let (slot, stamp) = put_type(&mut self.types, TypeShape::Free(number))?;
        self.kinds = number + 1;
        self.types.regular();
        Ok(TypeId { slot, stamp })
    }
}

impl Table {
    /// The allocator that the table was made with.
    pub(crate) fn allocator(&self) -> Global {
        self.alloc
    }

    /// The type of a shape of functions: the live type, or a new one.
    pub(crate) fn add_type(&mut self, shape: TypeShape) -> Result<TypeId, TableError>
        requires { IsFunctionShape self.old shape }
        ensures added { IfOk result (λ t. AddsFunction self.old self.new t shape) }
        ensures refused { IfErr result (λ e. RefusesType self.old shape e) }
        ensures same { OnErr result (self.new ≡ self.old) }
    {
        type_equality();
        if let Some(slot) = self.types.find(&shape) {
            let stamp = self.types.stamp(slot);
            return Ok(TypeId { slot, stamp });
        }
        let (slot, stamp) = put_type(&mut self.types, shape)?;
        self.types.regular();
        Ok(TypeId { slot, stamp })
    }
}

impl Table {
    /// A table with the 130 permanent types and the two permanent terms.
    ///
    /// # Errors
    ///
    /// Where memory is refused.
    pub fn new(alloc: Global) -> Result<Table, AllocError>
        ensures { IfOk result (λ table. IsNew table) }
    {
        node_equality();
        type_equality();
        let types = permanent_types(alloc)?;
        let terms = permanent_terms(alloc)?;
        types.regular();
        terms.regular();
        Ok(Table {
            alloc,
            terms,
            types,
            term_names: Names::new(alloc),
            type_names: Names::new(alloc),
            constants: 0,
            variables: 0,
            kinds: 0,
        })
    }

    /// The type of truth values.
    pub fn bool_type(&self) -> TypeId
        ensures { HasTypeShape self.now result TypeShape.Bool }
    {
        let _ = &self.terms;
        TypeId { slot: 0, stamp: 0 }
    }

    /// The type of real numbers.
    pub fn real_type(&self) -> TypeId
        ensures { HasTypeShape self.now result TypeShape.Real }
    {
        let _ = &self.terms;
        TypeId { slot: 1, stamp: 0 }
    }

    /// The term that is true.
    pub fn true_term(&self) -> Term
        ensures { HasShape self.now result Shape.True }
    {
        let _ = &self.terms;
        Term { slot: 0, stamp: 0 }
    }

    /// The term that is false.
    pub fn false_term(&self) -> Term
        ensures { HasShape self.now result Shape.False }
    {
        let _ = &self.terms;
        Term { slot: 1, stamp: 0 }
    }

    /// The type of bit-vectors of that width.
    ///
    /// # Errors
    ///
    /// `BadWidth` exactly where the width isn't from 1 to 128.
    pub fn bv_type(&self, width: u128) -> Result<TypeId, TableError>
        ensures ok { IfOk result (λ t. (1 ≤ width) × (width ≤ 128) × HasTypeShape self.now t (TypeShape.Bv width)) }
        ensures err { IfErr result (λ e. (e ≡ TableError.BadWidth width) × IsNoWidth width) }
    {
        let _ = &self.terms;
        if width < 1 || width > 128 {
            return Err(TableError::BadWidth(width));
        }
        let slot = width as u32 + 1;
        Ok(TypeId { slot, stamp: 0 })
    }
}

impl Table {
    /// Gives a name a new meaning, which hides its older ones.
    ///
    /// # Errors
    ///
    /// `DeadTerm`, then `NoMemory`. Then nothing changes.
    pub fn set_name(&mut self, name: &str, t: Term) -> Result<(), TableError>
        ensures named { OnOk result (self.new ≡ term_named self.old name.now t) }
        ensures live { OnOk result (IsSome (node_at self.old t)) }
        ensures refused { IfErr result (λ e. RefusesName self.old t e) }
        ensures same { OnErr result (self.new ≡ self.old) }
    {
        if self.terms.get(t.slot, t.stamp).is_none() {
            return Err(TableError::DeadTerm);
        }
        match self.term_names.push(name, t) {
            Ok(()) => Ok(()),
            Err(_) => Err(TableError::NoMemory),
        }
    }

    /// The newest meaning of a name, in expected constant time.
    pub fn by_name(&self, name: &str) -> Option<Term>
        ensures { result ≡ newest name.now self.now.term_names }
    {
        self.term_names.newest(name)
    }

    /// The name of the oldest meaning that is this term, hidden or not, in time linear in the names.
    pub fn name_of(&self, t: Term) -> Option<&str>
        ensures { option_copied result ≡ oldest_name ⟦<Term as PartialEq>⟧.eq t self.now.term_names }
    {
        self.term_names.name_of(t)
    }

    /// Takes the newest meaning of a name away, so that the older one is back. The answer is whether there was one.
    pub fn remove_name(&mut self, name: &str) -> bool
        ensures there { result ≡ is_some (newest name.now self.old.term_names) }
        ensures names { self.new ≡ term_unnamed self.old name.now }
    {
        self.term_names.remove(name)
    }

    /// Gives a name of types a new meaning, which hides its older ones.
    ///
    /// # Errors
    ///
    /// `DeadType(1)`, then `NoMemory`. Then nothing changes.
    pub fn set_type_name(&mut self, name: &str, t: TypeId) -> Result<(), TableError>
        ensures named { OnOk result (self.new ≡ type_named self.old name.now t) }
        ensures live { OnOk result (IsSome (type_shape_at self.old t)) }
        ensures refused { IfErr result (λ e. RefusesTypeName self.old t e) }
        ensures same { OnErr result (self.new ≡ self.old) }
    {
        if self.types.get(t.slot, t.stamp).is_none() {
            return Err(TableError::DeadType(1));
        }
        match self.type_names.push(name, t) {
            Ok(()) => Ok(()),
            Err(_) => Err(TableError::NoMemory),
        }
    }

    /// The newest meaning of a name of types, in expected constant time.
    pub fn type_by_name(&self, name: &str) -> Option<TypeId>
        ensures { result ≡ newest name.now self.now.type_names }
    {
        self.type_names.newest(name)
    }

    /// The name of the oldest meaning that is this type, hidden or not, in time linear in the names.
    pub fn type_name_of(&self, t: TypeId) -> Option<&str>
        ensures { option_copied result ≡ oldest_name ⟦<TypeId as PartialEq>⟧.eq t self.now.type_names }
    {
        self.type_names.name_of(t)
    }

    /// Takes the newest meaning of a name of types away, so that the older one is back. The answer is whether there was
    /// one.
    pub fn remove_type_name(&mut self, name: &str) -> bool
        ensures there { result ≡ is_some (newest name.now self.old.type_names) }
        ensures names { self.new ≡ type_unnamed self.old name.now }
    {
        self.type_names.remove(name)
    }
}
