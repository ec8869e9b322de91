//! The calls of the interface.
ghost use Rattle.std.specs.Prelude.{◌≡◌, ◌++◌, ◌∷◌, [], OnOk, OnErr, length};

use crate::handles::ContextId;
use std::alloc::{AllocError, Global};
use std::marker::Model;
use term_checks::Turns;
use term_table::{Marked, Term, Terms, TypeId};
use y_io::Text;

/// A list of handles of types and terms.
#[derive(Drop)]
pub struct MarkedList {
    items: Vec<Marked>,
}

impl Model for MarkedList {
    ghost use Rattle.std.specs.Prelude.{List};
    ghost use Rattle.term_table.specs.declared.table.Marked.{Marked};

    ghost Value = { List Marked };

    ghost view = { λ a. a.items.items };
}

impl MarkedList {
    /// No items. This takes no memory.
    pub fn new(alloc: Global) -> MarkedList
        ensures { result ≡ [] }
    {
        MarkedList {
            items: Vec::new(alloc),
        }
    }

    /// One item more, at the end.
    ///
    /// # Errors
    ///
    /// Where memory is refused. Then the list stays as it was.
    pub fn push(&mut self, item: Marked) -> Result<(), AllocError>
        ensures ok { OnOk result (self.new ≡ self.old ++ item ∷ []) }
        ensures err { OnErr result (self.new ≡ self.old) }
    {
        self.items.push(item)?;
        Ok(())
    }

    /// How many items there are.
    pub fn len(&self) -> usize
        ensures { result ≡ length self.now }
    {
        self.items.len()
    }

    /// The items, in order.
    pub fn as_slice(&self) -> &[Marked]
        ensures { result.now ≡ self.now }
    {
        self.items.as_slice()
    }
}

/// A call of the interface, with its arguments in order.
#[derive(Drop)]
pub enum Call {
    /// The type of truth values.
    BoolType,
    /// The term that is true.
    True,
    /// The term that is false.
    False,
    /// A new constant of that type.
    NewUninterpretedTerm(TypeId),
    /// A new variable of that type.
    NewVariable(TypeId),
    /// The negation of a truth value.
    Not(Term),
    /// All of the truth values are true.
    And(Terms),
    /// Some of the truth values is true.
    Or(Terms),
    /// An odd number of the truth values is true.
    Xor(Terms),
    /// The second truth value follows from the first.
    Implies(Term, Term),
    /// The two truth values are one.
    Iff(Term, Term),
    /// The second where the first is true, else the third.
    Ite(Term, Term, Term),
    /// The two are one.
    Eq(Term, Term),
    /// The two differ.
    Neq(Term, Term),
    /// No two are one.
    Distinct(Terms),
    /// The type of the term.
    TypeOfTerm(Term),
    /// The text of the term.
    PpTerm(Term),
    /// The term is referred to once more.
    IncrefTerm(Term),
    /// The term is referred to once less.
    DecrefTerm(Term),
    /// The type is referred to once more.
    IncrefType(TypeId),
    /// The type is referred to once less.
    DecrefType(TypeId),
    /// How many terms are live.
    NumTerms,
    /// How many types are live.
    NumTypes,
    /// Frees what nothing reaches; names count where the flag is set. The listed handles are kept.
    GarbageCollect(bool, MarkedList),
    /// Gives the name a new meaning, which hides its older ones.
    SetTermName(Text, Term),
    /// Gives the name a new meaning among types, which hides its older ones.
    SetTypeName(Text, TypeId),
    /// The newest meaning of the name.
    GetTermByName(Text),
    /// The newest meaning of the name among types.
    GetTypeByName(Text),
    /// The name of the oldest meaning that is this term.
    GetTermName(Term),
    /// The name of the oldest meaning that is this type.
    GetTypeName(TypeId),
    /// Takes the newest meaning of the name away.
    RemoveTermName(Text),
    /// Takes the newest meaning of the name among types away.
    RemoveTypeName(Text),
    /// A new context.
    NewContext,
    /// Frees the context.
    FreeContext(ContextId),
    /// Takes all levels and formulas of the context away.
    ResetContext(ContextId),
    /// Opens a level of the context.
    Push(ContextId),
    /// Takes the newest level of the context away.
    Pop(ContextId),
    /// What is known of the context's formulas.
    ContextStatus(ContextId),
    /// Asserts the term in the context.
    AssertFormula(ContextId, Term),
    /// Checks the context's formulas under a limit of turns.
    CheckContext(ContextId, Turns),
    /// Checks the context's formulas together with these assumptions under a limit of turns.
    CheckContextWithAssumptions(ContextId, Turns, Terms),
    /// The assumptions to blame, where the newest check of the context found some.
    GetUnsatCore(ContextId),
}
