//! What lines give, and what arguments stand for.
use y_io::Text;
use yices_api::{ContextId, Term, Terms, Turns, TypeId};

/// A handle that a line gave.
#[derive(Clone, Copy, Debug, PartialEq, Eq, Drop)]
pub enum Handle {
    /// Of a term.
    Term(Term),
    /// Of a type.
    TypeId(TypeId),
    /// Of a context.
    Context(ContextId),
}

/// What a line gave.
#[derive(Drop)]
pub enum Gave {
    /// Nothing that a later line can refer to.
    Nothing,
    /// A handle.
    Handle(Handle),
    /// A list of terms.
    Terms(Terms),
}

/// What an argument stands for.
#[derive(Debug, PartialEq, Eq, Drop)]
pub enum Meant {
    /// What an earlier line gave, or an entry of its list.
    Handle(Handle),
    /// A truth value.
    Flag(bool),
    /// A limit of turns.
    Turns(Turns),
    /// A name.
    Name(Text),
}
