//! The listed handles: which of them is dead, and marks for them.
ghost use Rattle.std.specs.Prelude.{IfSome, IfNone};
ghost use Rattle.term_table.specs.Checking.{AreLive, IsFirstDead};
ghost use Rattle.term_collect.specs.Reach.{AreLiveTypes, IsFirstDeadType, IsTermOf, IsTypeOf};
ghost use Rattle.term_collect.specs.Marking.{Marks};

use term_table::{Table, Term, TypeId};

/// A listed handle that is dead, by its place in its list, counted from 1.
#[derive(Clone, Copy, Debug, PartialEq, Eq, Drop)]
pub enum DeadRoot {
    /// The term at that place.
    Term(usize),
    /// The type at that place.
    TypeId(usize),
}

/// The place of the first dead term of the list, counted from 1.
pub fn first_dead(table: &Table, roots: &[Term]) -> Option<usize>
    ensures some { IfSome result (λ place. IsFirstDead table.now roots.now place) }
    ensures none { IfNone result (AreLive table.now roots.now) }
{
    for (i, root) in roots.iter().enumerate() {
        if !table.is_live(*root) {
            return Some(i + 1);
        }
    }
    None
}

/// The place of the first dead type of the list, counted from 1.
pub fn first_dead_type(table: &Table, roots: &[TypeId]) -> Option<usize>
    ensures some { IfSome result (λ place. IsFirstDeadType table.now roots.now place) }
    ensures none { IfNone result (AreLiveTypes table.now roots.now) }
{
    for (i, root) in roots.iter().enumerate() {
        if !table.is_live_type(*root) {
            return Some(i + 1);
        }
    }
    None
}

/// Marks the terms of the list.
pub fn mark_terms(table: &mut Table, roots: &[Term])
    requires { AreLive table.old roots.now }
    ensures { Marks table.old table.new (IsTermOf roots.now) }
{
    for root in roots {
        table.mark(*root);
    }
}

/// Marks the types of the list.
pub fn mark_types(table: &mut Table, roots: &[TypeId])
    requires { AreLiveTypes table.old roots.now }
    ensures { Marks table.old table.new (IsTypeOf roots.now) }
{
    for root in roots {
        table.mark_type(*root);
    }
}
