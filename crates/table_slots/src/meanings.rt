//! What names mean, in the slots: which meanings are live, and marking them.
ghost use Rattle.std.specs.Prelude.{◌≡◌, ℕ, List, Some, IsSome, is_some, slice_get};
ghost use Rattle.stamped_slots.specs.Slots.{held_at};
ghost use Rattle.term_shapes.specs.declared.handles.Term.{Term};
ghost use Rattle.term_shapes.specs.declared.handles.TypeId.{TypeId};
ghost use Rattle.table_slots.specs.Nodes.{meant_terms, meant_types, meant_marked};

use name_stacks::{Keeps, Names};
use stamped_slots::Slots;
use term_shapes::{Node, Term, TypeId, TypeShape};

/// A test whether a term is live.
#[derive(Drop)]
pub struct LiveTerms<'a> {
    /// The slots of the terms.
    pub terms: &'a Slots<Node>,
}

impl<'a> Keeps<Term> for LiveTerms<'a> {
    ghost passes = { λ l t. is_some (held_at l.terms.now t.slot t.stamp) };

    fn keeps(&self, of: Term) -> bool {
        self.terms.get(of.slot, of.stamp).is_some()
    }
}

/// A test whether a type is live.
#[derive(Drop)]
pub struct LiveTypes<'a> {
    /// The slots of the types.
    pub types: &'a Slots<TypeShape>,
}

impl<'a> Keeps<TypeId> for LiveTypes<'a> {
    ghost passes = { λ l t. is_some (held_at l.types.now t.slot t.stamp) };

    fn keeps(&self, of: TypeId) -> bool {
        self.types.get(of.slot, of.stamp).is_some()
    }
}

/// Marks the terms that the names mean, which are live. The time is linear in the names.
pub fn mark_terms(terms: &mut Slots<Node>, names: &Names<Term>)
    requires { (i : ℕ) (p : List ℕ × Term) → slice_get names.now i ≡ Some p → IsSome (held_at terms.old p.1.slot p.1.stamp) }
    ensures { terms.new ≡ meant_marked (meant_terms names.now) terms.old }
{
    for place in 0..names.len() {
        if let Some(t) = names.meaning(place) {
            terms.mark(t.slot);
        }
    }
}

/// Marks the types that the names mean, which are live. The time is linear in the names.
pub fn mark_types(types: &mut Slots<TypeShape>, names: &Names<TypeId>)
    requires { (i : ℕ) (p : List ℕ × TypeId) → slice_get names.now i ≡ Some p → IsSome (held_at types.old p.1.slot p.1.stamp) }
    ensures { types.new ≡ meant_marked (meant_types names.now) types.old }
{
    for place in 0..names.len() {
        if let Some(t) = names.meaning(place) {
            types.mark(t.slot);
        }
    }
}
