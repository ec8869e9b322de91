//! From a handle to what it needs: a term's arguments, its type and the type that it names, and a type's parts.
//!
//! A shape lies in the table, and a mark changes the table. So each step looks the shape up anew, in constant time, and
//! takes the argument at its place.
ghost use Rattle.std.specs.Prelude.{◌≡◌, ◌∷◌, IfSome, IsSome, length, slice_get};
ghost use Rattle.term_shapes.specs.Shapes.{args_of, types_of, parts_of};
ghost use Rattle.term_shapes.specs.declared.shapes.Node.{Node};
ghost use Rattle.term_shapes.specs.declared.shapes.TypeShape.{TypeShape};
ghost use Rattle.term_table.specs.World.{node_at, type_shape_at, HasNode, HasTypeShape};
ghost use Rattle.term_collect.specs.Reach.{IsTermAt, IsTypeAt, IsTermOf, IsTypeOf, IsLive, Needs};
ghost use Rattle.term_collect.specs.Marking.{Marks};

use term_table::{Marked, Table, Term, TypeId};

/// The argument of a live term at that place.
#[tactic(auto, using(crate::proofs::Living::argument_found))]
fn argument(table: &Table, t: Term, place: usize) -> Option<Term>
    ensures at { (n : Node) → HasNode table.now t n → result ≡ slice_get (args_of n.shape) place }
    ensures live { IfSome result (λ u. IsSome (node_at table.now u)) }
{
    table.is_table();
    let Some(shape) = table.shape(t) else {
        return None;
    };
    shape.argument(place)
}

/// How many arguments a live term has.
fn count_arguments(table: &Table, t: Term) -> usize
    ensures { (n : Node) → HasNode table.now t n → result ≡ length (args_of n.shape) }
{
    let Some(shape) = table.shape(t) else {
        return 0;
    };
    shape.count_arguments()
}

/// The part of a live type at that place.
#[tactic(auto, using(crate::proofs::Living::part_found))]
fn part(table: &Table, t: TypeId, place: usize) -> Option<TypeId>
    ensures at { (s : TypeShape) → HasTypeShape table.now t s → result ≡ slice_get (parts_of s) place }
    ensures live { IfSome result (λ u. IsSome (type_shape_at table.now u)) }
{
    table.is_table();
    let Some(shape) = table.type_shape(t) else {
        return None;
    };
    shape.part(place)
}

/// How many parts a live type has.
fn count_parts(table: &Table, t: TypeId) -> usize
    ensures { (s : TypeShape) → HasTypeShape table.now t s → result ≡ length (parts_of s) }
{
    let Some(shape) = table.type_shape(t) else {
        return 0;
    };
    shape.count_parts()
}

/// The type of a live term.
#[tactic(auto, using(crate::proofs::Living::own_found))]
fn own_type(table: &Table, t: Term) -> Option<TypeId>
    ensures at { (n : Node) → HasNode table.now t n → result ≡ slice_get (n.of ∷ types_of n.shape) 0 }
    ensures live { IfSome result (λ u. IsSome (type_shape_at table.now u)) }
{
    table.is_table();
    table.type_of(t)
}

/// The type that a live term names, where it is a constant or a variable.
#[tactic(auto, using(crate::proofs::Living::named_found))]
fn named_type(table: &Table, t: Term) -> Option<TypeId>
    ensures at { (n : Node) → HasNode table.now t n → result ≡ slice_get (n.of ∷ types_of n.shape) 1 }
    ensures live { IfSome result (λ u. IsSome (type_shape_at table.now u)) }
{
    table.is_table();
    let Some(shape) = table.shape(t) else {
        return None;
    };
    shape.named_type()
}

/// Marks the argument at that place.
#[tactic(auto, using(crate::proofs::Sets::no_term_at))]
fn mark_argument(table: &mut Table, t: Term, place: usize)
    ensures { (n : Node) → HasNode table.old t n → Marks table.old table.new (IsTermAt (args_of n.shape) place) }
{
    let Some(of) = argument(table, t, place) else {
        return;
    };
    table.mark(of);
}

/// Marks the part at that place.
#[tactic(auto, using(crate::proofs::Sets::no_type_at))]
fn mark_part(table: &mut Table, t: TypeId, place: usize)
    ensures { (s : TypeShape) → HasTypeShape table.old t s → Marks table.old table.new (IsTypeAt (parts_of s) place) }
{
    let Some(of) = part(table, t, place) else {
        return;
    };
    table.mark_type(of);
}

/// Marks the type of a term.
fn mark_own_type(table: &mut Table, t: Term)
    ensures { (n : Node) → HasNode table.old t n → Marks table.old table.new (IsTypeAt (n.of ∷ types_of n.shape) 0) }
{
    let Some(of) = own_type(table, t) else {
        return;
    };
    table.mark_type(of);
}

/// Marks the type that a term names.
#[tactic(auto, using(crate::proofs::Sets::no_type_at))]
fn mark_named_type(table: &mut Table, t: Term)
    ensures { (n : Node) → HasNode table.old t n → Marks table.old table.new (IsTypeAt (n.of ∷ types_of n.shape) 1) }
{
    let Some(of) = named_type(table, t) else {
        return;
    };
    table.mark_type(of);
}

/// Marks all arguments of a term.
fn mark_arguments(table: &mut Table, t: Term)
    ensures { (n : Node) → HasNode table.old t n → Marks table.old table.new (IsTermOf (args_of n.shape)) }
{
    let count = count_arguments(table, t);
    for place in 0..count {
        mark_argument(table, t, place);
    }
}

/// Marks all parts of a type.
fn mark_parts(table: &mut Table, t: TypeId)
    ensures { (s : TypeShape) → HasTypeShape table.old t s → Marks table.old table.new (IsTypeOf (parts_of s)) }
{
    let count = count_parts(table, t);
    for place in 0..count {
        mark_part(table, t, place);
    }
}

/// Marks what a term needs.
fn mark_under(table: &mut Table, t: Term)
    requires { IsSome (node_at table.old t) }
    ensures { Marks table.old table.new (Needs table.old (Marked.Term t)) }
{
    mark_arguments(table, t);
    mark_own_type(table, t);
    mark_named_type(table, t);
}

/// Marks what a type needs.
fn mark_under_type(table: &mut Table, t: TypeId)
    requires { IsSome (type_shape_at table.old t) }
    ensures { Marks table.old table.new (Needs table.old (Marked.TypeId t)) }
{
    mark_parts(table, t);
}

/// Marks what a live handle needs.
pub fn mark_needs(table: &mut Table, of: Marked)
    requires { IsLive table.old of }
    ensures { Marks table.old table.new (Needs table.old of) }
{
    match of {
        Marked::Term(t) => mark_under(table, t),
        Marked::TypeId(t) => mark_under_type(table, t),
    }
}
