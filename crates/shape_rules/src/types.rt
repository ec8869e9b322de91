//! What a type is, takes and gives, by its shape.
ghost use Rattle.std.specs.Prelude.{◌≡◌};
ghost use Rattle.y_tree.specs.Plain.{plain_sort};
ghost use Rattle.shape_rules.specs.Rules.{is_kind, shape_width, shape_result, shape_takes, wanted_by, is_function, simple_of};

use crate::errors::Wanted;
use term_shapes::{TypeId, TypeShape};
use y_tree::Sort;

/// Whether a type of that shape is of the kind that is wanted; false where one type is wanted, and not a kind.
pub fn is_kind(wanted: Wanted, shape: &TypeShape) -> bool
    ensures { result ≡ is_kind wanted shape.now }
{
    match (wanted, shape) {
        (Wanted::Bool, TypeShape::Bool) => true,
        (Wanted::Real, TypeShape::Real) => true,
        (Wanted::AnyBv, TypeShape::Bv(_)) => true,
        (Wanted::AnyFun, TypeShape::Fun(_, _)) => true,
        _ => false,
    }
}

/// The width of a type of bit-vectors; 0 for others.
pub fn shape_width(shape: &TypeShape) -> u32
    ensures { result ≡ shape_width shape.now }
{
    match shape {
        TypeShape::Bv(width) => *width,
        _ => 0,
    }
}

/// The type of what a function of that type gives; for other types that of truth values.
pub fn shape_result(shape: &TypeShape) -> TypeId
    ensures { result ≡ shape_result shape.now }
{
    match shape {
        TypeShape::Fun(_, result_type) => *result_type,
        _ => TypeId { slot: 0, stamp: 0 },
    }
}

/// What a function of that type wants of the argument at that place, counted from 0, or of the value behind these; a
/// function where the type is none of functions.
pub fn wanted_by(shape: &TypeShape, place: usize) -> Wanted
    ensures { result ≡ wanted_by shape.now place }
{
    match shape {
        TypeShape::Fun(domain, result_type) => match domain.as_slice().get(place) {
            Some(of) => Wanted::Same(*of),
            None => Wanted::Same(*result_type),
        },
        _ => Wanted::AnyFun,
    }
}

/// Whether a function of that type takes so many arguments; true where the type is none of functions.
pub fn shape_takes(shape: &TypeShape, number: usize) -> bool
    ensures { result ≡ shape_takes shape.now number }
{
    match shape {
        TypeShape::Fun(domain, _) => domain.as_slice().len() == number,
        _ => true,
    }
}

/// Whether a type of that shape is one of functions.
pub fn is_function(shape: &TypeShape) -> bool
    ensures { result ≡ is_function shape.now }
{
    match shape {
        TypeShape::Fun(_, _) => true,
        _ => false,
    }
}

/// The sort of a type of that shape, where it is none of functions; for functions that of truth values.
#[tactic(auto, unfolding(y_tree::specs::Plain::plain_sort))]
pub fn simple_sort(shape: &TypeShape) -> Sort
    ensures { plain_sort result ≡ simple_of shape.now }
{
    match shape {
        TypeShape::Bool => Sort::Bool,
        TypeShape::Real => Sort::Real,
        TypeShape::Bv(width) => Sort::Bv(*width),
        TypeShape::Free(kind) => Sort::Free(*kind),
        TypeShape::Fun(_, _) => Sort::Bool,
    }
}
