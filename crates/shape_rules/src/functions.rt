//! The parts of a type of functions.
ghost use Rattle.std.specs.Prelude.{◌≡◌, ◌++◌, ◌∷◌, [], IfOk, IfErr, slice_get};
ghost use Rattle.shape_rules.specs.Rules.{is_arity};

use crate::errors::TableError;
use std::alloc::{AllocError, Global};
use term_shapes::{TypeId, TypeIds, TypeShape};

/// Whether a function may have so many arguments: from 1 to 16.
pub fn is_arity(number: usize) -> bool
    ensures { result ≡ is_arity number }
{
    1 <= number && number <= 16
}

/// The type at that place, counted from 0, with the last one behind the others; `None` behind that.
pub fn part(arguments: &[TypeId], value: TypeId, place: usize) -> Option<TypeId>
    ensures { result ≡ slice_get (arguments.now ++ value ∷ []) place }
{
    if place == arguments.len() {
        return Some(value);
    }
    arguments.get(place).copied()
}

/// The shape of functions from these types to that one, in time linear in the types.
///
/// # Errors
///
/// `NoMemory`.
pub fn function_shape(
    alloc: Global,
    arguments: &[TypeId],
    value: TypeId,
) -> Result<TypeShape, TableError>
    ensures ok { IfOk result (λ s. s ≡ TypeShape.Fun arguments.now value) }
    ensures err { IfErr result (λ e. e ≡ TableError.NoMemory) }
{
    match copied(alloc, arguments) {
        Ok(domain) => Ok(TypeShape::Fun(domain, value)),
        Err(_) => Err(TableError::NoMemory),
    }
}

/// A copy of the types.
fn copied(alloc: Global, types: &[TypeId]) -> Result<TypeIds, AllocError>
    ensures { IfOk result (λ copies. copies ≡ types.now) }
{
    let mut copies = TypeIds::new(alloc);
    for of in types {
        copies.push(*of)?;
    }
    Ok(copies)
}
