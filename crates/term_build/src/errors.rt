//! Why a constructor was refused.
ghost use Rattle.std.specs.Prelude.{◌≡◌};
ghost use Rattle.term_build.specs.Refusing.{told, refused};

use std::alloc::AllocError;
use term_table::{ShapeError, TableError, TypeId, Wanted};

/// Why a constructor was refused.
#[derive(Clone, Copy, Debug, PartialEq, Eq, Drop)]
pub enum BuildError {
    /// The argument at that place is no live term.
    DeadTerm(usize),
    /// That is a wrong number of arguments.
    BadArity(usize),
    /// The argument at that place has another type than is wanted.
    WrongType {
        place: usize,
        wanted: Wanted,
        found: TypeId,
    },
    /// The bit-vector at that place has another width than the first.
    WidthsDiffer {
        place: usize,
        left: u32,
        right: u32,
    },
    /// That is no width from 1 to 128.
    BadWidth(u128),
    /// The numbers are out of range.
    BadRange,
    /// No slot is left.
    TableFull,
    /// Memory was refused.
    NoMemory,
}

/// The refusal of a shape that is no atom, as that of a call.
pub(crate) fn from_shape(e: ShapeError) -> BuildError
    ensures { result ≡ told e }
{
    match e {
        ShapeError::Atom => BuildError::NoMemory,
        ShapeError::DeadTerm(place) => BuildError::DeadTerm(place),
        ShapeError::BadArity(count) => BuildError::BadArity(count),
        ShapeError::WrongType {
            place,
            wanted,
            found,
        } => BuildError::WrongType {
            place,
            wanted,
            found,
        },
        ShapeError::WidthsDiffer { place, left, right } => BuildError::WidthsDiffer {
            place,
            left,
            right,
        },
        ShapeError::BadWidth(width) => BuildError::BadWidth(width),
        ShapeError::BadRange => BuildError::BadRange,
    }
}

/// The refusal of a new term, as that of a call.
pub(crate) fn from_table(e: TableError) -> BuildError
    ensures { result ≡ refused e }
{
    match e {
        TableError::TableFull => BuildError::TableFull,
        _ => BuildError::NoMemory,
    }
}
