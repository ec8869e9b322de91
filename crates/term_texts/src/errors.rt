//! Why a text isn't written.
ghost use Rattle.std.specs.Prelude.{◌≡◌};
ghost use Rattle.term_texts.specs.declared.errors.PrintError.TheVariants.{NoMemory};

use std::alloc::{AllocError, AllocFailed};

/// Why a text isn't written.
#[derive(Clone, Copy, Debug, PartialEq, Eq, Drop)]
pub enum PrintError {
    /// The handle is dead.
    DeadTerm,
    /// The text has more than `2^26` bytes.
    TooLong,
    /// Memory was refused.
    NoMemory,
}

impl From<AllocError> for PrintError {
    ghost from_gives = { λ _ e. e ≡ NoMemory };

    fn from(_error: AllocError) -> PrintError {
        PrintError::NoMemory
    }
}

impl<T: Drop> From<AllocFailed<T>> for PrintError {
    ghost from_gives = { λ _ e. e ≡ NoMemory };

    fn from(_error: AllocFailed<T>) -> PrintError {
        PrintError::NoMemory
    }
}
