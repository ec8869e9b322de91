//! Why a text isn't read.
ghost use Rattle.std.specs.Prelude.{◌≡◌};
ghost use Rattle.value_texts.specs.declared.errors.ValueError.TheVariants.{NoMemory};

use std::alloc::{AllocError, AllocFailed};

/// Why a text isn't read as a value.
#[derive(Clone, Copy, Debug, PartialEq, Eq)]
pub enum ValueError {
    /// The text isn't that of a value of the type.
    BadText,
    /// A fraction in the text has a number past `2^127 - 1`.
    Wide,
    /// Want of memory.
    NoMemory,
}

impl From<AllocError> for ValueError {
    ghost from_gives = { λ _ e. e ≡ NoMemory };

    fn from(_error: AllocError) -> ValueError {
        ValueError::NoMemory
    }
}

impl<T: Drop> From<AllocFailed<T>> for ValueError {
    ghost from_gives = { λ _ e. e ≡ NoMemory };

    fn from(_error: AllocFailed<T>) -> ValueError {
        ValueError::NoMemory
    }
}
