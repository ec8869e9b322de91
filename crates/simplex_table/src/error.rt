// Why a call on a tableau has no result.
ghost use Rattle.std.specs.Prelude.{◌≡◌};
ghost use Rattle.simplex_table.specs.declared.error.TableauError.TheVariants.{Wide as TooWide, NoMemory};

use fraction128::Wide;
use std::alloc::{AllocError, AllocFailed};

/// Why a call on a tableau has no result. The tableau is then as before.
#[derive(Clone, Copy, Debug)]
pub enum TableauError {
    /// An operation on two fractions is too wide.
    Wide(Wide),
    /// Memory was refused.
    NoMemory,
}

impl From<Wide> for TableauError {
    ghost from_gives = { λ w e. e ≡ TooWide w };

    fn from(wide: Wide) -> TableauError {
        TableauError::Wide(wide)
    }
}

impl From<AllocError> for TableauError {
    ghost from_gives = { λ _ e. e ≡ NoMemory };

    fn from(_error: AllocError) -> TableauError {
        TableauError::NoMemory
    }
}

impl<T: Drop> From<AllocFailed<T>> for TableauError {
    ghost from_gives = { λ _ e. e ≡ NoMemory };

    fn from(_error: AllocFailed<T>) -> TableauError {
        TableauError::NoMemory
    }
}
