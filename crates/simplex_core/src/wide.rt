//! Why a call on a simplex has no result.

ghost use Rattle.std.specs.Prelude.{◌≡◌, IfOk};
ghost use Rattle.simplex_table.specs.View.{Sound};
ghost use Rattle.simplex_core.specs.Wides.{StopsIn, ErrorStopsIn};
ghost use Rattle.simplex_core.specs.declared.wide.Stop.TheVariants.{NoMemory};

use crate::lists::Vars;
use fraction128::Wide;
use simplex_table::{Tableau, TableauError};
use std::alloc::{AllocError, AllocFailed, Global};

/// An operation on fractions that is too wide, and a basis by which its operands are numbers of the problem.
#[derive(Drop)]
pub struct WideAt {
    pub basis: Vars,
    pub wide: Wide,
}

/// Why a call has no result.
#[derive(Drop)]
pub enum Stop {
    /// An operation on two fractions is too wide.
    Wide(WideAt),
    /// Memory was refused.
    NoMemory,
}

impl From<AllocError> for Stop {
    ghost from_gives = { λ _ e. e ≡ NoMemory };

    fn from(_error: AllocError) -> Stop {
        Stop::NoMemory
    }
}

impl<T: Drop> From<AllocFailed<T>> for Stop {
    ghost from_gives = { λ _ e. e ≡ NoMemory };

    fn from(_error: AllocFailed<T>) -> Stop {
        Stop::NoMemory
    }
}

/// The columns of a tableau, copied.
fn basis_of(alloc: Global, tableau: &Tableau) -> Result<Vars, AllocError>
    ensures { IfOk result (λ basis. (basis ≡ tableau.now.columns) × Sound tableau.now) }
{
    let columns = Vec::from_slice(alloc, tableau.columns())?;
    Ok(Vars::from_vec(columns))
}

/// An operation that is too wide, with the basis of the tableau.
pub fn wide_at(alloc: Global, tableau: &Tableau, wide: Wide) -> Stop
    ensures { StopsIn tableau.now wide result }
{
    match basis_of(alloc, tableau) {
        Ok(basis) => Stop::Wide(WideAt { basis, wide }),
        Err(_refused) => Stop::NoMemory,
    }
}

/// The error of a tableau, with the basis of the tableau.
pub fn stop_at(alloc: Global, tableau: &Tableau, error: TableauError) -> Stop
    ensures { ErrorStopsIn tableau.now error result }
{
    match error {
        TableauError::Wide(wide) => wide_at(alloc, tableau, wide),
        TableauError::NoMemory => Stop::NoMemory,
    }
}
