//! The answer of a read or a write that failed.

ghost use Rattle.std.specs.Prelude.{◌≤◌};
ghost use Rattle.y_io.specs.Outside.{Rose};

use std::error::Error;
use std::fmt;

/// A read or a write failed. The count of faults of the object that was used says so too.
#[derive(Clone, Copy, Debug, PartialEq, Eq)]
pub struct Failed;

impl fmt::Display for Failed {
    fn fmt<W: fmt::Write>(&self, f: &mut fmt::Formatter<W>) -> fmt::Result {
        write!(f, "a read or a write failed")
    }
}

impl Error for Failed {}

/// Counts a fault and answers it. At its last value the count stays.
pub(crate) fn count_fault(faults: &mut u64) -> Failed
    ensures later { faults.old ≤ faults.new }
    ensures rose { Rose faults.old faults.new }
{
    *faults = faults.saturating_add(1);
    Failed
}
