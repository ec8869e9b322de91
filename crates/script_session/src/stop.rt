//! Why a script stops.
ghost use Rattle.std.specs.Prelude.{◌≡◌};
ghost use Rattle.script_session.specs.declared.stop.ScriptStop.TheVariants.{NoMemory};

use std::alloc::{AllocError, AllocFailed};
use yices_grammar::Place;

/// What is wrong with a line.
#[derive(Clone, Copy, Debug, PartialEq, Eq, Hash)]
pub enum SyntaxFault {
    /// A byte that can stand in no line, or not in a name.
    BadByte,
    /// What can't stand there, the end of a line too.
    Unexpected,
    /// The end of the text before the call is whole.
    EndOfInput,
}

/// Why a line isn't answered. Lines count from 1, columns from 1.
#[derive(Clone, Copy, Debug, PartialEq, Eq, Drop)]
pub enum ScriptStop {
    /// The line is no call: that fault, at that place.
    Syntax(SyntaxFault, Place),
    /// The call at that place isn't built.
    NotBuilt(Place),
    /// The reply to the call whose word is at that place has more than `2^26` bytes.
    TooLong(Place),
    /// Memory was refused.
    NoMemory,
}

impl From<AllocError> for ScriptStop {
    ghost from_gives = { λ _ e. e ≡ NoMemory };

    fn from(_error: AllocError) -> ScriptStop {
        ScriptStop::NoMemory
    }
}

impl<T: Drop> From<AllocFailed<T>> for ScriptStop {
    ghost from_gives = { λ _ e. e ≡ NoMemory };

    fn from(_error: AllocFailed<T>) -> ScriptStop {
        ScriptStop::NoMemory
    }
}
