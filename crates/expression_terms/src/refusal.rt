//! Why a command of the language is refused.

ghost use Rattle.std.specs.Prelude.{◌≡◌};
ghost use Rattle.expression_terms.specs.declared.refusal.Stop.TheVariants.{NoMemory};

use std::alloc::AllocError;
use y_io::Text;
use yices_grammar::Place;

/// Why a command is refused.
#[derive(Debug, Drop)]
pub enum Refusal {
    /// A name in an expression or a literal stands for nothing.
    UnknownName(Text),
    /// The name of a declaration is in use.
    NameInUse(Text),
    /// One `let` binds the name twice.
    BoundTwice(Text),
    /// An operator has a wrong number of arguments, this one.
    BadArity(usize),
    /// The argument at this place, counted from 1, has a wrong type.
    WrongType {
        /// The argument's place.
        place: usize,
        /// What is wanted there, as it is printed.
        wanted: Text,
        /// The text of its type.
        found: Text,
    },
    /// A level is to be taken away where none is open.
    BottomLevel,
    /// A level is to be opened where as many are open as may be.
    TooDeep,
    /// No slot for terms is left.
    TableFull,
    /// The command holds a part of the language that is not built.
    NotBuilt,
}

/// Why a command has no reply.
#[derive(Debug, Drop)]
pub enum Stop {
    /// It is refused, for a cause at that place.
    Refused(Place, Refusal),
    /// Memory ran out.
    NoMemory,
}

impl From<AllocError> for Stop {
    ghost from_gives = { λ _ e. e ≡ NoMemory };

    fn from(_error: AllocError) -> Stop {
        Stop::NoMemory
    }
}
