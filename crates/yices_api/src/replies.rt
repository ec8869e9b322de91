//! The replies to calls, and why calls are refused.
ghost use Rattle.std.specs.Prelude.{◌≡◌, ◌⊎◌};
ghost use Rattle.yices_api.specs.Told.{told_build, told_check, told_context, told_table, term_or_nothing, type_or_nothing};

use crate::handles::ContextId;
use context_stack::{Checked, ContextError, Status};
use std::alloc::Global;
use term_build::BuildError;
use term_table::{TableError, Term, Terms, TypeId, Wanted};
use y_io::Text;

/// Why a call was refused. Places count the arguments of the call from 1 on, each member of a list by itself.
#[derive(Clone, Copy, Debug, PartialEq, Eq, Drop)]
pub enum CallError {
    /// The argument at that place stands for the result of a call that gave none. No call of an environment is refused so:
    /// it is the refusal of a script, whose arguments are results of its earlier calls.
    NoResult(usize),
    /// The argument at that place stands for a result of another kind than the call takes there. So only scripts refuse too.
    WrongKind(usize),
    /// The argument at that place is no live context.
    DeadContext(usize),
    /// The argument at that place is no live type.
    DeadType(usize),
    /// The argument at that place is no live term.
    DeadTerm(usize),
    /// That is a wrong number of arguments.
    BadArity(usize),
    /// The argument at that place has another type than is wanted.
    WrongType {
        place: usize,
        wanted: Wanted,
        found: TypeId,
    },
    /// The bit-vector at that place has another width than the first.
    WidthsDiffer {
        place: usize,
        left: u32,
        right: u32,
    },
    /// That is no width from 1 to 128.
    BadWidth(u128),
    /// The numbers are out of range.
    BadRange,
    /// The count is the largest.
    CountFull,
    /// The count is 0.
    CountZero,
    /// The formula at that place, counted among formulas alone, is no truth value.
    NotBool(usize),
    /// That variable is below the formula.
    HasVariable(Term),
    /// 65,536 levels are open.
    TooDeep,
    /// No level is open but the bottom one.
    BottomLevel,
    /// `2^32` contexts were made.
    TooMany,
    /// The text has more than `2^26` bytes.
    TooLong,
    /// No slot is left.
    TableFull,
    /// The newest call that changed the context was no check with assumptions that found some to blame.
    NoCore,
    /// A term below the formulas is no truth value. Such a check isn't built yet.
    NotBuilt,
}

/// The reply to a call.
#[derive(Drop)]
pub enum Reply {
    /// A type.
    TypeId(TypeId),
    /// A term.
    Term(Term),
    /// A context.
    Context(ContextId),
    /// A list of terms.
    Terms(Terms),
    /// It was done.
    Done,
    /// There is none.
    Nothing,
    /// A truth value.
    Flag(bool),
    /// A number.
    Number(usize),
    /// A text.
    Text(Text),
    /// What is known of a context's formulas.
    Status(Status),
    /// The call was refused.
    Refused(CallError),
    /// Memory was refused.
    NoMemory,
}

/// The refusal of a constructor.
pub(crate) fn of_build(e: BuildError) -> Reply
    ensures { result ≡ told_build e }
{
    match e {
        BuildError::DeadTerm(place) => Reply::Refused(CallError::DeadTerm(place)),
        BuildError::BadArity(count) => Reply::Refused(CallError::BadArity(count)),
        BuildError::WrongType {
            place,
            wanted,
            found,
        } => Reply::Refused(CallError::WrongType {
            place,
            wanted,
            found,
        }),
        BuildError::WidthsDiffer { place, left, right } => {
            Reply::Refused(CallError::WidthsDiffer { place, left, right })
        }
        BuildError::BadWidth(width) => Reply::Refused(CallError::BadWidth(width)),
        BuildError::BadRange => Reply::Refused(CallError::BadRange),
        BuildError::TableFull => Reply::Refused(CallError::TableFull),
        BuildError::NoMemory => Reply::NoMemory,
    }
}

/// The refusal of the table, of a call whose handle has that place. The calls made here meet no other.
pub(crate) fn of_table(place: usize, e: TableError) -> Reply
    ensures { result ≡ told_table place e }
{
    match e {
        TableError::DeadType(_) => Reply::Refused(CallError::DeadType(place)),
        TableError::DeadTerm => Reply::Refused(CallError::DeadTerm(place)),
        TableError::CountFull => Reply::Refused(CallError::CountFull),
        TableError::CountZero => Reply::Refused(CallError::CountZero),
        TableError::TableFull => Reply::Refused(CallError::TableFull),
        _ => Reply::NoMemory,
    }
}

/// The refusal of a context, of a call whose term has that place.
pub(crate) fn of_context(place: usize, e: ContextError) -> Reply
    ensures { result ≡ told_context place e }
{
    match e {
        ContextError::DeadTerm(_) => Reply::Refused(CallError::DeadTerm(place)),
        ContextError::NotBool(formula) => Reply::Refused(CallError::NotBool(formula)),
        ContextError::HasVariable(variable) => Reply::Refused(CallError::HasVariable(variable)),
        ContextError::TooDeep => Reply::Refused(CallError::TooDeep),
        ContextError::BottomLevel => Reply::Refused(CallError::BottomLevel),
        ContextError::NoMemory => Reply::NoMemory,
    }
}

/// The verdict of a check, or why there is none.
fn verdict_of(found: &Checked) -> Reply
    ensures { result ≡ told_check found.now }
{
    match found {
        Checked::NotBuilt => Reply::Refused(CallError::NotBuilt),
        Checked::NoMemory => Reply::NoMemory,
        Checked::Sat(_) | Checked::Unsat | Checked::Unknown(_) => Reply::Status(found.status()),
    }
}

/// The answer of a check, of which only the verdict is told.
pub(crate) fn of_check(found: Checked) -> Reply
    ensures { result ≡ told_check found }
{
    verdict_of(&found)
}

/// A copy of the text, or want of memory.
pub(crate) fn of_text(alloc: Global, text: &str) -> Reply
    ensures { (result ≡ Reply.Text text.now) ⊎ (result ≡ Reply.NoMemory) }
{
    match Text::new(alloc, text) {
        Ok(copy) => Reply::Text(copy),
        Err(_) => Reply::NoMemory,
    }
}

/// The term, where there is one.
pub(crate) fn of_term(found: Option<Term>) -> Reply
    ensures { result ≡ term_or_nothing found }
{
    match found {
        Some(t) => Reply::Term(t),
        None => Reply::Nothing,
    }
}

/// The type, where there is one.
pub(crate) fn of_type(found: Option<TypeId>) -> Reply
    ensures { result ≡ type_or_nothing found }
{
    match found {
        Some(t) => Reply::TypeId(t),
        None => Reply::Nothing,
    }
}
