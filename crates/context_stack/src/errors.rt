//! The refusals of a context, and what it knows of its formulas.
use term_table::Term;

/// What is known of the formulas of a context.
#[derive(Clone, Copy, Debug, PartialEq, Eq, Drop)]
pub enum Status {
    /// No check has answered with a verdict since they changed.
    Idle,
    /// The newest check found values under which they, and its assumptions, are true.
    Sat,
    /// The newest check found that there are none.
    Unsat,
    /// The newest check came to its limit.
    Unknown,
}

/// Why a call of a context was refused.
#[derive(Clone, Copy, Debug, PartialEq, Eq, Drop)]
pub enum ContextError {
    /// The argument at that place is no live term.
    DeadTerm(usize),
    /// The argument at that place is no truth value.
    NotBool(usize),
    /// That variable is below the argument.
    HasVariable(Term),
    /// 65,536 levels are open.
    TooDeep,
    /// No level is open but the bottom one.
    BottomLevel,
    /// Memory was refused.
    NoMemory,
}
