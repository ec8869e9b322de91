//! What a check answers.
ghost use Rattle.std.specs.Prelude.{◌≡◌, ◌++◌, Some};
ghost use Rattle.term_checks.specs.Formulas.{AreFormulas};
ghost use Rattle.context_stack.specs.Checks as checks;
ghost use Rattle.context_stack.specs.Checks.{Answers, Judges};

use crate::errors::Status;
use std::alloc::Global;
use term_checks::{CheckError, Learned, TermValues, TermVerdict, Turns, check_terms};
use term_table::{Table, Term, Terms};

/// What a check answers of the formulas of a context, and of assumptions.
#[derive(Drop)]
pub enum Checked {
    /// A truth value for each constant below them, each once; under these values all of them are true.
    Sat(TermValues),
    /// No assignment makes all of them true.
    Unsat,
    /// What was learned, one clause more than the limit of turns allows.
    Unknown(Learned),
    /// A term below them is no truth value. Such a check isn't built yet.
    NotBuilt,
    /// Memory was refused.
    NoMemory,
}

impl Checked {
    /// The status that the answer leaves: its verdict, or `Idle` where there is none.
    pub fn status(&self) -> Status
        ensures { result ≡ checks.status_of self.now }
    {
        match self {
            Checked::Sat(_) => Status::Sat,
            Checked::Unsat => Status::Unsat,
            Checked::Unknown(_) => Status::Unknown,
            Checked::NotBuilt | Checked::NoMemory => Status::Idle,
        }
    }
}

/// The answer of a check, and the assumptions to blame.
#[derive(Drop)]
pub(crate) struct Finding {
    pub(crate) answer: Checked,
    pub(crate) core: Option<Terms>,
}

/// Checks formulas together with assumptions.
pub(crate) fn check_of(
    alloc: Global,
    table: &Table,
    formulas: &[Term],
    assumed: &[Term],
    turns: Turns,
) -> Finding
    requires formulas { AreFormulas table.now formulas.now }
    requires assumptions { AreFormulas table.now assumed.now }
    ensures answers { Answers table.now formulas.now (Some assumed.now) turns result.answer result.core }
    ensures judges { Judges table.now (formulas.now ++ assumed.now) result.answer }
{
    match check_terms(alloc, table, formulas, assumed, turns) {
        Ok(TermVerdict::Sat(values)) => Finding {
            answer: Checked::Sat(values),
            core: None,
        },
        Ok(TermVerdict::Unsat(core)) => Finding {
            answer: Checked::Unsat,
            core: Some(core),
        },
        Ok(TermVerdict::Unknown(learned)) => Finding {
            answer: Checked::Unknown(learned),
            core: None,
        },
        Err(CheckError::NotBuilt) => Finding {
            answer: Checked::NotBuilt,
            core: None,
        },
        Err(CheckError::NoMemory) => Finding {
            answer: Checked::NoMemory,
            core: None,
        },
    }
}
