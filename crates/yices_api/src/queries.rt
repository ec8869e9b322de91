//! The calls that only ask.
ghost use Rattle.yices_api.specs.Steps.{Api};
ghost use Rattle.yices_api.specs.declared.calls.Call.TheVariants as call;

use crate::env::Env;
use crate::replies::{CallError, Reply};
use term_table::Term;
use term_texts::{PrintError, write_term};

impl Env {
    /// The type of truth values.
    pub(crate) fn bool_type(&self) -> Reply
        ensures { Api self.now call.BoolType result self.now }
    {
        Reply::TypeId(self.table.bool_type())
    }

    /// The term that is true.
    pub(crate) fn true_term(&self) -> Reply
        ensures { Api self.now call.True result self.now }
    {
        Reply::Term(self.table.true_term())
    }

    /// The term that is false.
    pub(crate) fn false_term(&self) -> Reply
        ensures { Api self.now call.False result self.now }
    {
        Reply::Term(self.table.false_term())
    }

    /// The type of a term.
    pub(crate) fn type_of_term(&self, t: Term) -> Reply
        ensures { Api self.now (call.TypeOfTerm t) result self.now }
    {
        match self.table.type_of(t) {
            Some(of) => Reply::TypeId(of),
            None => Reply::Refused(CallError::DeadTerm(1)),
        }
    }

    /// The text of a term.
    pub(crate) fn pp_term(&self, t: Term) -> Reply
        ensures { Api self.now (call.PpTerm t) result self.now }
    {
        if !self.table.is_live(t) {
            return Reply::Refused(CallError::DeadTerm(1));
        }
        match write_term(self.alloc, &self.table, t) {
            Ok(text) => Reply::Text(text),
            Err(PrintError::TooLong) => Reply::Refused(CallError::TooLong),
            Err(_) => Reply::NoMemory,
        }
    }

    /// How many terms are live.
    pub(crate) fn num_terms(&self) -> Reply
        ensures { Api self.now call.NumTerms result self.now }
    {
        Reply::Number(self.table.count_terms())
    }

    /// How many types are live.
    pub(crate) fn num_types(&self) -> Reply
        ensures { Api self.now call.NumTypes result self.now }
    {
        Reply::Number(self.table.count_types())
    }
}
