//! The calls on counts.
ghost use Rattle.yices_api.specs.Steps.{Api};
ghost use Rattle.yices_api.specs.declared.calls.Call.TheVariants as call;

use crate::env::Env;
use crate::replies::{Reply, of_table};
use term_table::{Term, TypeId};

impl Env {
    /// Refers to a term once more.
    pub(crate) fn incref_term(&mut self, t: Term) -> Reply
        ensures { Api self.old (call.IncrefTerm t) result self.new }
    {
        self.table.is_table();
        match self.table.incref(t) {
            Ok(()) => Reply::Done,
            Err(e) => of_table(1, e),
        }
    }

    /// Refers to a term once less.
    pub(crate) fn decref_term(&mut self, t: Term) -> Reply
        ensures { Api self.old (call.DecrefTerm t) result self.new }
    {
        self.table.is_table();
        match self.table.decref(t) {
            Ok(()) => Reply::Done,
            Err(e) => of_table(1, e),
        }
    }

    /// Refers to a type once more.
    pub(crate) fn incref_type(&mut self, t: TypeId) -> Reply
        ensures { Api self.old (call.IncrefType t) result self.new }
    {
        self.table.is_table();
        match self.table.incref_type(t) {
            Ok(()) => Reply::Done,
            Err(e) => of_table(1, e),
        }
    }

    /// Refers to a type once less.
    pub(crate) fn decref_type(&mut self, t: TypeId) -> Reply
        ensures { Api self.old (call.DecrefType t) result self.new }
    {
        self.table.is_table();
        match self.table.decref_type(t) {
            Ok(()) => Reply::Done,
            Err(e) => of_table(1, e),
        }
    }
}
