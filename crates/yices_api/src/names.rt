//! The calls on names.
ghost use Rattle.yices_api.specs.Steps.{Api};
ghost use Rattle.yices_api.specs.declared.calls.Call.TheVariants as call;

use crate::env::Env;
use crate::replies::{CallError, Reply, of_table, of_term, of_text, of_type};
use term_table::{Term, TypeId};

impl Env {
    /// Gives a name a new meaning.
    pub(crate) fn set_term_name(&mut self, name: &str, t: Term) -> Reply
        ensures { Api self.old (call.SetTermName name.now t) result self.new }
    {
        self.table.is_table();
        match self.table.set_name(name, t) {
            Ok(()) => Reply::Done,
            Err(e) => of_table(2, e),
        }
    }

    /// Gives a name of types a new meaning.
    pub(crate) fn set_type_name(&mut self, name: &str, t: TypeId) -> Reply
        ensures { Api self.old (call.SetTypeName name.now t) result self.new }
    {
        self.table.is_table();
        match self.table.set_type_name(name, t) {
            Ok(()) => Reply::Done,
            Err(e) => of_table(2, e),
        }
    }

    /// The newest meaning of a name.
    pub(crate) fn term_by_name(&self, name: &str) -> Reply
        ensures { Api self.now (call.GetTermByName name.now) result self.now }
    {
        of_term(self.table.by_name(name))
    }

    /// The newest meaning of a name of types.
    pub(crate) fn type_by_name(&self, name: &str) -> Reply
        ensures { Api self.now (call.GetTypeByName name.now) result self.now }
    {
        of_type(self.table.type_by_name(name))
    }

    /// The name of a term.
    pub(crate) fn term_name(&self, t: Term) -> Reply
        ensures { Api self.now (call.GetTermName t) result self.now }
    {
        if !self.table.is_live(t) {
            return Reply::Refused(CallError::DeadTerm(1));
        }
        match self.table.name_of(t) {
            Some(name) => of_text(self.alloc, name),
            None => Reply::Nothing,
        }
    }

    /// The name of a type.
    pub(crate) fn type_name(&self, t: TypeId) -> Reply
        ensures { Api self.now (call.GetTypeName t) result self.now }
    {
        if !self.table.is_live_type(t) {
            return Reply::Refused(CallError::DeadType(1));
        }
        match self.table.type_name_of(t) {
            Some(name) => of_text(self.alloc, name),
            None => Reply::Nothing,
        }
    }

    /// Takes the newest meaning of a name away.
    pub(crate) fn remove_term_name(&mut self, name: &str) -> Reply
        ensures { Api self.old (call.RemoveTermName name.now) result self.new }
    {
        self.table.is_table();
        Reply::Flag(self.table.remove_name(name))
    }

    /// Takes the newest meaning of a name of types away.
    pub(crate) fn remove_type_name(&mut self, name: &str) -> Reply
        ensures { Api self.old (call.RemoveTypeName name.now) result self.new }
    {
        self.table.is_table();
        Reply::Flag(self.table.remove_type_name(name))
    }
}
