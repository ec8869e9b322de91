//! The calls that make terms.
ghost use Rattle.std.specs.Prelude.{◌≡◌, ◌+◌, ◌⊎◌, IfErr, IfOk, IfSome, IfNone, length, map};
ghost use Rattle.term_table.specs.Checking.{AreLive, IsFirstDead};
ghost use Rattle.term_sketches.specs.Sketches.{operator_of};
ghost use Rattle.term_build.specs.Building.{AddsAtMost, AddsBelow, AreFit, IsBuilt, RefusesCall};
ghost use Rattle.yices_api.specs.Calls.{of_term, placed};
ghost use Rattle.yices_api.specs.State.{ContextsStay};
ghost use Rattle.yices_api.specs.Steps.{Api, Builds, StepsBy};
ghost use Rattle.yices_api.specs.declared.calls.Call.TheVariants as call;

use crate::env::Env;
use crate::replies::{CallError, Reply, of_build, of_table};
use term_build::{BuildError, build};
use term_sketches::Operator;
use term_table::{Table, Term, TypeId};

/// The place of the first dead term, from 1 on.
pub(crate) fn first_dead(table: &Table, terms: &[Term]) -> Option<usize>
    ensures dead { IfSome result (λ place. IsFirstDead table.now terms.now place) }
    ensures live { IfNone result (AreLive table.now terms.now) }
{
    for (i, t) in terms.iter().enumerate() {
        if !table.is_live(*t) {
            return Some(i + 1);
        }
    }
    None
}

impl Env {
    /// The term of an operator over the arguments, simplified, as the constructor's call answers it: for whoever builds a
    /// term from its parts up, and has to know that each new term is the answer or stands in it. The time is n log n for n
    /// arguments, but for what the table takes to find a shape.
    ///
    /// # Errors
    ///
    /// The first dead argument, then the first misfit: then nothing changes. Then `TableFull` where no slot is left, and
    /// `NoMemory`: then some terms may be there already, where the call is fit.
    pub fn build_term(&mut self, operator: Operator, arguments: &[Term]) -> Result<Term, BuildError>
        ensures built { IfOk result (IsBuilt self.old.table self.new.table operator arguments.now) }
        ensures grown { AddsAtMost (4 + length arguments.now) self.old.table self.new.table }
        ensures below { IfOk result (λ t. AddsBelow self.old.table self.new.table t) }
        ensures refused { IfErr result (RefusesCall self.old.table self.new.table (operator_of operator) arguments.now) }
        ensures fit { IfErr result (λ e. AreFit self.old.table (operator_of operator) arguments.now ⊎ (self.new.table ≡ self.old.table)) }
        ensures contexts { ContextsStay self.old self.new }
    {
        self.table.is_table();
        build(self.alloc, &mut self.table, operator, arguments)
    }

    /// A constructor. Dead arguments are told before memory is asked for.
    pub(crate) fn build(&mut self, operator: Operator, arguments: &[Term]) -> Reply
        ensures { StepsBy (placed 1 (map of_term arguments.now)) (Builds operator arguments.now) self.old result self.new }
    {
        if let Some(place) = first_dead(&self.table, arguments) {
            return Reply::Refused(CallError::DeadTerm(place));
        }
        self.table.is_table();
        match build(self.alloc, &mut self.table, operator, arguments) {
            Ok(t) => Reply::Term(t),
            Err(e) => of_build(e),
        }
    }

    /// A new constant.
    pub(crate) fn new_constant(&mut self, of: TypeId) -> Reply
        ensures { Api self.old (call.NewUninterpretedTerm of) result self.new }
    {
        self.table.is_table();
        match self.table.new_constant(of) {
            Ok(t) => Reply::Term(t),
            Err(e) => of_table(1, e),
        }
    }

    /// A new variable.
    pub(crate) fn new_variable(&mut self, of: TypeId) -> Reply
        ensures { Api self.old (call.NewVariable of) result self.new }
    {
        self.table.is_table();
        match self.table.new_variable(of) {
            Ok(t) => Reply::Term(t),
            Err(e) => of_table(1, e),
        }
    }
}
