//! A context: its levels, and what the newest check found of them.
ghost use Rattle.std.specs.Prelude.{◌≡◌, ◌+◌, ◌<◌, ◌∷◌, ◌++◌, [], IfOk, IfErr, OnOk, OnErr, None, Some, slice_get, length};
ghost use Rattle.std.specs.Option.{option_map};
ghost use Rattle.term_checks.specs.Formulas.{AreFormulas, IsFormula};
ghost use Rattle.context_stack.specs.Levels.{formulas};
ghost use Rattle.context_stack.specs.States.{IsUnchecked};
ghost use Rattle.context_stack.specs.Steps.{Asserts, Pops, RefusesFormula, RefusesPush};
ghost use Rattle.context_stack.specs.Checks.{Checks, RefusesAssumptions, status_of};

use crate::checks::{Checked, check_of};
use crate::errors::{ContextError, Status};
use crate::judging::refusal_of;
use crate::stack::Stack;
use std::alloc::{AllocError, Global};
use std::marker::Model;
use term_checks::Turns;
use term_table::{Table, Term, Terms};

/// The formulas that were asserted, level by level, and what the newest check found of them.
#[derive(Drop)]
pub struct Context {
    alloc: Global,
    stack: Stack,
    status: Status,
    core: Option<Terms>,
}

impl Model for Context {
    ghost use Rattle.context_stack.specs.States.{ContextState};

    ghost Value = { ContextState };

    ghost view = { λ c. record { levels = c.stack; status = c.status; core = c.core } };
}

impl Context {
    /// A context with no formula and no level over the bottom one.
    ///
    /// # Errors
    ///
    /// Where memory is refused.
    pub fn new(alloc: Global) -> Result<Context, AllocError>
        ensures levels { IfOk result (λ context. context.levels ≡ [] ∷ []) }
        ensures unchecked { IfOk result (λ context. IsUnchecked context) }
    {
        let stack = Stack::new(alloc)?;
        Ok(Context {
            alloc,
            stack,
            status: Status::Idle,
            core: None,
        })
    }

    /// Asserts a formula at the newest level. The time is expected linear in the term's distinct subterms and their
    /// arguments.
    ///
    /// # Errors
    ///
    /// `DeadTerm(1)` exactly where the term is dead; else `NotBool(1)` exactly where it is no truth value; else
    /// `HasVariable` exactly where a variable is below it, with one of those; `NoMemory`. Then nothing changes.
    pub fn assert(&mut self, table: &Table, t: Term) -> Result<(), ContextError>
        ensures asserted { OnOk result (Asserts self.old.levels self.new.levels t) }
        ensures formula { OnOk result (IsFormula table.now t) }
        ensures unchecked { OnOk result (IsUnchecked self.new) }
        ensures refused { IfErr result (λ e. RefusesFormula table.now t e) }
        ensures same { OnErr result (self.new ≡ self.old) }
    {
        self.stack.assert(table, t)?;
        self.forget();
        Ok(())
    }

    /// Opens a level.
    ///
    /// # Errors
    ///
    /// `TooDeep` exactly where 65,536 levels are open; `NoMemory`. Then nothing changes.
    pub fn push(&mut self) -> Result<(), ContextError>
        ensures opened { OnOk result (self.new.levels ≡ self.old.levels ++ [] ∷ []) }
        ensures room { OnOk result (length self.old.levels < 65537) }
        ensures unchecked { OnOk result (IsUnchecked self.new) }
        ensures refused { IfErr result (λ e. RefusesPush self.old.levels e) }
        ensures same { OnErr result (self.new ≡ self.old) }
    {
        self.stack.push()?;
        self.forget();
        Ok(())
    }

    /// Takes the newest level away, with its formulas. This takes no memory.
    ///
    /// # Errors
    ///
    /// `BottomLevel` exactly where no level is open but the bottom one. Then nothing changes.
    pub fn pop(&mut self) -> Result<(), ContextError>
        ensures popped { OnOk result (Pops self.old.levels self.new.levels) }
        ensures above { OnOk result (1 < length self.old.levels) }
        ensures unchecked { OnOk result (IsUnchecked self.new) }
        ensures refused { IfErr result (λ e. (e ≡ ContextError.BottomLevel) × (length self.old.levels ≡ 1)) }
        ensures same { OnErr result (self.new ≡ self.old) }
    {
        self.stack.pop()?;
        self.forget();
        Ok(())
    }

    /// Takes all levels and formulas away. This takes no memory.
    pub fn reset(&mut self)
        ensures levels { self.new.levels ≡ [] ∷ [] }
        ensures unchecked { IsUnchecked self.new }
    {
        self.stack.reset();
        self.forget();
    }

    /// Forgets what the newest check found.
    fn forget(&mut self)
        ensures levels { self.new.levels ≡ self.old.levels }
        ensures unchecked { IsUnchecked self.new }
    {
        self.status = Status::Idle;
        self.core = None;
    }

    /// Checks the formulas that are on the levels now, from nothing: whatever was checked or popped before doesn't count.
    /// The verdict is the status from then on, and no core is kept. Beside the search the time is expected linear in the
    /// distinct subterms and their arguments.
    pub fn check(&mut self, table: &Table, turns: Turns) -> Checked
        requires { AreFormulas table.now (formulas self.old.levels) }
        ensures { Checks table.now None turns result self.old self.new }
    {
        let found = check_of(self.alloc, table, self.stack.formulas(), &[], turns);
        self.keep(&found.answer, None);
        found.answer
    }

    /// Checks the formulas that are on the levels now together with assumptions. Where they can't all be true, some
    /// assumptions to blame are kept as the core: each once, in the order of their first places. Each different assumption
    /// costs a level of the search.
    ///
    /// # Errors
    ///
    /// `DeadTerm` for the first dead assumption, by its place from 1 on; else `NotBool` for the first that is no truth
    /// value; else `HasVariable` with a variable of the first that has one. Then nothing changes. Want of memory is the
    /// answer `NoMemory`.
    pub fn check_assuming(
        &mut self,
        table: &Table,
        assumed: &[Term],
        turns: Turns,
    ) -> Result<Checked, ContextError>
        requires { AreFormulas table.now (formulas self.old.levels) }
        ensures checked { IfOk result (λ found. Checks table.now (Some assumed.now) turns found self.old self.new) }
        ensures refused { IfErr result (λ e. RefusesAssumptions table.now assumed.now e) }
        ensures same { OnErr result (self.new ≡ self.old) }
    {
        let Ok(found) = refusal_of(self.alloc, table, assumed) else {
            self.forget();
            return Ok(Checked::NoMemory);
        };
        match found {
            None => Ok(self.check_with(table, assumed, turns)),
            Some(refusal) => Err(refusal),
        }
    }

    /// Checks the formulas together with assumptions that are formulas, and keeps the core.
    fn check_with(&mut self, table: &Table, assumed: &[Term], turns: Turns) -> Checked
        requires formulas { AreFormulas table.now (formulas self.old.levels) }
        requires assumptions { AreFormulas table.now assumed.now }
        ensures { Checks table.now (Some assumed.now) turns result self.old self.new }
    {
        let found = check_of(self.alloc, table, self.stack.formulas(), assumed, turns);
        let core = found.core;
        self.keep(&found.answer, core);
        found.answer
    }

    /// Keeps what a check found.
    fn keep(&mut self, answer: &Checked, core: Option<Terms>)
        ensures levels { self.new.levels ≡ self.old.levels }
        ensures status { self.new.status ≡ status_of answer.now }
        ensures core { self.new.core ≡ core }
    {
        self.status = answer.status();
        self.core = core;
    }

    /// How many levels are open over the bottom one.
    pub fn levels(&self) -> usize
        ensures { result + 1 ≡ length self.now.levels }
    {
        self.stack.levels()
    }

    /// The formulas of a level, oldest first; the bottom level has the number 0. The time is constant.
    pub fn roots(&self, level: usize) -> &[Term]
        requires { level < length self.now.levels }
        ensures { slice_get self.now.levels level ≡ Some result.now }
    {
        self.stack.roots(level)
    }

    /// What is known of the formulas: the verdict of the newest check, where nothing was asserted, pushed, popped or reset
    /// since, and nothing was checked without a verdict.
    pub fn status(&self) -> Status
        ensures { result ≡ self.now.status }
    {
        self.status
    }

    /// Assumptions that can't be true together with the formulas, where the newest call that changed the context was a
    /// check with assumptions that found so.
    pub fn core(&self) -> Option<&[Term]>
        ensures { option_map (λ ts. ts.now) result ≡ self.now.core }
    {
        match &self.core {
            Some(core) => Some(core.as_slice()),
            None => None,
        }
    }
}
