//! The formulas of a context in one list, with a mark for each level.
ghost use Rattle.std.specs.Prelude.{◌≡◌, ◌+◌, ◌<◌, ◌≤◌, ◌∷◌, ◌++◌, [], IfOk, IfErr, OnOk, OnErr, Some, slice_get, slice_index_or, slice_range, length};
ghost use Rattle.term_checks.specs.Formulas.{IsFormula};
ghost use Rattle.context_stack.specs.Levels.{formulas};
ghost use Rattle.context_stack.specs.Steps.{Asserts, Pops, RefusesFormula, RefusesPush};

use crate::errors::ContextError;
use crate::judging::judge;
use std::alloc::{AllocError, Global};
use std::marker::Model;
use term_table::{Table, Term};

/// The most levels that may be open over the bottom one.
const MOST_LEVELS: usize = 65_536;

/// The formulas that were asserted, level by level.
#[derive(Drop)]
pub(crate) struct Stack {
    alloc: Global,
    formulas: Vec<Term>,
    marks: Vec<usize>,
}

impl Model for Stack {
    ghost use Rattle.std.specs.Prelude.{List, reverse};
    ghost use Rattle.term_shapes.specs.declared.handles.Term.{Term};
    ghost use Rattle.context_stack.specs.Levels.{levels_in, IsStack};

    ghost Value = { List (List Term) };

    ghost view = { λ c. levels_in c.formulas.items (reverse c.marks.items) };

    ghost invariant = { λ c. IsStack c.marks.items c.formulas.items };
}

impl Stack {
    /// A context with no formula and no level over the bottom one.
    ///
    /// # Errors
    ///
    /// Where memory is refused.
    pub(crate) fn new(alloc: Global) -> Result<Stack, AllocError>
        ensures { IfOk result (λ stack. stack ≡ [] ∷ []) }
    {
        Ok(Stack {
            alloc,
            formulas: Vec::new(alloc),
            marks: Vec::new(alloc),
        })
    }

    /// Asserts a formula at the newest level. The time is expected linear in the term's distinct subterms and their
    /// arguments.
    ///
    /// # Errors
    ///
    /// `DeadTerm(1)` exactly where the term is dead; else `NotBool(1)` exactly where it is no truth value; else
    /// `HasVariable` exactly where a variable is below it, with one of those; `NoMemory`. Then nothing changes.
    pub(crate) fn assert(&mut self, table: &Table, t: Term) -> Result<(), ContextError>
        ensures asserted { OnOk result (Asserts self.old self.new t) }
        ensures formula { OnOk result (IsFormula table.now t) }
        ensures refused { IfErr result (λ e. RefusesFormula table.now t e) }
        ensures same { OnErr result (self.new ≡ self.old) }
    {
        judge(self.alloc, table, t)?;
        append(&mut self.formulas, t)?;
        Ok(())
    }

    /// Opens a level.
    ///
    /// # Errors
    ///
    /// `TooDeep` exactly where 65,536 levels are open; `NoMemory`. Then nothing changes.
    pub(crate) fn push(&mut self) -> Result<(), ContextError>
        ensures opened { OnOk result (self.new ≡ self.old ++ [] ∷ []) }
        ensures room { OnOk result (length self.old < 65537) }
        ensures refused { IfErr result (λ e. RefusesPush self.old e) }
        ensures same { OnErr result (self.new ≡ self.old) }
    {
        if self.marks.len() >= MOST_LEVELS {
            return Err(ContextError::TooDeep);
        }
        let mark = self.formulas.len();
        append(&mut self.marks, mark)?;
        Ok(())
    }

    /// Takes the newest level away, with its formulas. This takes no memory.
    ///
    /// # Errors
    ///
    /// `BottomLevel` exactly where no level is open but the bottom one. Then nothing changes.
    pub(crate) fn pop(&mut self) -> Result<(), ContextError>
        ensures popped { OnOk result (Pops self.old self.new) }
        ensures refused { IfErr result (λ e. (e ≡ ContextError.BottomLevel) × (length self.old ≡ 1)) }
        ensures above { OnOk result (1 < length self.old) }
        ensures same { OnErr result (self.new ≡ self.old) }
    {
        match self.marks.pop() {
            Some(mark) => {
                self.formulas.truncate(mark);
                Ok(())
            }
            None => Err(ContextError::BottomLevel),
        }
    }

    /// Takes all levels and formulas away. This takes no memory.
    pub(crate) fn reset(&mut self)
        ensures { self.new ≡ [] ∷ [] }
    {
        self.formulas.clear();
        self.marks.clear();
    }

    /// How many levels are open over the bottom one.
    pub(crate) fn levels(&self) -> usize
        ensures { result + 1 ≡ length self.now }
    {
        self.marks.len()
    }

    /// The formulas of a level, oldest first; the bottom level has the number 0. The time is constant.
    pub(crate) fn roots(&self, level: usize) -> &[Term]
        requires { level < length self.now }
        ensures { slice_get self.now level ≡ Some result.now }
    {
        let formulas = self.formulas.as_slice();
        let marks = self.marks.as_slice();
        let from = begin_of(marks, level);
        let to = end_of(marks, level, formulas.len());
        part_of(formulas, from, to)
    }

    /// The formulas of all levels, oldest first. The time is constant.
    pub(crate) fn formulas(&self) -> &[Term]
        ensures { result.now ≡ formulas self.now }
    {
        self.formulas.as_slice()
    }
}

/// How many formulas stand below a level.
fn begin_of(marks: &[usize], level: usize) -> usize
    requires { level ≤ length marks.now }
    ensures { result ≡ slice_index_or (0 ∷ marks.now) level 0 }
{
    if level == 0 {
        return 0;
    }
    marks[level - 1]
}

/// How many formulas stand up to the end of a level, where there are so many in all.
fn end_of(marks: &[usize], level: usize, all: usize) -> usize
    ensures { result ≡ slice_index_or marks.now level all }
{
    if level < marks.len() {
        return marks[level];
    }
    all
}

/// The terms between two places.
fn part_of(terms: &[Term], from: usize, to: usize) -> &[Term]
    requires order { from ≤ to }
    requires within { to ≤ length terms.now }
    ensures { result.now ≡ slice_range terms.now from to }
{
    &terms[from..to]
}

/// Adds an item at the end.
fn append<T: Drop>(list: &mut Vec<T>, item: T) -> Result<(), ContextError>
    ensures ok { OnOk result (list.new.items ≡ list.old.items ++ item ∷ []) }
    ensures err { OnErr result (list.new.items ≡ list.old.items) }
    ensures cause { IfErr result (λ e. e ≡ ContextError.NoMemory) }
{
    match list.push(item) {
        Ok(()) => Ok(()),
        Err(_) => Err(ContextError::NoMemory),
    }
}
