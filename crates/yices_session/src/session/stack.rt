//! Formulas and levels.
ghost use Rattle.std.specs.Prelude.{◌≡◌, ◌++◌, ◌∷◌, [], None, IfOk, IfErr, OnOk, OnErr};
ghost use Rattle.yices_commands.specs.Plain.{plain};
ghost use Rattle.expression_terms.specs.Building.{cause_in};
ghost use Rattle.expression_terms.specs.Trees.{tree_of};
ghost use Rattle.yices_grammar.specs.Commands as command;
ghost use Rattle.yices_session.specs.Answers.{Halts, Moves};
ghost use Rattle.yices_session.specs.Refusals.{IsRefused, cause_of};
ghost use Rattle.yices_session.specs.Replies.{reply_text};
ghost use Rattle.yices_session.specs.State.{scope_of};
ghost use Rattle.yices_session.specs.Steps.{Asserts, Pops, Pushes, Resets};

use crate::refusal::Reply;
use crate::session::Session;
use crate::session::collecting::{add_roots, free_unreached};
use crate::session::laws::known;
use crate::session::lists::append;
use expression_terms::{Refusal, Stop, build};
use term_table::Terms;
use yices_api::MarkedList;
use yices_commands::Expr;
use yices_grammar::Place;

/// The most levels that may be open.
const MOST_LEVELS: usize = 65_536;

impl Session {
    /// Asserts a formula at the newest level.
    pub(crate) fn assert(&mut self, formula: &Expr) -> Result<Reply, Stop>
        ensures step { IfOk result (λ r. Moves (λ s says next. Asserts s (plain formula.now) says next) self.old (reply_text r) self.new) }
        ensures stopped { IfErr result (λ why. Halts (λ s next. IsRefused (cause_in (tree_of (scope_of s.names) (plain formula.now))) next why) self.old self.new) }
    {
        known();
        self.env.is_world();
        let mut parts = Terms::new(self.alloc);
        let term = build(self.alloc, &mut self.env, &mut parts, formula)?;
        self.env.is_world();
        append(&mut self.formulas, term)?;
        self.model = None;
        self.core = None;
        Ok(Reply::Nothing)
    }

    /// Opens a level.
    pub(crate) fn push(&mut self, place: Place) -> Result<Reply, Stop>
        ensures step { IfOk result (λ r. Moves (λ s says next. Pushes s says next) self.old (reply_text r) self.new) }
        ensures stopped { IfErr result (λ why. Halts (λ s next. IsRefused (cause_of s place command.push) next why) self.old self.new) }
    {
        if self.marks.len() >= MOST_LEVELS {
            return Err(Stop::Refused(place, Refusal::TooDeep));
        }
        append(&mut self.marks, self.formulas.len())?;
        self.model = None;
        self.core = None;
        Ok(Reply::Nothing)
    }

    /// Takes the newest level away.
    pub(crate) fn pop(&mut self, place: Place) -> Result<Reply, Stop>
        ensures step { IfOk result (λ r. Moves (λ s says next. Pops s says next) self.old (reply_text r) self.new) }
        ensures stopped { IfErr result (λ why. Halts (λ s next. IsRefused (cause_of s place command.pop) next why) self.old self.new) }
    {
        match self.marks.pop() {
            Some(mark) => {
                self.formulas.truncate(mark);
                self.model = None;
                self.core = None;
                Ok(Reply::Nothing)
            }
            None => Err(Stop::Refused(place, Refusal::BottomLevel)),
        }
    }

    /// Takes all levels and formulas away, and frees what nothing reaches then.
    pub(crate) fn reset(&mut self) -> Result<Reply, Stop>
        ensures step { IfOk result (λ r. Moves (λ s says next. Resets s says next) self.old (reply_text r) self.new) }
        ensures stopped { IfErr result (λ why. Halts (λ s next. IsRefused None next why) self.old self.new) }
    {
        let mut roots = MarkedList::new(self.alloc);
        add_roots(&mut roots, self.parts.as_slice())?;
        self.formulas.clear();
        self.marks.clear();
        self.model = None;
        self.core = None;
        free_unreached(&mut self.env, roots);
        Ok(Reply::Nothing)
    }
}
