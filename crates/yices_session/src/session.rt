//! The session itself.
ghost use Rattle.std.specs.Prelude.{◌≡◌, [], IfOk, IfErr};
ghost use Rattle.yices_commands.specs.Plain.{plain_command};
ghost use Rattle.yices_session.specs.Answers.{Answers, Halts, Moves, Refuses};
ghost use Rattle.yices_session.specs.Held.{Stands};
ghost use Rattle.yices_session.specs.Refusals.{cause_of, IsRefused};
ghost use Rattle.yices_session.specs.Replies.{reply_text};
ghost use Rattle.yices_session.specs.State.{State, IsStart};
ghost use Rattle.yices_session.specs.Steps.{Does, Says};
ghost use Rattle.expression_terms.specs.declared.refusal.Stop.TheVariants.{NoMemory};

use crate::built::is_built;
use crate::refusal::Reply;
use expression_terms::{Refusal, Stop};
use model_eval::Model;
use std::alloc::{AllocError, Global};
use term_checks::Turns;
use term_table::{Term, Terms};
use y_io::Text;
use yices_api::Env;
use yices_commands::{Action, Command};

mod checking;
mod collecting;
mod laws;
mod lists;
mod models;
mod naming;
mod stack;

/// From so many live terms on, what nothing reaches is freed before a command.
const MANY_TERMS: usize = 2_097_152;

/// A name with its term.
#[derive(Drop)]
struct Declared {
    name: Text,
    term: Term,
    has_value: bool,
}

/// Assumptions that can't be true with the formulas: their terms, each once, and how they are printed.
#[derive(Drop)]
struct Core {
    terms: Terms,
    line: String,
}

/// What the commands so far have declared and asserted.
#[derive(Drop)]
pub struct Session {
    alloc: Global,
    env: Env,
    declared: Vec<Declared>,
    /// The terms that were built on the way to those of names.
    parts: Vec<Term>,
    /// The formulas of all levels, the oldest first.
    formulas: Vec<Term>,
    /// How many formulas there were as each level was opened, the oldest level first.
    marks: Vec<usize>,
    model: Option<Model>,
    core: Option<Core>,
    turns: Turns,
}

impl std::marker::Model for Session {
    ghost use Rattle.std.specs.Coded.{codes};
    ghost use Rattle.y_tree.specs.Codes.{coded_value};
    ghost use Rattle.term_shapes.specs.contracts.handles.Term as term;
    ghost use Rattle.yices_session.specs.Held.{Held, IsSession};
    ghost use Rattle.yices_session.specs.View.{held_of};

    ghost Value = { Held };

    ghost coded = { Prim.hlevel (codes, coded_value, term.the_row.coded) };

    ghost view = { held_of };

    ghost invariant = { λ s. IsSession (held_of s) };
}

impl Session {
    /// A session in which nothing is declared and nothing asserted, with a limit of turns for each check.
    ///
    /// # Errors
    ///
    /// Where memory is refused.
    pub fn new(alloc: Global, turns: Turns) -> Result<Session, AllocError>
        ensures turns { IfOk result (λ session. session.turns ≡ turns) }
        ensures start { IfOk result (λ session. (s : State) × IsStart s × Stands session s) }
    {
        let env = Env::new(alloc)?;
        Ok(Session {
            alloc,
            env,
            declared: Vec::new(alloc),
            parts: Vec::new(alloc),
            formulas: Vec::new(alloc),
            marks: Vec::new(alloc),
            model: None,
            core: None,
            turns,
        })
    }

    /// Answers a command, or tells why it has no reply. A command takes as many steps as it has parts beside those of the
    /// constructors; a check those of the search, `eval` one pass over the distinct subterms, `pop` one step for each
    /// formula that it takes away, and `reset` and a collection one pass over the table.
    ///
    /// # Errors
    ///
    /// The refusal of the command at its place; `TableFull`; `NoMemory`. Then whatever was declared and asserted stays.
    pub fn answer(&mut self, command: &Command) -> Result<Reply, Stop>
        ensures step { IfOk result (λ r. Answers (plain_command command.now) self.old (reply_text r) self.new) }
        ensures stopped { IfErr result (λ why. Refuses (plain_command command.now) self.old why self.new) }
    {
        if !is_built(command) {
            return Err(Stop::Refused(command.place, Refusal::NotBuilt));
        }
        if self.env.table().count_terms() >= MANY_TERMS {
            self.collect()?;
        }
        self.answer_ready(command)
    }

    /// Answers a command that is built.
    fn answer_ready(&mut self, command: &Command) -> Result<Reply, Stop>
        ensures does { IfOk result (λ r. Moves (λ s says next. Does self.old.turns s (plain_command command.now).action says next) self.old (reply_text r) self.new) }
        ensures stopped { IfErr result (λ why. Halts (λ s next. IsRefused (cause_of s command.now.place (plain_command command.now).action) next why) self.old self.new) }
    {
        match &command.action {
            Action::Declare(name, _) => self.declare(command.place, name),
            Action::Define(name, _, value) => self.define(command.place, name, value),
            Action::Assert(formula) => self.assert(formula),
            Action::Check => self.check(),
            Action::CheckAssuming(literals) => self.check_assuming(literals.as_slice()),
            Action::ShowUnsatAssumptions => self.show_core(),
            Action::Push => self.push(command.place),
            Action::Pop => self.pop(command.place),
            Action::Reset => self.reset(),
            Action::ShowModel => self.show_model(),
            Action::Eval(term) => self.eval(term),
            Action::Echo(text) => self.echo(text),
            Action::Exit => Ok(Reply::Nothing),
            Action::DefineType(_)
            | Action::DefineTypeAs(_, _)
            | Action::ShowImplicant
            | Action::EfSolve
            | Action::Include(_) => Err(Stop::Refused(command.place, Refusal::NotBuilt)),
        }
    }

    /// The bytes of a string.
    ///
    /// # Errors
    ///
    /// `NoMemory`.
    fn echo(&mut self, text: &Text) -> Result<Reply, Stop>
        ensures step { IfOk result (λ r. Moves (λ s says next. Says text.now s says next) self.old (reply_text r) self.new) }
        ensures same { self.new ≡ self.old }
        ensures cause { IfErr result (λ e. e ≡ NoMemory) }
    {
        let bytes = String::from_str(self.alloc, text.as_str())?;
        Ok(Reply::Text(bytes))
    }
}
