//! The model that is kept, and values in it.
ghost use Rattle.std.specs.Prelude.{◌≡◌, ◌++◌, ◌∷◌, [], List, Option, codes, map, string_bytes, IfOk, IfErr, OnOk};
ghost use Rattle.y_tree.specs.Tree.{Tree};
ghost use Rattle.y_tree.specs.Meaning.{meaning};
ghost use Rattle.value_texts.specs.Texts.{value_text};
ghost use Rattle.model_eval.specs.Models.{IsModel, assignment_of};
ghost use Rattle.expression_terms.specs.Standing.{StandsFor};
ghost use Rattle.yices_session.specs.Held.{AreTruths, IsKeptModel};
ghost use Rattle.yices_session.specs.Parts.{AreShown};
ghost use Rattle.yices_commands.specs.Plain.{plain};
ghost use Rattle.expression_terms.specs.Building.{cause_in};
ghost use Rattle.expression_terms.specs.Trees.{tree_of};
ghost use Rattle.expression_terms.specs.declared.refusal.Stop.TheVariants.{NoMemory};
ghost use Rattle.yices_session.specs.Answers.{Halts, Moves};
ghost use Rattle.yices_session.specs.Refusals.{IsRefused};
ghost use Rattle.yices_session.specs.Replies.{name_lines, reply_text, value_reply};
ghost use Rattle.yices_session.specs.State.{Kept, Named, scope_of};
ghost use Rattle.yices_session.specs.Steps.{Evaluates, ShowsModel};

use crate::refusal::Reply;
use crate::session::laws::known;
use crate::session::{Declared, Session};
use expression_terms::{Stop, build};
use model_eval::{EvalError, Model};
use std::alloc::Global;
use term_table::{Table, Term, Terms};
use value_texts::write_value;
use y_io::Text;
use yices_commands::Expr;

/// The text of the value of a term.
///
/// # Errors
///
/// `NoMemory`.
fn value_of(alloc: Global, table: &Table, model: &Model, t: Term) -> Result<Text, Stop>
    requires model { IsModel table.now model.now }
    requires truths { AreTruths table.now (t ∷ []) }
    ensures text { IfOk result (λ text. (d : Tree) → StandsFor table.now d t → text ≡ value_text (meaning d (assignment_of table.now model.now))) }
    ensures cause { IfErr result (λ e. e ≡ NoMemory) }
{
    table.is_table();
    match model.value(alloc, table, t) {
        Ok(value) => {
            let text = write_value(alloc, &value)?;
            Ok(text)
        }
        Err(error) => match error {
            EvalError::NoMemory => Err(Stop::NoMemory),
            _ => unreachable!(),
        },
    }
}

/// Adds the line of a name and its value.
///
/// # Errors
///
/// `NoMemory`.
fn write_line(text: &mut String, name: &Text, value: &Text) -> Result<(), Stop>
    ensures ok { OnOk result (string_bytes text.new ≡ string_bytes text.old ++ (codes "(= " ++ name.now ++ codes " " ++ value.now ++ codes ")\n")) }
    ensures cause { IfErr result (λ e. e ≡ NoMemory) }
{
    text.push_str("(= ")?;
    text.push_str(name.as_str())?;
    text.push_str(" ")?;
    text.push_str(value.as_str())?;
    text.push_str(")\n")?;
    Ok(())
}

/// The lines of the names without a value, under a model.
///
/// # Errors
///
/// `NoMemory`.
fn show_names(
    alloc: Global,
    table: &Table,
    model: &Model,
    declared: &[Declared],
) -> Result<String, Stop>
    requires model { IsModel table.now model.now }
    requires truths { AreTruths table.now (map (λ d. d.term) declared.now) }
    ensures lines { IfOk result (λ text. (ns : List Named) → AreShown table.now declared.now ns → string_bytes text ≡ name_lines (assignment_of table.now model.now) ns) }
    ensures cause { IfErr result (λ e. e ≡ NoMemory) }
{
    let mut text = String::new(alloc);
    for name in declared {
        if !name.has_value {
            let value = value_of(alloc, table, model, name.term)?;
            write_line(&mut text, &name.name, &value)?;
        }
    }
    Ok(text)
}

/// The line of the value of a term under the model that is kept.
///
/// # Errors
///
/// `NoMemory`.
fn show_value(alloc: Global, table: &Table, kept: &Option<Model>, t: Term) -> Result<Reply, Stop>
    requires model { (k : Option Kept) × IsKeptModel table.now kept.now k }
    requires truths { AreTruths table.now (t ∷ []) }
    ensures line { IfOk result (λ r. (k : Option Kept) → IsKeptModel table.now kept.now k → (d : Tree) → StandsFor table.now d t → reply_text r ≡ value_reply k d) }
    ensures cause { IfErr result (λ e. e ≡ NoMemory) }
{
    match kept {
        Some(model) => {
            let value = value_of(alloc, table, model, t)?;
            let mut line = String::from_str(alloc, value.as_str())?;
            line.push_str("\n")?;
            Ok(Reply::Text(line))
        }
        None => Ok(Reply::NoModel),
    }
}

impl Session {
    /// Shows the model that is kept.
    pub(crate) fn show_model(&mut self) -> Result<Reply, Stop>
        ensures step { IfOk result (λ r. Moves ShowsModel self.old (reply_text r) self.new) }
        ensures same { self.new ≡ self.old }
        ensures cause { IfErr result (λ e. e ≡ NoMemory) }
    {
        known();
        let table = self.env.table();
        table.is_table();
        match &self.model {
            Some(model) => {
                let text = show_names(self.alloc, table, model, self.declared.as_slice())?;
                Ok(Reply::Text(text))
            }
            None => Ok(Reply::NoModel),
        }
    }

    /// Shows the value of an expression under the model that is kept. The expression is built first.
    pub(crate) fn eval(&mut self, term: &Expr) -> Result<Reply, Stop>
        ensures step { IfOk result (λ r. Moves (λ s says next. Evaluates s (plain term.now) says next) self.old (reply_text r) self.new) }
        ensures stopped { IfErr result (λ why. Halts (λ s next. IsRefused (cause_in (tree_of (scope_of s.names) (plain term.now))) next why) self.old self.new) }
    {
        known();
        self.env.table().is_table();
        let mut parts = Terms::new(self.alloc);
        let t = build(self.alloc, &mut self.env, &mut parts, term)?;
        let table = self.env.table();
        table.is_table();
        show_value(self.alloc, table, &self.model, t)
    }
}
