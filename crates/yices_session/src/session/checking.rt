//! Checks, and the core that is kept.
ghost use Rattle.std.specs.Prelude.{◌≡◌, ◌++◌, true, false, [], List, Some, length, map, string_bytes, IfOk, IfErr, OnOk, OnErr};
ghost use Rattle.y_tree.specs.Values.{truth};
ghost use Rattle.term_shapes.specs.declared.handles.Term.{Term};
ghost use Rattle.model_eval.specs.Models.{IsModel, assignment_of};
ghost use Rattle.term_checks.specs.Answers as found;
ghost use Rattle.term_checks.specs.Problems.{IsLearned};
ghost use Rattle.term_checks.specs.Verdicts.{IfSat, IfUnknown, IfUnsat};
ghost use Rattle.yices_session.specs.Held.{AreTruths};
ghost use Rattle.yices_commands.specs.Plain.{plain_literal};
ghost use Rattle.yices_grammar.specs.Commands as command;
ghost use Rattle.yices_session.specs.Answers.{Halts, Moves};
ghost use Rattle.yices_session.specs.Refusals.{IsRefused};
ghost use Rattle.yices_api.specs.State.{ContextsStay};
ghost use Rattle.yices_session.specs.Parts.{AssumesAll, MayAddSome, StopsAssuming, literal_of, spaced};
ghost use Rattle.yices_session.specs.Replies.{core_text, literal_text, reply_text};
ghost use Rattle.yices_session.specs.State.{scope_of};
ghost use Rattle.yices_session.specs.Steps.{Assumed, Checks, ChecksAssuming, ShowsCore, assumed_terms, blamed_among, unknown_in};
ghost use Rattle.expression_terms.specs.declared.refusal.Stop.TheVariants.{NoMemory};

use crate::refusal::Reply;
use crate::session::laws::known;
use crate::session::{Core, Session};
use expression_terms::{Stop, build_literal};
use indexmap::IndexSet;
use model_eval::{Model, ModelError, TermValues};
use std::alloc::Global;
use term_checks::{CheckError, TermVerdict, Turns, check_terms};
use term_table::{Table, Term, Terms};
use y_io::Text;
use y_tree::Value;
use y_tree::laws::sorts_are_decided;
use yices_api::Env;
use yices_commands::LitExpr;

/// The terms of literals, in order.
///
/// # Errors
///
/// `UnknownName` at the name; `TableFull`; `NoMemory`.
fn assumed_terms(alloc: Global, env: &mut Env, literals: &[LitExpr]) -> Result<Terms, Stop>
    ensures built { IfOk result (λ ts. AssumesAll env.old.table env.new.table (map plain_literal literals.now) ts) }
    ensures refused { IfErr result (StopsAssuming env.old env.new (map plain_literal literals.now)) }
    ensures grows { OnErr result (MayAddSome env.old.table env.new.table) }
    ensures contexts { ContextsStay env.old env.new }
{
    let mut terms = Terms::new(alloc);
    for literal in literals {
        let t = build_literal(alloc, env, literal)?;
        terms.push(t)?;
    }
    Ok(terms)
}

/// The verdict on formulas together with assumptions.
///
/// # Errors
///
/// `NoMemory`.
fn decided(
    alloc: Global,
    table: &Table,
    formulas: &[Term],
    assumed: &[Term],
    turns: Turns,
) -> Result<TermVerdict, Stop>
    requires formulas { AreTruths table.now formulas.now }
    requires assumptions { AreTruths table.now assumed.now }
    ensures sat { IfOk result (λ v. IfSat v (found.IsModel table.now formulas.now assumed.now)) }
    ensures unsat { IfOk result (λ v. IfUnsat v (found.IsCore table.now formulas.now assumed.now)) }
    ensures unknown { IfOk result (λ v. IfUnknown v (IsLearned table.now formulas.now assumed.now turns)) }
    ensures cause { IfErr result (λ e. e ≡ NoMemory) }
{
    match check_terms(alloc, table, formulas, assumed, turns) {
        Ok(verdict) => Ok(verdict),
        Err(CheckError::NoMemory) => Err(Stop::NoMemory),
        Err(CheckError::NotBuilt) => unreachable!(),
    }
}

/// The model of truth values that a check found.
///
/// # Errors
///
/// `NoMemory`.
fn model_of(alloc: Global, table: &Table, values: &term_checks::TermValues) -> Result<Model, Stop>
    requires { (fs : List Term) × (as_ : List Term) × found.IsModel table.now fs as_ values.now }
    ensures model { IfOk result (λ m. IsModel table.now m) }
    ensures same { IfOk result (λ m. assignment_of table.now m ≡ found.assignment_by table.now values.now) }
    ensures cause { IfErr result (λ e. e ≡ NoMemory) }
{
    let mut items = TermValues::new(alloc);
    for entry in values.as_slice() {
        items.push((entry.0, Value::Bool(entry.1)))?;
    }
    table.is_table();
    sorts_are_decided();
    match Model::from_values(alloc, table, items) {
        Ok(model) => Ok(model),
        Err(error) => match error {
            ModelError::NoMemory => Err(Stop::NoMemory),
            _ => unreachable!(),
        },
    }
}

/// Adds a literal as it was written, behind a space where it isn't the first.
///
/// # Errors
///
/// `NoMemory`.
fn write_literal(line: &mut String, literal: &LitExpr, is_first: bool) -> Result<(), Stop>
    ensures ok { OnOk result (string_bytes line.new ≡ string_bytes line.old ++ spaced is_first (literal_text (literal_of (plain_literal literal.now)))) }
    ensures cause { IfErr result (λ e. e ≡ NoMemory) }
{
    if !is_first {
        line.push_str(" ")?;
    }
    if literal.positive {
        line.push_str(literal.name.as_str())?;
    } else {
        line.push_str("(not ")?;
        line.push_str(literal.name.as_str())?;
        line.push_str(")")?;
    }
    Ok(())
}

/// The line of the literals that are blamed, in the order in which they were written; of those with one term the first alone.
///
/// # Errors
///
/// `NoMemory`.
fn core_line(
    alloc: Global,
    blamed: &[Term],
    literals: &[LitExpr],
    assumed: &[Term],
) -> Result<String, Stop>
    requires { length assumed.now ≡ length literals.now }
    ensures line { (as_ : List Assumed) → map (λ (a : Assumed). a.literal) as_ ≡ map literal_of (map plain_literal literals.now) → assumed_terms as_ ≡ assumed.now → IfOk result (λ line. string_bytes line ≡ core_text (Some (record { terms = blamed.now; written = map (λ (a : Assumed). a.literal) (blamed_among blamed.now as_) }))) }
    ensures cause { IfErr result (λ e. e ≡ NoMemory) }
{
    let mut left: IndexSet<Term> = IndexSet::new(alloc);
    for t in blamed {
        if left.insert(*t).is_err() {
            return Err(Stop::NoMemory);
        }
    }
    let mut line = String::from_str(alloc, "(")?;
    let mut is_first = true;
    for i in 0..literals.len() {
        if left.swap_remove(&assumed[i]) {
            write_literal(&mut line, &literals[i], is_first)?;
            is_first = false;
        }
    }
    line.push_str(")\n")?;
    Ok(line)
}

impl Session {
    /// Checks the formulas of all levels. A model that is found is kept.
    pub(crate) fn check(&mut self) -> Result<Reply, Stop>
        ensures step { IfOk result (λ r. Moves (λ s says next. Checks self.old.turns s false [] says next) self.old (reply_text r) self.new) }
        ensures stopped { IfErr result (λ why. Halts (λ s next. why ≡ NoMemory) self.old self.new) }
    {
        self.env.is_world();
        self.model = None;
        self.core = None;
        let table = self.env.table();
        match decided(self.alloc, table, self.formulas.as_slice(), &[], self.turns)? {
            TermVerdict::Sat(values) => {
                let model = model_of(self.alloc, table, &values)?;
                self.model = Some(model);
                Ok(Reply::Sat)
            }
            TermVerdict::Unsat(_) => Ok(Reply::Unsat),
            TermVerdict::Unknown(_) => Ok(Reply::Unknown),
        }
    }

    /// Checks the formulas of all levels together with literals. A model or a core that is found is kept.
    pub(crate) fn check_assuming(&mut self, literals: &[LitExpr]) -> Result<Reply, Stop>
        ensures step { IfOk result (λ r. Moves (λ s says next. ChecksAssuming self.old.turns s (map plain_literal literals.now) says next) self.old (reply_text r) self.new) }
        ensures stopped { IfErr result (λ why. Halts (λ s next. IsRefused (unknown_in (scope_of s.names) (map plain_literal literals.now)) next why) self.old self.new) }
    {
        known();
        self.env.is_world();
        let assumed = assumed_terms(self.alloc, &mut self.env, literals)?;
        self.env.is_world();
        self.model = None;
        self.core = None;
        let table = self.env.table();
        let formulas = self.formulas.as_slice();
        match decided(self.alloc, table, formulas, assumed.as_slice(), self.turns)? {
            TermVerdict::Sat(values) => {
                let model = model_of(self.alloc, table, &values)?;
                self.model = Some(model);
                Ok(Reply::Sat)
            }
            TermVerdict::Unsat(blamed) => {
                let line = core_line(self.alloc, blamed.as_slice(), literals, assumed.as_slice())?;
                self.core = Some(Core {
                    terms: blamed,
                    line,
                });
                Ok(Reply::Unsat)
            }
            TermVerdict::Unknown(_) => Ok(Reply::Unknown),
        }
    }

    /// Shows the core that is kept.
    pub(crate) fn show_core(&mut self) -> Result<Reply, Stop>
        ensures step { IfOk result (λ r. Moves ShowsCore self.old (reply_text r) self.new) }
        ensures same { self.new ≡ self.old }
        ensures cause { IfErr result (λ e. e ≡ NoMemory) }
    {
        match &self.core {
            Some(core) => {
                let line = String::from_str(self.alloc, core.line.as_str())?;
                Ok(Reply::Text(line))
            }
            None => Ok(Reply::NoCore),
        }
    }
}
