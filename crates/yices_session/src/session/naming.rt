//! Declarations and definitions.
ghost use Rattle.std.specs.Prelude.{◌≡◌, ◌++◌, None, IfOk, IfErr, OnOk, OnErr};
ghost use Rattle.term_table.specs.Changes.{MakesConstant};
ghost use Rattle.term_table.specs.Naming.{term_named};
ghost use Rattle.term_table.specs.World.{HasTypeShape};
ghost use Rattle.term_shapes.specs.declared.handles.TypeId.{TypeId};
ghost use Rattle.term_shapes.specs.declared.shapes.TypeShape.TheVariants as type;
ghost use Rattle.yices_api.specs.State.{ContextsStay};
ghost use Rattle.yices_commands.specs.Plain.{plain};
ghost use Rattle.expression_terms.specs.Building.{cause_in};
ghost use Rattle.expression_terms.specs.Trees.{tree_of};
ghost use Rattle.expression_terms.specs.declared.refusal.Stop.TheVariants.{NoMemory};
ghost use Rattle.yices_session.specs.Answers.{Halts, Moves};
ghost use Rattle.yices_session.specs.Refusals.{IsRefused, unless_used};
ghost use Rattle.yices_session.specs.Parts.{IsFullAt, IsInUse};
ghost use Rattle.yices_session.specs.Replies.{reply_text};
ghost use Rattle.yices_session.specs.State.{scope_of};
ghost use Rattle.yices_session.specs.Steps.{Declares, Defines};

use crate::refusal::Reply;
use crate::session::laws::known;
use crate::session::lists::append_all;
use crate::session::{Declared, Session};
use expression_terms::{Refusal, Stop, build};
use std::alloc::Global;
use term_table::{Term, Terms};
use y_io::Text;
use yices_api::{Call, Env, Reply as Answer, step};
use yices_commands::Expr;
use yices_grammar::Place;

/// The refusal of a name that is in use.
fn in_use(alloc: Global, place: Place, name: &Text) -> Stop
    ensures { IsInUse place name.now result }
{
    match Text::new(alloc, name.as_str()) {
        Ok(used) => Stop::Refused(place, Refusal::NameInUse(used)),
        Err(_) => Stop::NoMemory,
    }
}

/// A new Boolean constant.
///
/// # Errors
///
/// `TableFull` at the place; `NoMemory`. Then nothing has changed.
fn new_constant(env: &mut Env, place: Place) -> Result<Term, Stop>
    ensures made { IfOk result (λ t. (of : TypeId) × HasTypeShape env.old.table of type.Bool × MakesConstant env.old.table env.new.table of t) }
    ensures refused { IfErr result (IsFullAt place env.old) }
    ensures same { OnErr result (env.new ≡ env.old) }
    ensures contexts { ContextsStay env.old env.new }
{
    let of = env.table().bool_type();
    match step(env, &Call::NewUninterpretedTerm(of)) {
        Answer::Term(t) => Ok(t),
        Answer::Refused(_) => Err(Stop::Refused(place, Refusal::TableFull)),
        _ => Err(Stop::NoMemory),
    }
}

/// Gives a term a name.
///
/// # Errors
///
/// `NoMemory`. Then nothing has changed.
fn name_term(alloc: Global, env: &mut Env, name: &Text, t: Term) -> Result<(), Stop>
    ensures ok { OnOk result (env.new ≡ record env.old { table = term_named env.old.table name.now t }) }
    ensures err { OnErr result (env.new ≡ env.old) }
    ensures cause { IfErr result (λ e. e ≡ NoMemory) }
{
    let copy = Text::new(alloc, name.as_str())?;
    match step(env, &Call::SetTermName(copy, t)) {
        Answer::Done => Ok(()),
        _ => Err(Stop::NoMemory),
    }
}

/// Adds what was built on the way.
///
/// # Errors
///
/// `NoMemory`. Then nothing is added.
fn add_parts(terms: &mut Vec<Term>, more: &[Term]) -> Result<(), Stop>
    ensures ok { OnOk result (terms.new.items ≡ terms.old.items ++ more.now) }
    ensures err { OnErr result (terms.new.items ≡ terms.old.items) }
    ensures cause { IfErr result (λ e. e ≡ NoMemory) }
{
    let before = terms.len();
    match append_all(terms, more) {
        Ok(()) => Ok(()),
        Err(why) => {
            terms.truncate(before);
            Err(why)
        }
    }
}

impl Session {
    /// Declares a name as a new Boolean constant.
    pub(crate) fn declare(&mut self, place: Place, name: &Text) -> Result<Reply, Stop>
        ensures step { IfOk result (λ r. Moves (λ s says next. Declares s name.now says next) self.old (reply_text r) self.new) }
        ensures stopped { IfErr result (λ why. Halts (λ s next. IsRefused (unless_used s place name.now None) next why) self.old self.new) }
    {
        if self.env.table().by_name(name.as_str()).is_some() {
            return Err(in_use(self.alloc, place, name));
        }
        self.env.is_world();
        let copy = Text::new(self.alloc, name.as_str())?;
        if self.declared.reserve(1).is_err() {
            return Err(Stop::NoMemory);
        }
        let term = new_constant(&mut self.env, place)?;
        self.env.is_world();
        name_term(self.alloc, &mut self.env, name, term)?;
        self.declared.push_reserved(Declared {
            name: copy,
            term,
            has_value: false,
        });
        Ok(Reply::Nothing)
    }

    /// Defines a name by an expression.
    pub(crate) fn define(&mut self, place: Place, name: &Text, value: &Expr) -> Result<Reply, Stop>
        ensures step { IfOk result (λ r. Moves (λ s says next. Defines s name.now (plain value.now) says next) self.old (reply_text r) self.new) }
        ensures stopped { IfErr result (λ why. Halts (λ s next. IsRefused (unless_used s place name.now (cause_in (tree_of (scope_of s.names) (plain value.now)))) next why) self.old self.new) }
    {
        if self.env.table().by_name(name.as_str()).is_some() {
            return Err(in_use(self.alloc, place, name));
        }
        known();
        self.env.is_world();
        let mut parts = Terms::new(self.alloc);
        let term = build(self.alloc, &mut self.env, &mut parts, value)?;
        self.env.is_world();
        let copy = Text::new(self.alloc, name.as_str())?;
        if self.declared.reserve(1).is_err() {
            return Err(Stop::NoMemory);
        }
        add_parts(&mut self.parts, parts.as_slice())?;
        name_term(self.alloc, &mut self.env, name, term)?;
        self.declared.push_reserved(Declared {
            name: copy,
            term,
            has_value: true,
        });
        Ok(Reply::Nothing)
    }
}
