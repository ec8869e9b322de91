//! Collections: what names mean, what was built on the way to it, the formulas, the constants of the model and the core
//! are kept.
ghost use Rattle.std.specs.Prelude.{◌≡◌, ◌++◌, IfErr, OnOk, OnErr, map, []};
ghost use Rattle.term_table.specs.declared.table.Marked.TheVariants as marked;
ghost use Rattle.term_table.specs.World.{IsTable};
ghost use Rattle.yices_api.specs.State.{ContextsStay};
ghost use Rattle.expression_terms.specs.declared.refusal.Stop.TheVariants.{NoMemory};
ghost use Rattle.yices_session.specs.Answers.{Moves};
ghost use Rattle.yices_session.specs.Roots.{FreesBeside, core_roots, model_roots};
ghost use Rattle.yices_session.specs.Steps.{Collects};

use crate::session::{Core, Session};
use expression_terms::Stop;
use model_eval::Model;
use std::alloc::Global;
use term_table::{Marked, Term};
use yices_api::{Call, Env, MarkedList, step};

/// Adds terms as handles to be kept.
///
/// # Errors
///
/// `NoMemory`.
pub(crate) fn add_roots(roots: &mut MarkedList, terms: &[Term]) -> Result<(), Stop>
    ensures ok { OnOk result (roots.new ≡ roots.old ++ map marked.Term terms.now) }
    ensures cause { IfErr result (λ e. e ≡ NoMemory) }
{
    for t in terms {
        roots.push(Marked::Term(*t))?;
    }
    Ok(())
}

/// Adds the constants of a model, where there is one.
///
/// # Errors
///
/// `NoMemory`.
fn add_model(roots: &mut MarkedList, model: &Option<Model>) -> Result<(), Stop>
    ensures ok { OnOk result (roots.new ≡ roots.old ++ map marked.Term (model_roots model.now)) }
    ensures cause { IfErr result (λ e. e ≡ NoMemory) }
{
    match model {
        Some(model) => add_roots(roots, model.roots()),
        None => Ok(()),
    }
}

/// Adds the terms of a core, where there is one.
///
/// # Errors
///
/// `NoMemory`.
fn add_core(roots: &mut MarkedList, core: &Option<Core>) -> Result<(), Stop>
    ensures ok { OnOk result (roots.new ≡ roots.old ++ map marked.Term (core_roots core.now)) }
    ensures cause { IfErr result (λ e. e ≡ NoMemory) }
{
    match core {
        Some(core) => add_roots(roots, core.terms.as_slice()),
        None => Ok(()),
    }
}

/// Frees what neither the handles nor what names mean reaches.
pub(crate) fn free_unreached(env: &mut Env, roots: MarkedList)
    ensures frees { FreesBeside roots env.old env.new }
    ensures table { IsTable env.old.table }
    ensures contexts { ContextsStay env.old env.new }
{
    env.is_world();
    let _ = step(env, &Call::GarbageCollect(true, roots));
}

impl Session {
    /// Frees what nothing reaches.
    ///
    /// # Errors
    ///
    /// `NoMemory`. Then nothing has changed.
    pub(crate) fn collect(&mut self) -> Result<(), Stop>
        ensures ok { OnOk result (Moves (λ s says next. Collects s next) self.old [] self.new) }
        ensures err { OnErr result (self.new ≡ self.old) }
        ensures cause { IfErr result (λ e. e ≡ NoMemory) }
    {
        let mut roots = MarkedList::new(self.alloc);
        add_roots(&mut roots, self.parts.as_slice())?;
        add_roots(&mut roots, self.formulas.as_slice())?;
        add_model(&mut roots, &self.model)?;
        add_core(&mut roots, &self.core)?;
        free_unreached(&mut self.env, roots);
        Ok(())
    }
}
