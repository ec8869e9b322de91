//! The names that `let` binds, over those that the table has.
ghost use Rattle.std.specs.Prelude.{◌≡◌, ℕ, ◌≤◌, ◌++◌, ◌∷◌, [], List, Some, None, IfErr, IfOk, IfSome, IfNone, OnErr, OnOk, map, take, length};
ghost use Rattle.name_stacks.specs.Names.{without_newest};
ghost use Rattle.term_shapes.specs.declared.handles.Term.{Term};
ghost use Rattle.yices_grammar.specs.declared.Place.{Place};
ghost use Rattle.expression_terms.specs.Bound.{binding_names, IsBoundBy};
ghost use Rattle.expression_terms.specs.Building.{named_in, term_named, IsMissing};
ghost use Rattle.expression_terms.specs.Trees.{repeated};
ghost use Rattle.expression_terms.specs.declared.refusal.Stop.TheVariants.{NoMemory};

use crate::refusal::{Refusal, Stop};
use name_stacks::Names;
use std::alloc::Global;
use std::marker::Model;
use term_table::{Table, Term};
use y_io::Text;
use yices_commands::Bind;
use yices_grammar::Place;

/// The names that `let` binds at the place that is read. A name that is bound hides what it stands for otherwise.
#[derive(Drop)]
pub(crate) struct Bound {
    names: Names<Term>,
}

impl Model for Bound {
    ghost use Rattle.std.specs.Prelude.{ℕ, List};
    ghost use Rattle.term_shapes.specs.declared.handles.Term.{Term};

    ghost Value = { List (List ℕ × Term) };

    ghost view = { λ b. b.names };
}

impl Bound {
    /// No names. Takes no memory.
    pub(crate) fn new(alloc: Global) -> Bound
        ensures { result ≡ [] }
    {
        Bound {
            names: Names::new(alloc),
        }
    }

    /// The term that a name stands for, in expected constant time.
    fn term_of(&self, table: &Table, name: &Text) -> Option<Term>
        ensures { result ≡ term_named (named_in table.now self.now) name.now }
    {
        match self.names.newest(name.as_str()) {
            Some(t) => Some(t),
            None => table.by_name(name.as_str()),
        }
    }

    /// Binds a name over what it stands for, in expected constant time beside its copies.
    ///
    /// # Errors
    ///
    /// `NoMemory`. Then nothing has changed.
    fn bind(&mut self, name: &Text, term: Term) -> Result<(), Stop>
        ensures ok { OnOk result (self.new ≡ self.old ++ (name.now, term) ∷ []) }
        ensures err { OnErr result (self.new ≡ self.old) }
        ensures cause { IfErr result (λ e. e ≡ NoMemory) }
    {
        self.names.push(name.as_str(), term)?;
        Ok(())
    }

    /// Takes the newest binding of a name away, in time linear in the names that were bound after it.
    fn unbind(&mut self, name: &Text)
        ensures { self.new ≡ without_newest name.now self.old }
    {
        let _ = self.names.remove(name.as_str());
    }
}

/// The term that a name stands for.
///
/// # Errors
///
/// `UnknownName` at the place; `NoMemory`.
pub(crate) fn find(
    alloc: Global,
    table: &Table,
    names: &Bound,
    place: Place,
    name: &Text,
) -> Result<Term, Stop>
    ensures found { IfOk result (λ t. term_named (named_in table.now names.now) name.now ≡ Some t) }
    ensures missing { IfErr result (IsMissing (named_in table.now names.now) place name.now) }
{
    match names.term_of(table, name) {
        Some(t) => Ok(t),
        None => match Text::new(alloc, name.as_str()) {
            Ok(unknown) => Err(Stop::Refused(place, Refusal::UnknownName(unknown))),
            Err(_) => Err(Stop::NoMemory),
        },
    }
}

/// The place, from 0 on, of the first binding whose name an earlier one has. The time is linear in the names.
///
/// # Errors
///
/// `NoMemory`.
pub(crate) fn first_repeated(alloc: Global, binds: &[Bind]) -> Result<Option<usize>, Stop>
    ensures some { IfOk result (λ r. IfSome r (λ i. IsBoundBy binds.now i (repeated (binding_names binds.now)))) }
    ensures none { IfOk result (λ r. IfNone r (repeated (binding_names binds.now) ≡ None)) }
    ensures cause { IfErr result (λ e. e ≡ NoMemory) }
{
    let mut seen: Names<usize> = Names::new(alloc);
    for i in 0..binds.len() {
        if seen.newest(binds[i].name.as_str()).is_some() {
            return Ok(Some(i));
        }
        seen.push(binds[i].name.as_str(), i)?;
    }
    Ok(None)
}

/// Takes away the bindings of the first names, so many, the newest first.
pub(crate) fn unbind_first(names: &mut Bound, binds: &[Bind], count: usize)
    requires { count ≤ length binds.now }
    ensures { (before ps : List (List ℕ × Term)) → names.old ≡ before ++ ps → map (λ (p : List ℕ × Term). p.0) ps ≡ take count (binding_names binds.now) → names.new ≡ before }
{
    for i in 0..count {
        names.unbind(&binds[count - 1 - i].name);
    }
}

/// Binds each name to the term at its place.
///
/// # Errors
///
/// `NoMemory`. Then nothing is bound.
pub(crate) fn bind_all(names: &mut Bound, binds: &[Bind], terms: &[Term]) -> Result<(), Stop>
    requires { length terms.now ≡ length binds.now }
    ensures ok { OnOk result ((ps : List (List ℕ × Term)) × (names.new ≡ names.old ++ ps) × (map (λ (p : List ℕ × Term). p.0) ps ≡ binding_names binds.now) × (map (λ (p : List ℕ × Term). p.1) ps ≡ terms.now)) }
    ensures err { OnErr result (names.new ≡ names.old) }
    ensures cause { IfErr result (λ e. e ≡ NoMemory) }
{
    for i in 0..binds.len() {
        if names.bind(&binds[i].name, terms[i]).is_err() {
            unbind_first(names, binds, i);
            return Err(Stop::NoMemory);
        }
    }
    Ok(())
}
