//! Models: live constants of a table, each with a value of its type.
ghost use Rattle.std.specs.Prelude.{◌≡◌, ◌++◌, ◌∷◌, [], true, false, None, Some, ◌↔◌, IfOk, IfErr, IfSome, IfNone, IsTrue, slice_get};
ghost use Rattle.std.specs.Option.{option_copied, option_map};
ghost use Rattle.std.specs.Map.{lookup};
ghost use Rattle.y_tree.specs.Plain.{plain_value};
ghost use Rattle.y_tree.specs.Values.{Value as Plain};
ghost use Rattle.term_shapes.specs.declared.handles.Term.{Term};
ghost use Rattle.term_table.specs.World.{shape_at};
ghost use Rattle.term_table.specs.Functions.{IsFirstWith, NoneHas};
ghost use Rattle.term_orders.specs.Orders.{IsIn, is_constant_shape};
ghost use Rattle.model_eval.specs.Known.{same_term};
ghost use Rattle.model_eval.specs.Models.{plain_item, plain_items, terms_of, AreFormed, IsModel};
ghost use Rattle.model_eval.specs.Refusing.{IsDead, IsOther, IsWrong, IsFirstAgain, NoneAgain, RefusesModel, Told, RefusesTwice};

use crate::errors::ModelError;
use crate::sorts::has_sort;
use crate::values::TermValues;
use indexmap::IndexSet;
use std::alloc::{AllocError, Global};
use term_table::{Shape, Table, Term};
use y_tree::Value;

/// A model: constants of a table, each with a value. All other constants have the zero value of their type.
#[derive(Drop)]
pub struct Model {
    places: IndexSet<Term>,
    entries: Vec<(Term, Value)>,
}

impl std::marker::Model for Model {
    ghost use Rattle.std.specs.Prelude.{◌≡◌, List};
    ghost use Rattle.std.specs.Coded.{codes};
    ghost use Rattle.y_tree.specs.Values.{Value as Plain};
    ghost use Rattle.y_tree.specs.Codes.{coded_value};
    ghost use Rattle.term_shapes.specs.declared.handles.Term.{Term};
    ghost use Rattle.term_shapes.specs.contracts.handles.Term as term;
    ghost use Rattle.model_eval.specs.Models.{plain_items, terms_of, AreFormed};

    ghost Value = { List (Term × Plain) };

    ghost coded = { Prim.hlevel (codes, coded_value, term.the_row.coded) };

    ghost view = { λ m. plain_items m.entries.items };

    ghost invariant = { λ m. (m.places.keys ≡ terms_of (plain_items m.entries.items)) × AreFormed (plain_items m.entries.items) };
}

impl Model {
    /// The model of these values. The time is expected linear in the values.
    ///
    /// # Errors
    ///
    /// In this order, with the least place, from 1 on: `DeadTerm` where the term is dead, `NotConstant` where it is no
    /// constant, `WrongType` where the value is none of its type, `Twice` where an earlier entry has the same term;
    /// `NoMemory`.
    pub fn from_values(
        alloc: Global,
        table: &Table,
        values: TermValues,
    ) -> Result<Model, ModelError>
        ensures same { IfOk result (λ m. m ≡ values) }
        ensures model { IfOk result (λ m. IsModel table.now m) }
        ensures refused { IfErr result (RefusesModel table.now values) }
    {
        table.is_table();
        if let Some(place) = first_dead(table, values.as_slice()) {
            return Err(ModelError::DeadTerm(place));
        }
        if let Some(place) = first_other(table, values.as_slice()) {
            return Err(ModelError::NotConstant(place));
        }
        let Ok(wrong) = first_wrong(alloc, table, values.as_slice()) else {
            return Err(ModelError::NoMemory);
        };
        if let Some(place) = wrong {
            return Err(ModelError::WrongType(place));
        }
        let places = places_of(alloc, values.as_slice())?;
        Ok(Model {
            places,
            entries: values.items,
        })
    }

    /// The constants that have a value of their own, in the order in which these were given. O(1).
    pub fn roots(&self) -> &[Term]
        ensures { result.now ≡ terms_of self.now }
    {
        self.places.as_slice()
    }

    /// The value of the root at that place, from 0 on; `None` behind the last. O(1).
    pub fn root_value(&self, place: usize) -> Option<&Value>
        ensures { option_map plain_value (option_copied result) ≡ option_map (λ (e : Term × Plain). e.1) (slice_get self.now place) }
    {
        value_at(self.entries.as_slice(), place)
    }

    /// What always holds of a model: the keys of its functions are in rising order.
    pub fn is_formed(&self)
        ensures { AreFormed self.now }
    {
        let _ = &self.entries;
    }

    /// The value that a constant has of its own. Expected O(1).
    pub(crate) fn own_value(&self, t: Term) -> Option<&Value>
        ensures { option_map plain_value (option_copied result) ≡ lookup (same_term t) self.now }
    {
        value_in(&self.places, self.entries.as_slice(), t)
    }
}

/// Whether the entry's term is dead.
fn is_dead(table: &Table, item: &(Term, Value)) -> bool
    ensures { Told (IsDead table.now (plain_item item.now)) result }
{
    !table.is_live(item.0)
}

/// Whether a term is a constant.
fn is_constant(table: &Table, t: Term) -> bool
    ensures { result ≡ is_constant_shape (shape_at table.now t) }
{
    matches!(table.shape(t), Some(Shape::Const { .. }))
}

/// Whether the entry's term is no constant.
#[tactic(auto, using(crate::proofs::Entries::other_told))]
fn is_other(table: &Table, item: &(Term, Value)) -> bool
    ensures { Told (IsOther table.now (plain_item item.now)) result }
{
    !is_constant(table, item.0)
}

/// Whether the entry's value is none of its term's sort.
///
/// # Errors
///
/// Where memory is refused.
fn is_wrong(alloc: Global, table: &Table, item: &(Term, Value)) -> Result<bool, AllocError>
    ensures { IfOk result (λ b. Told (IsWrong table.now (plain_item item.now)) b) }
{
    table.is_table();
    let Some(of) = table.type_of(item.0) else {
        return Ok(false);
    };
    match table.sort_of(alloc, of)? {
        Some(sort) => Ok(!has_sort(&item.1, &sort)),
        None => Ok(false),
    }
}

/// The place of the first dead term, from 1 on.
fn first_dead(table: &Table, values: &[(Term, Value)]) -> Option<usize>
    ensures some { IfSome result (λ place. IsFirstWith (IsDead table.now) (plain_items values.now) place) }
    ensures none { IfNone result (NoneHas (IsDead table.now) (plain_items values.now)) }
{
    for place in 0..values.len() {
        if is_dead(table, &values[place]) {
            return Some(place + 1);
        }
    }
    None
}

/// The place of the first term that is no constant, from 1 on.
fn first_other(table: &Table, values: &[(Term, Value)]) -> Option<usize>
    ensures some { IfSome result (λ place. IsFirstWith (IsOther table.now) (plain_items values.now) place) }
    ensures none { IfNone result (NoneHas (IsOther table.now) (plain_items values.now)) }
{
    for place in 0..values.len() {
        if is_other(table, &values[place]) {
            return Some(place + 1);
        }
    }
    None
}

/// The place of the first value that is none of its term's sort, from 1 on.
///
/// # Errors
///
/// Where memory is refused.
fn first_wrong(
    alloc: Global,
    table: &Table,
    values: &[(Term, Value)],
) -> Result<Option<usize>, AllocError>
    ensures some { IfOk result (λ r. IfSome r (λ place. IsFirstWith (IsWrong table.now) (plain_items values.now) place)) }
    ensures none { IfOk result (λ r. IfNone r (NoneHas (IsWrong table.now) (plain_items values.now))) }
{
    for place in 0..values.len() {
        if is_wrong(alloc, table, &values[place])? {
            return Ok(Some(place + 1));
        }
    }
    Ok(None)
}

/// Gives a term the last place, where it has none; answers whether it had none.
///
/// # Errors
///
/// Where memory is refused.
fn put(places: &mut IndexSet<Term>, t: Term) -> Result<bool, AllocError>
    ensures new { IfOk result (λ b. b ≡ true → (IsIn places.old.keys t → ⊥) × (places.new.keys ≡ places.old.keys ++ t ∷ [])) }
    ensures old { IfOk result (λ b. b ≡ false → IsIn places.old.keys t) }
{
    if is_placed(places, t) {
        return Ok(false);
    }
    places.insert(t)?;
    Ok(true)
}

/// Whether the term has a place.
fn is_placed(places: &IndexSet<Term>, t: Term) -> bool
    ensures { IsTrue result ↔ IsIn places.now.keys t }
{
    places.contains(&t)
}

/// The terms of the values, in order.
///
/// # Errors
///
/// `Twice` with the first place, from 1 on, whose term has an earlier one; `NoMemory`.
fn places_of(alloc: Global, values: &[(Term, Value)]) -> Result<IndexSet<Term>, ModelError>
    ensures keys { IfOk result (λ places. places.keys ≡ terms_of (plain_items values.now)) }
    ensures once { IfOk result (λ places. NoneAgain (plain_items values.now)) }
    ensures refused { IfErr result (RefusesTwice (plain_items values.now)) }
{
    let mut places = IndexSet::new(alloc);
    for place in 0..values.len() {
        let Ok(new) = put(&mut places, values[place].0) else {
            return Err(ModelError::NoMemory);
        };
        if !new {
            return Err(ModelError::Twice(place + 1));
        }
    }
    Ok(places)
}

/// The value that stands at the place of a term.
fn value_in<'a>(places: &IndexSet<Term>, entries: &'a [(Term, Value)], t: Term) -> Option<&'a Value>
    requires { places.now.keys ≡ terms_of (plain_items entries.now) }
    ensures { option_map plain_value (option_copied result) ≡ lookup (same_term t) (plain_items entries.now) }
{
    match places.get_index_of(&t) {
        Some(place) => value_at(entries, place),
        None => None,
    }
}

/// The value of the entry at that place.
fn value_at(entries: &[(Term, Value)], place: usize) -> Option<&Value>
    ensures { option_map plain_value (option_copied result) ≡ option_map (λ (e : Term × Plain). e.1) (slice_get (plain_items entries.now) place) }
{
    match entries.get(place) {
        Some(entry) => Some(&entry.1),
        None => None,
    }
}
