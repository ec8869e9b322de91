//! The simplifying constructors.
ghost use Rattle.std.specs.Prelude.{◌≡◌, ◌+◌, ◌⊎◌, IfOk, IfErr, List, length, map};
ghost use Rattle.y_tree.specs.Sorts.{Sort, boolean, same_sort};
ghost use Rattle.term_table.specs.Checking.{HasSort, HaveSorts};
ghost use Rattle.term_table.specs.World.{IsTable, KeepsType};
ghost use Rattle.term_sketches.specs.Sketches.{operator_of, sketch_of};
ghost use Rattle.term_sketches.specs.Valuing.{are_truths};
ghost use Rattle.term_build.specs.Building.{AddsAtMost, AddsBelow, AreFit, AreKnown, IsBuilt, MayAdd, RefusesCall, RefusesNew, is_bool_shape, literal_at};

use crate::checking::check_call;
use crate::errors::BuildError;
use crate::literals::literals_of;
use crate::sketched::realise;
use std::alloc::{AllocError, Global};
use term_sketches::{
    Operator, Sketch, make_sketch, sketches_are_small, sketches_have_types, sketches_mean,
};
use term_table::{Table, Term, TypeId, TypeShape};
use y_tree::laws::{misfits, sorts_are_decided, trees_have_sorts};

/// The term of an operator over the arguments, simplified: it has the meaning of the operator over the arguments' trees,
/// and few subterms that these have not. Each new term is the answer or stands in it. A conjunction, a disjunction and a
/// parity may have no arguments. The time is n log n for n arguments, but for what the table takes to find a shape.
///
/// # Errors
///
/// The first dead argument, then the first misfit of the operator's row: then nothing changes. Then `TableFull` where no
/// slot is left, and `NoMemory`: then some terms may be there already, where the call is fit.
pub fn build(
    alloc: Global,
    table: &mut Table,
    operator: Operator,
    arguments: &[Term],
) -> Result<Term, BuildError>
    ensures built { IfOk result (IsBuilt table.old table.new operator arguments.now) }
    ensures grown { AddsAtMost (4 + length arguments.now) table.old table.new }
    ensures below { IfOk result (λ t. AddsBelow table.old table.new t) }
    ensures refused { IfErr result (RefusesCall table.old table.new (operator_of operator) arguments.now) }
    ensures same { IfErr result (λ e. (MayAdd e → ⊥) → table.new ≡ table.old) }
    ensures fit { IfErr result (λ e. AreFit table.old (operator_of operator) arguments.now ⊎ (table.new ≡ table.old)) }
{
    check_call(alloc, table, operator, arguments)?;
    build_fit(alloc, table, operator, arguments)
}

/// The term of a call that is fit.
fn build_fit(
    alloc: Global,
    table: &mut Table,
    operator: Operator,
    arguments: &[Term],
) -> Result<Term, BuildError>
    requires { AreFit table.old (operator_of operator) arguments.now }
    ensures built { IfOk result (IsBuilt table.old table.new operator arguments.now) }
    ensures grown { AddsAtMost (4 + length arguments.now) table.old table.new }
    ensures below { IfOk result (λ t. AddsBelow table.old table.new t) }
    ensures refused { IfErr result (λ e. RefusesNew table.new e) }
{
    known();
    table.is_table();
    let Ok(sketch) = sketch_call(alloc, table, operator, arguments) else {
        return Err(BuildError::NoMemory);
    };
    let t = realise(alloc, table, sketch)?;
    stands(table);
    Ok(t)
}

/// What is known of trees and of sketches.
fn known()
    ensures { AreKnown }
{
    misfits();
    sorts_are_decided();
    trees_have_sorts();
    sketches_mean();
    sketches_have_types();
    sketches_are_small();
}

/// What always holds of a table.
fn stands(table: &Table)
    ensures { IsTable table.now }
{
    table.is_table();
}

/// The sketch of a call.
fn sketch_call(
    alloc: Global,
    table: &Table,
    operator: Operator,
    arguments: &[Term],
) -> Result<Sketch, AllocError>
    ensures { IfOk result (λ s. (ks : List Sort) → HaveSorts table.now arguments.now ks → s ≡ sketch_of operator (are_truths ks) (map (literal_at table.now) arguments.now)) }
{
    let truths = first_is_truth(table, arguments);
    let literals = literals_of(alloc, table, arguments)?;
    let sketch = make_sketch(alloc, operator, truths, literals.as_slice())?;
    Ok(sketch)
}

/// Whether the first argument is a truth value.
fn first_is_truth(table: &Table, arguments: &[Term]) -> bool
    ensures { (ks : List Sort) → HaveSorts table.now arguments.now ks → result ≡ are_truths ks }
{
    match arguments {
        [] => false,
        [first, ..] => is_truth(table, *first),
    }
}

/// Whether the live term is a truth value.
fn is_truth(table: &Table, t: Term) -> bool
    ensures { (k : Sort) → HasSort table.now t k → result ≡ same_sort boolean k }
{
    match table.type_of(t) {
        Some(of) => is_bool(table, of),
        None => false,
    }
}

/// Whether the live type is that of truth values.
fn is_bool(table: &Table, of: TypeId) -> bool
    ensures { (k : Sort) → KeepsType table.now of k → result ≡ same_sort boolean k }
{
    match table.type_shape(of) {
        Some(shape) => is_bool_shape(shape),
        None => false,
    }
}

/// Whether the shape is that of the type of truth values.
fn is_bool_shape(shape: &TypeShape) -> bool
    ensures { result ≡ is_bool_shape shape.now }
{
    match shape {
        TypeShape::Bool => true,
        _ => false,
    }
}
