//! Terms of literals.
ghost use Rattle.std.specs.Prelude.{◌≡◌, ◌++◌, ◌∷◌, [], IfOk, IfErr, OnOk, length};
ghost use Rattle.term_shapes.specs.declared.handles.TypeId.{TypeId};
ghost use Rattle.term_table.specs.Checking.{AddsShape, HasSort, IsShape};
ghost use Rattle.term_table.specs.World.{World, HasShape, KeepsType};
ghost use Rattle.y_tree.specs.Sorts.{boolean};
ghost use Rattle.term_build.specs.Building.{AddsAtMost, AddsBelow, AddsUnder, AreLiterals, AreReady, IsFlagged, IsLiteral, IsReadyLiteral, RefusesNew};

use crate::errors::{BuildError, from_table};
use std::alloc::Global;
use term_sketches::Literal;
use term_table::{Args, Shape, Table, Term};

/// The term of a shape with a type.
#[tactic(auto, using(crate::proofs::Growing::added_one, crate::proofs::Growing::nothing_added))]
pub(crate) fn add(table: &mut Table, shape: Shape) -> Result<Term, BuildError>
    requires { (of : TypeId) × IsShape table.old shape of }
    ensures added { IfOk result (λ t. AddsShape table.old table.new shape t) }
    ensures refused { IfErr result (λ e. RefusesNew table.new e) }
    ensures grown { AddsAtMost 1 table.old table.new }
    ensures below { IfOk result (λ t. AddsBelow table.old table.new t) }
{
    match table.add(shape) {
        Ok(t) => Ok(t),
        Err(e) => Err(from_table(e)),
    }
}

/// The term of a literal.
pub(crate) fn literal_term(table: &mut Table, literal: Literal) -> Result<Term, BuildError>
    requires { IsReadyLiteral table.old literal }
    ensures made { IfOk result (λ t. IsLiteral table.new t literal) }
    ensures grown { AddsAtMost 1 table.old table.new }
    ensures below { IfOk result (λ t. AddsBelow table.old table.new t) }
    ensures refused { IfErr result (λ e. RefusesNew table.new e) }
{
    table.is_table();
    if !literal.negated {
        return Ok(literal.atom);
    }
    if literal.is_constant() {
        return Ok(table.false_term());
    }
    add(table, Shape::Not(literal.atom))
}

/// The terms of literals.
pub(crate) fn literal_terms(
    alloc: Global,
    table: &mut Table,
    literals: &[Literal],
) -> Result<Args, BuildError>
    requires { AreReady table.old literals.now }
    ensures made { IfOk result (λ args. AreLiterals table.new args literals.now) }
    ensures grown { AddsAtMost (length literals.now) table.old table.new }
    ensures below { IfOk result (λ args. AddsUnder table.old table.new args) }
    ensures refused { IfErr result (λ e. RefusesNew table.new e) }
{
    let mut args = Args::new(alloc);
    for literal in literals {
        let t = literal_term(table, *literal)?;
        push(&mut args, t)?;
    }
    Ok(args)
}

/// One argument more.
fn push(args: &mut Args, t: Term) -> Result<(), BuildError>
    ensures ok { OnOk result (args.new ≡ args.old ++ t ∷ []) }
    ensures err { IfErr result (λ e. (w : World) → RefusesNew w e) }
{
    match args.push(t) {
        Ok(()) => Ok(()),
        Err(_) => Err(BuildError::NoMemory),
    }
}

/// The term of a truth value's shape, or of its negation.
pub(crate) fn flagged(table: &mut Table, negated: bool, shape: Shape) -> Result<Term, BuildError>
    requires { (of : TypeId) × IsShape table.old shape of × KeepsType table.old of boolean }
    ensures made { IfOk result (λ t. IsFlagged table.new t negated shape) }
    ensures grown { AddsAtMost 2 table.old table.new }
    ensures below { IfOk result (λ t. AddsBelow table.old table.new t) }
    ensures refused { IfErr result (λ e. RefusesNew table.new e) }
{
    let inner = add(table, shape)?;
    table.is_table();
    if !negated {
        return Ok(inner);
    }
    let outer = negation(table, inner)?;
    Ok(outer)
}

/// The negation of a truth value.
#[tactic(auto, using(crate::proofs::Growing::added_shape))]
fn negation(table: &mut Table, inner: Term) -> Result<Term, BuildError>
    requires { HasSort table.old inner boolean }
    ensures made { IfOk result (λ t. HasShape table.new t (Shape.Not inner)) }
    ensures grown { AddsAtMost 1 table.old table.new }
    ensures below { IfOk result (λ t. AddsBelow table.old table.new t) }
    ensures refused { IfErr result (λ e. RefusesNew table.new e) }
{
    table.is_table();
    let outer = add(table, Shape::Not(inner))?;
    Ok(outer)
}
