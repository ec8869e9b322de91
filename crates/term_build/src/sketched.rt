//! Terms of sketches.
ghost use Rattle.std.specs.Prelude.{◌≡◌, ◌+◌, ◌∷◌, [], IfOk, IfErr, length};
ghost use Rattle.y_tree.specs.Sorts.{Sort, boolean};
ghost use Rattle.term_table.specs.Checking.{HasSort};
ghost use Rattle.term_sketches.specs.Valuing.{IsFilled, parts_of};
ghost use Rattle.term_sketches.specs.declared.items.Sketch.TheVariants as sketch;
ghost use Rattle.term_build.specs.Building.{AddsAtMost, AddsBelow, AddsUnder, AllAreOf, AllHaveSort, IsLiteral, IsLiteralOf, IsMade, IsReady, IsReadyLiteral, RefusesNew};

use crate::errors::BuildError;
use crate::realising::{add, flagged, literal_term, literal_terms};
use crate::rows::make_args;
use std::alloc::Global;
use term_sketches::{Literal, Sketch};
use term_table::{Shape, Table, Term};
use y_tree::laws::sorts_are_decided;

/// The term that a sketch says, in time linear in its parts.
pub(crate) fn realise(alloc: Global, table: &mut Table, sketch: Sketch) -> Result<Term, BuildError>
    requires { IsReady table.old sketch }
    ensures made { IfOk result (λ t. IsMade table.new t sketch) }
    ensures grown { AddsAtMost (length (parts_of sketch) + 2) table.old table.new }
    ensures below { IfOk result (λ t. AddsBelow table.old table.new t) }
    ensures refused { IfErr result (λ e. RefusesNew table.new e) }
{
    match sketch {
        Sketch::OneLiteral(only) => literal_term(table, only),
        Sketch::AllOf(all) => all_of(alloc, table, all.as_slice()),
        Sketch::AnyOf(all) => any_of(alloc, table, all.as_slice()),
        Sketch::OddOf { negated, atoms } => odd_of(alloc, table, negated, atoms.as_slice()),
        Sketch::OneOf { test, yes, no } => one_of(table, test, yes, no),
        Sketch::Equal {
            negated,
            left,
            right,
        } => equal(table, negated, left, right),
        Sketch::Apart(atoms) => apart(alloc, table, atoms.as_slice()),
    }
}

/// The conjunction of the literals.
fn all_of(alloc: Global, table: &mut Table, all: &[Literal]) -> Result<Term, BuildError>
    requires filled { IsFilled all.now }
    requires sorts { AllAreOf table.old boolean all.now }
    ensures made { IfOk result (λ t. IsMade table.new t (sketch.AllOf all.now)) }
    ensures grown { AddsAtMost (length all.now + 2) table.old table.new }
    ensures below { IfOk result (λ t. AddsBelow table.old table.new t) }
    ensures refused { IfErr result (λ e. RefusesNew table.new e) }
{
    let args = literal_terms(alloc, table, all)?;
    table.is_table();
    let t = add(table, Shape::And(args))?;
    Ok(t)
}

/// The disjunction of the literals.
fn any_of(alloc: Global, table: &mut Table, all: &[Literal]) -> Result<Term, BuildError>
    requires filled { IsFilled all.now }
    requires sorts { AllAreOf table.old boolean all.now }
    ensures made { IfOk result (λ t. IsMade table.new t (sketch.AnyOf all.now)) }
    ensures grown { AddsAtMost (length all.now + 2) table.old table.new }
    ensures below { IfOk result (λ t. AddsBelow table.old table.new t) }
    ensures refused { IfErr result (λ e. RefusesNew table.new e) }
{
    let args = literal_terms(alloc, table, all)?;
    table.is_table();
    let t = add(table, Shape::Or(args))?;
    Ok(t)
}

/// The parity of the terms, or its negation.
fn odd_of(
    alloc: Global,
    table: &mut Table,
    negated: bool,
    atoms: &[Term],
) -> Result<Term, BuildError>
    requires filled { IsFilled atoms.now }
    requires sorts { AllHaveSort table.old boolean atoms.now }
    ensures made { IfOk result (λ t. IsMade table.new t (sketch.OddOf negated atoms.now)) }
    ensures grown { AddsAtMost 2 table.old table.new }
    ensures below { IfOk result (λ t. AddsBelow table.old table.new t) }
    ensures refused { IfErr result (λ e. RefusesNew table.new e) }
{
    table.is_table();
    let Ok(args) = make_args(alloc, atoms) else {
        return Err(BuildError::NoMemory);
    };
    let t = flagged(table, negated, Shape::Xor(args))?;
    Ok(t)
}

/// That the two terms are one, or that they differ.
fn equal(table: &mut Table, negated: bool, left: Term, right: Term) -> Result<Term, BuildError>
    requires { (s : Sort) × HasSort table.old left s × HasSort table.old right s }
    ensures made { IfOk result (λ t. IsMade table.new t (sketch.Equal negated left right)) }
    ensures grown { AddsAtMost 2 table.old table.new }
    ensures below { IfOk result (λ t. AddsBelow table.old table.new t) }
    ensures refused { IfErr result (λ e. RefusesNew table.new e) }
{
    table.is_table();
    sorts_are_decided();
    let t = flagged(table, negated, Shape::Eq(left, right))?;
    Ok(t)
}

/// That no two of the terms are one.
fn apart(alloc: Global, table: &mut Table, atoms: &[Term]) -> Result<Term, BuildError>
    requires filled { IsFilled atoms.now }
    requires sorts { (s : Sort) × AllHaveSort table.old s atoms.now }
    ensures made { IfOk result (λ t. IsMade table.new t (sketch.Apart atoms.now)) }
    ensures grown { AddsAtMost 1 table.old table.new }
    ensures below { IfOk result (λ t. AddsBelow table.old table.new t) }
    ensures refused { IfErr result (λ e. RefusesNew table.new e) }
{
    table.is_table();
    sorts_are_decided();
    let Ok(args) = make_args(alloc, atoms) else {
        return Err(BuildError::NoMemory);
    };
    let t = add(table, Shape::Distinct(args))?;
    Ok(t)
}

/// The choice by a term between two literals.
fn one_of(table: &mut Table, test: Term, yes: Literal, no: Literal) -> Result<Term, BuildError>
    requires test { HasSort table.old test boolean }
    requires branches { (s : Sort) × IsLiteralOf table.old s yes × IsLiteralOf table.old s no }
    ensures made { IfOk result (λ t. IsMade table.new t (sketch.OneOf test yes no)) }
    ensures grown { AddsAtMost 3 table.old table.new }
    ensures below { IfOk result (λ t. AddsBelow table.old table.new t) }
    ensures refused { IfErr result (λ e. RefusesNew table.new e) }
{
    sorts_are_decided();
    let both = two_literals(table, yes, no)?;
    table.is_table();
    let t = add(table, Shape::Ite(test, both.0, both.1))?;
    Ok(t)
}

/// The terms of two literals.
fn two_literals(table: &mut Table, yes: Literal, no: Literal) -> Result<(Term, Term), BuildError>
    requires yes { IsReadyLiteral table.old yes }
    requires no { IsReadyLiteral table.old no }
    ensures made { IfOk result (λ p. IsLiteral table.new p.0 yes × IsLiteral table.new p.1 no) }
    ensures grown { AddsAtMost 2 table.old table.new }
    ensures below { IfOk result (λ p. AddsUnder table.old table.new (p.0 ∷ p.1 ∷ [])) }
    ensures refused { IfErr result (λ e. RefusesNew table.new e) }
{
    let left = literal_term(table, yes)?;
    let right = other_literal(table, no)?;
    Ok((left, right))
}

/// The term of another literal.
fn other_literal(table: &mut Table, literal: Literal) -> Result<Term, BuildError>
    requires { IsReadyLiteral table.old literal }
    ensures made { IfOk result (λ t. IsLiteral table.new t literal) }
    ensures grown { AddsAtMost 1 table.old table.new }
    ensures below { IfOk result (λ t. AddsBelow table.old table.new t) }
    ensures refused { IfErr result (λ e. RefusesNew table.new e) }
{
    literal_term(table, literal)
}
