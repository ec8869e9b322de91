//! A call for each constructor, over terms one by one where their number is fixed.
ghost use Rattle.std.specs.Prelude.{◌≡◌, ◌+◌, ◌∷◌, [], IfOk, IfErr, length};
ghost use Rattle.y_tree.specs.Tree.{negation, conjunction, disjunction, parity, implication, equivalence, choice, equality, disequality, distinctness};
ghost use Rattle.term_sketches.specs.declared.items.Operator.TheVariants as constructor;
ghost use Rattle.term_build.specs.Building.{AddsAtMost, AddsBelow, IsBuilt, MayAdd, RefusesCall};

use crate::building::build;
use crate::errors::BuildError;
use std::alloc::Global;
use term_sketches::Operator;
use term_table::{Table, Term};

/// The negation of a truth value.
///
/// # Errors
///
/// Those of `build`.
pub fn not(alloc: Global, table: &mut Table, t: Term) -> Result<Term, BuildError>
    ensures built { IfOk result (IsBuilt table.old table.new constructor.Not (t ∷ [])) }
    ensures grown { AddsAtMost 5 table.old table.new }
    ensures below { IfOk result (λ t. AddsBelow table.old table.new t) }
    ensures refused { IfErr result (RefusesCall table.old table.new negation (t ∷ [])) }
    ensures same { IfErr result (λ e. (MayAdd e → ⊥) → table.new ≡ table.old) }
{
    build(alloc, table, Operator::Not, &[t])
}

/// That all truth values are true; of none it is true.
///
/// # Errors
///
/// Those of `build`.
pub fn and(alloc: Global, table: &mut Table, arguments: &[Term]) -> Result<Term, BuildError>
    ensures built { IfOk result (IsBuilt table.old table.new constructor.And arguments.now) }
    ensures grown { AddsAtMost (4 + length arguments.now) table.old table.new }
    ensures below { IfOk result (λ t. AddsBelow table.old table.new t) }
    ensures refused { IfErr result (RefusesCall table.old table.new conjunction arguments.now) }
    ensures same { IfErr result (λ e. (MayAdd e → ⊥) → table.new ≡ table.old) }
{
    build(alloc, table, Operator::And, arguments)
}

/// That some truth value is true; of none it is false.
///
/// # Errors
///
/// Those of `build`.
pub fn or(alloc: Global, table: &mut Table, arguments: &[Term]) -> Result<Term, BuildError>
    ensures built { IfOk result (IsBuilt table.old table.new constructor.Or arguments.now) }
    ensures grown { AddsAtMost (4 + length arguments.now) table.old table.new }
    ensures below { IfOk result (λ t. AddsBelow table.old table.new t) }
    ensures refused { IfErr result (RefusesCall table.old table.new disjunction arguments.now) }
    ensures same { IfErr result (λ e. (MayAdd e → ⊥) → table.new ≡ table.old) }
{
    build(alloc, table, Operator::Or, arguments)
}

/// That an odd number of the truth values is true; of none it is false.
///
/// # Errors
///
/// Those of `build`.
pub fn xor(alloc: Global, table: &mut Table, arguments: &[Term]) -> Result<Term, BuildError>
    ensures built { IfOk result (IsBuilt table.old table.new constructor.Xor arguments.now) }
    ensures grown { AddsAtMost (4 + length arguments.now) table.old table.new }
    ensures below { IfOk result (λ t. AddsBelow table.old table.new t) }
    ensures refused { IfErr result (RefusesCall table.old table.new parity arguments.now) }
    ensures same { IfErr result (λ e. (MayAdd e → ⊥) → table.new ≡ table.old) }
{
    build(alloc, table, Operator::Xor, arguments)
}

/// That the second truth value follows from the first.
///
/// # Errors
///
/// Those of `build`.
pub fn implies(
    alloc: Global,
    table: &mut Table,
    left: Term,
    right: Term,
) -> Result<Term, BuildError>
    ensures built { IfOk result (IsBuilt table.old table.new constructor.Implies (left ∷ right ∷ [])) }
    ensures grown { AddsAtMost 6 table.old table.new }
    ensures below { IfOk result (λ t. AddsBelow table.old table.new t) }
    ensures refused { IfErr result (RefusesCall table.old table.new implication (left ∷ right ∷ [])) }
    ensures same { IfErr result (λ e. (MayAdd e → ⊥) → table.new ≡ table.old) }
{
    build(alloc, table, Operator::Implies, &[left, right])
}

/// That the two truth values are one.
///
/// # Errors
///
/// Those of `build`.
pub fn iff(alloc: Global, table: &mut Table, left: Term, right: Term) -> Result<Term, BuildError>
    ensures built { IfOk result (IsBuilt table.old table.new constructor.Iff (left ∷ right ∷ [])) }
    ensures grown { AddsAtMost 6 table.old table.new }
    ensures below { IfOk result (λ t. AddsBelow table.old table.new t) }
    ensures refused { IfErr result (RefusesCall table.old table.new equivalence (left ∷ right ∷ [])) }
    ensures same { IfErr result (λ e. (MayAdd e → ⊥) → table.new ≡ table.old) }
{
    build(alloc, table, Operator::Iff, &[left, right])
}

/// The second where the first, a truth value, is true, and else the third, of the same type.
///
/// # Errors
///
/// Those of `build`.
pub fn ite(
    alloc: Global,
    table: &mut Table,
    test: Term,
    yes: Term,
    no: Term,
) -> Result<Term, BuildError>
    ensures built { IfOk result (IsBuilt table.old table.new constructor.Ite (test ∷ yes ∷ no ∷ [])) }
    ensures grown { AddsAtMost 7 table.old table.new }
    ensures below { IfOk result (λ t. AddsBelow table.old table.new t) }
    ensures refused { IfErr result (RefusesCall table.old table.new choice (test ∷ yes ∷ no ∷ [])) }
    ensures same { IfErr result (λ e. (MayAdd e → ⊥) → table.new ≡ table.old) }
{
    build(alloc, table, Operator::Ite, &[test, yes, no])
}

/// That the two, of one type, are one.
///
/// # Errors
///
/// Those of `build`.
pub fn eq(alloc: Global, table: &mut Table, left: Term, right: Term) -> Result<Term, BuildError>
    ensures built { IfOk result (IsBuilt table.old table.new constructor.Eq (left ∷ right ∷ [])) }
    ensures grown { AddsAtMost 6 table.old table.new }
    ensures below { IfOk result (λ t. AddsBelow table.old table.new t) }
    ensures refused { IfErr result (RefusesCall table.old table.new equality (left ∷ right ∷ [])) }
    ensures same { IfErr result (λ e. (MayAdd e → ⊥) → table.new ≡ table.old) }
{
    build(alloc, table, Operator::Eq, &[left, right])
}

/// That the two, of one type, differ.
///
/// # Errors
///
/// Those of `build`.
pub fn neq(alloc: Global, table: &mut Table, left: Term, right: Term) -> Result<Term, BuildError>
    ensures built { IfOk result (IsBuilt table.old table.new constructor.Neq (left ∷ right ∷ [])) }
    ensures grown { AddsAtMost 6 table.old table.new }
    ensures below { IfOk result (λ t. AddsBelow table.old table.new t) }
    ensures refused { IfErr result (RefusesCall table.old table.new disequality (left ∷ right ∷ [])) }
    ensures same { IfErr result (λ e. (MayAdd e → ⊥) → table.new ≡ table.old) }
{
    build(alloc, table, Operator::Neq, &[left, right])
}

/// That no two of the arguments, one or more of one type, are one.
///
/// # Errors
///
/// Those of `build`.
pub fn distinct(alloc: Global, table: &mut Table, arguments: &[Term]) -> Result<Term, BuildError>
    ensures built { IfOk result (IsBuilt table.old table.new constructor.Distinct arguments.now) }
    ensures grown { AddsAtMost (4 + length arguments.now) table.old table.new }
    ensures below { IfOk result (λ t. AddsBelow table.old table.new t) }
    ensures refused { IfErr result (RefusesCall table.old table.new distinctness arguments.now) }
    ensures same { IfErr result (λ e. (MayAdd e → ⊥) → table.new ≡ table.old) }
{
    build(alloc, table, Operator::Distinct, arguments)
}
