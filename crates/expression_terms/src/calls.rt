//! The constructor that a word names, and why its call is refused.
ghost use Rattle.std.specs.Prelude.{◌≡◌, ℕ, List, true, IfErr, IfOk, IfSome, IfNone, None, OnErr, Some};
ghost use Rattle.term_table.specs.World.{World, KeepsType};
ghost use Rattle.term_table.specs.Checking.{Wants};
ghost use Rattle.term_build.specs.Building.{AreKnown, IsEmptyCall};
ghost use Rattle.term_sketches.specs.Sketches.{operator_of};
ghost use Rattle.y_tree.specs.Misfits as misfit;
ghost use Rattle.y_tree.specs.Sorts.{Sort};
ghost use Rattle.yices_api.specs.State.{ContextsStay};
ghost use Rattle.yices_grammar.specs.Commands.{Exprs, expr_at, operation};
ghost use Rattle.expression_terms.specs.Building.{AreBoolean, cause_in, IsUnbuilt, TellsCause};
ghost use Rattle.expression_terms.specs.Fresh.{GrowsPast};
ghost use Rattle.expression_terms.specs.Growth.{written_trees};
ghost use Rattle.expression_terms.specs.Outcomes.{OnlyAdds};
ghost use Rattle.expression_terms.specs.Parts.{BuildsAll, BuildsOne};
ghost use Rattle.expression_terms.specs.Trees.{Scope, op_in, operator_words, tree_of, sort_text, wanted_text};

use crate::refusal::{Refusal, Stop};
use std::alloc::{AllocError, Global};
use term_sketches::{Operator, sketches_are_small, sketches_have_types, sketches_mean};
use term_table::{Table, Term, TypeId, TypeShape, Wanted};
use y_io::Text;
use y_tree::laws::{misfits, sorts_are_decided, trees_have_sorts};
use yices_api::{BuildError, Env};
use yices_grammar::Place;

/// The constructor that a word names.
pub(crate) fn constructor_of(word: &str) -> Option<Operator>
    ensures some { IfSome result (λ o. op_in operator_words word.now ≡ Some (operator_of o)) }
    ensures none { IfNone result (op_in operator_words word.now ≡ None) }
{
    match word {
        "not" => Some(Operator::Not),
        "and" => Some(Operator::And),
        "or" => Some(Operator::Or),
        "xor" => Some(Operator::Xor),
        "=>" => Some(Operator::Implies),
        "<=>" => Some(Operator::Iff),
        "if" | "ite" => Some(Operator::Ite),
        "=" => Some(Operator::Eq),
        "/=" => Some(Operator::Neq),
        "distinct" => Some(Operator::Distinct),
        _ => None,
    }
}

/// Whether it is a conjunction, a disjunction or a parity of nothing, which the constructors take and the language doesn't.
fn is_empty_call(operator: Operator, arguments: &[Term]) -> bool
    ensures yes { result ≡ true → IsEmptyCall (operator_of operator) arguments.now }
    ensures no { IsEmptyCall (operator_of operator) arguments.now → result ≡ true }
{
    match operator {
        Operator::And | Operator::Or | Operator::Xor => arguments.is_empty(),
        _ => false,
    }
}

/// The text of a type.
fn type_word(table: &Table, of: TypeId) -> &'static str
    ensures { (k : Sort) → KeepsType table.now of k → result.now ≡ sort_text k }
{
    let Some(shape) = table.type_shape(of) else {
        return "";
    };
    match shape {
        TypeShape::Bool => "bool",
        _ => "",
    }
}

/// The text of what is wanted of an argument.
fn wanted_word(table: &Table, wanted: Wanted) -> &'static str
    ensures { (v : misfit.Wanted) → Wants table.now wanted v → result.now ≡ wanted_text v }
{
    match wanted {
        Wanted::Bool => "bool",
        Wanted::Real => "real",
        Wanted::AnyBv => "bitvector",
        Wanted::AnyFun => "function",
        Wanted::Same(of) => type_word(table, of),
    }
}

/// The refusal of an argument of a wrong type.
///
/// # Errors
///
/// Where memory is refused.
fn wrong_type(
    alloc: Global,
    table: &Table,
    place: usize,
    wanted: Wanted,
    found: TypeId,
) -> Result<Refusal, AllocError>
    ensures { IfOk result (λ r. (v : misfit.Wanted) (k : Sort) → Wants table.now wanted v → KeepsType table.now found k → r ≡ Refusal.WrongType place (wanted_text v) (sort_text k)) }
{
    let wanted = Text::new(alloc, wanted_word(table, wanted))?;
    let found = Text::new(alloc, type_word(table, found))?;
    Ok(Refusal::WrongType {
        place,
        wanted,
        found,
    })
}

/// The refusal of a constructor, as that of the expression at the place.
fn refusal_of(alloc: Global, table: &Table, place: Place, error: BuildError) -> Stop
    ensures { TellsCause table.now place error result }
{
    match error {
        BuildError::BadArity(count) => Stop::Refused(place, Refusal::BadArity(count)),
        BuildError::WrongType {
            place: argument,
            wanted,
            found,
        } => match wrong_type(alloc, table, argument, wanted, found) {
            Ok(refusal) => Stop::Refused(place, refusal),
            Err(_) => Stop::NoMemory,
        },
        BuildError::TableFull => Stop::Refused(place, Refusal::TableFull),
        BuildError::NoMemory => Stop::NoMemory,
        BuildError::DeadTerm(_)
        | BuildError::WidthsDiffer { .. }
        | BuildError::BadWidth(_)
        | BuildError::BadRange => Stop::Refused(place, Refusal::NotBuilt),
    }
}

/// What is known of trees and of sketches.
fn known()
    ensures { AreKnown }
{
    misfits();
    sorts_are_decided();
    trees_have_sorts();
    sketches_mean();
    sketches_have_types();
    sketches_are_small();
}

/// The term of a constructor over the terms of its arguments.
///
/// # Errors
///
/// What is wrong with the call, at the place of its expression; `TableFull`; `NoMemory`.
pub(crate) fn construct(
    alloc: Global,
    env: &mut Env,
    place: Place,
    operator: Operator,
    arguments: &[Term],
) -> Result<Term, Stop>
    ensures built { IfOk result (λ t. (s : Scope) (w : List ℕ) (es : Exprs) (start : World) → op_in operator_words w ≡ Some (operator_of operator) → AreBoolean s → BuildsAll s start env.old.table es arguments.now → BuildsOne s start env.new.table (expr_at place (operation w es)) t) }
    ensures refused { IfErr result (λ why. (s : Scope) (w : List ℕ) (es : Exprs) (start : World) → op_in operator_words w ≡ Some (operator_of operator) → AreBoolean s → BuildsAll s start env.old.table es arguments.now → IsUnbuilt (cause_in (tree_of s (expr_at place (operation w es)))) env.new why) }
    ensures past { OnErr result ((s : Scope) (w : List ℕ) (es : Exprs) (start : World) → op_in operator_words w ≡ Some (operator_of operator) → AreBoolean s → BuildsAll s start env.old.table es arguments.now → GrowsPast (written_trees s (expr_at place (operation w es))) start env.new.table) }
    ensures contexts { ContextsStay env.old env.new }
    ensures grown { OnlyAdds env.old.table env.new.table }
{
    known();
    env.is_world();
    if is_empty_call(operator, arguments) {
        return Err(Stop::Refused(place, Refusal::BadArity(0)));
    }
    match env.build_term(operator, arguments) {
        Ok(t) => {
            env.is_world();
            Ok(t)
        }
        Err(error) => Err(refusal_of(alloc, env.table(), place, error)),
    }
}

/// The term of a word's constructor over the terms of its arguments.
///
/// # Errors
///
/// What is wrong with the call, at the place of its expression; `TableFull`; `NoMemory`.
pub(crate) fn operate(
    alloc: Global,
    env: &mut Env,
    place: Place,
    word: &Text,
    arguments: &[Term],
) -> Result<Term, Stop>
    ensures built { IfOk result (λ t. (s : Scope) (es : Exprs) (start : World) → AreBoolean s → BuildsAll s start env.old.table es arguments.now → BuildsOne s start env.new.table (expr_at place (operation word.now es)) t) }
    ensures refused { IfErr result (λ why. (s : Scope) (es : Exprs) (start : World) → AreBoolean s → BuildsAll s start env.old.table es arguments.now → IsUnbuilt (cause_in (tree_of s (expr_at place (operation word.now es)))) env.new why) }
    ensures past { OnErr result ((s : Scope) (es : Exprs) (start : World) → AreBoolean s → BuildsAll s start env.old.table es arguments.now → GrowsPast (written_trees s (expr_at place (operation word.now es))) start env.new.table) }
    ensures contexts { ContextsStay env.old env.new }
    ensures grown { OnlyAdds env.old.table env.new.table }
{
    let Some(operator) = constructor_of(word.as_str()) else {
        return Err(Stop::Refused(place, Refusal::NotBuilt));
    };
    construct(alloc, env, place, operator, arguments)
}
