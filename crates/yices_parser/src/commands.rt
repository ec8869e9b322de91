//! The words of commands, the names that they define, and literals.
ghost use Rattle.std.specs.Prelude.{◌≡◌, [], codes, Some, None, Ok};
ghost use Rattle.yices_grammar.specs.declared.Place.{Place as AnyPlace};
ghost use Rattle.yices_grammar.specs.Tokens.{word as word_token, close_bracket};
ghost use Rattle.yices_parser.specs.Steps.{Takes, token_at, step_at, command_point as point_behind, later_point as later_point_behind};
ghost use Rattle.yices_commands.specs.declared.state.Point.TheVariants as point;

use sqlite_items::Items;
use std::alloc::{AllocError, Global};
use y_io::Text;
use yices_commands::state::{Around, Point, Purpose};
use yices_commands::{Action, LitExpr, LitExprs};
use yices_grammar::Place;
use yices_lexer::{is_name, is_type_name};

/// The expression of a command is due.
fn expression(alloc: Global, purpose: Purpose) -> Point
    ensures { result ≡ point.Expr (record { purpose = purpose; frames = [] }) }
{
    let frames = Items::new(alloc);
    Point::Expr(Around { purpose, frames })
}

/// What is due behind the last words of commands.
fn later_point(alloc: Global, word: &str) -> Option<Point>
    ensures { result ≡ later_point_behind word.now }
{
    if word == "reset" {
        return Some(Point::End(Action::Reset));
    }
    if word == "show-model" {
        return Some(Point::End(Action::ShowModel));
    }
    if word == "eval" {
        return Some(expression(alloc, Purpose::Eval));
    }
    if word == "show-implicant" {
        return Some(Point::End(Action::ShowImplicant));
    }
    if word == "ef-solve" {
        return Some(Point::End(Action::EfSolve));
    }
    if word == "echo" {
        return Some(Point::Echo);
    }
    if word == "include" {
        return Some(Point::Include);
    }
    if word == "exit" {
        return Some(Point::End(Action::Exit));
    }
    None
}

/// What is due behind the word of a command.
pub(crate) fn command_point(alloc: Global, word: &str) -> Option<Point>
    ensures { result ≡ point_behind word.now }
{
    if word == "define-type" {
        return Some(Point::TypeName);
    }
    if word == "define" {
        return Some(Point::Name);
    }
    if word == "assert" {
        return Some(expression(alloc, Purpose::Assert));
    }
    if word == "check" {
        return Some(Point::End(Action::Check));
    }
    if word == "check-assuming" {
        return Some(Point::Literal(Items::new(alloc)));
    }
    if word == "show-unsat-assumptions" {
        return Some(Point::End(Action::ShowUnsatAssumptions));
    }
    if word == "push" {
        return Some(Point::End(Action::Push));
    }
    if word == "pop" {
        return Some(Point::End(Action::Pop));
    }
    later_point(alloc, word)
}

/// The name that is to stand for a type.
#[tactic(auto, using(crate::proofs::Beginning::type_name_some, crate::proofs::Beginning::type_name_none))]
pub(crate) fn type_name(alloc: Global, word: &str) -> Result<Option<Point>, AllocError>
    ensures { (p t : AnyPlace) → Takes p (step_at p point.TypeName (token_at t (word_token word.now))) result }
{
    if !is_type_name(word) {
        return Ok(None);
    }
    let name = Text::new(alloc, word)?;
    Ok(Some(Point::TypeOrEnd(name)))
}

/// The name that is defined.
#[tactic(auto, using(crate::proofs::Beginning::name_some, crate::proofs::Beginning::name_none))]
pub(crate) fn defined_name(alloc: Global, word: &str) -> Result<Option<Point>, AllocError>
    ensures { (p t : AnyPlace) → Takes p (step_at p point.Name (token_at t (word_token word.now))) result }
{
    if !is_name(word) {
        return Ok(None);
    }
    let name = Text::new(alloc, word)?;
    Ok(Some(Point::Mark(name)))
}

/// A literal that is a name.
#[tactic(auto, using(crate::proofs::Beginning::literal_some, crate::proofs::Beginning::literal_none))]
pub(crate) fn literal_word(
    alloc: Global,
    mut literals: LitExprs,
    at: Place,
    word: &str,
) -> Result<Option<Point>, AllocError>
    ensures { (p : AnyPlace) → Takes p (step_at p (point.Literal literals) (token_at at (word_token word.now))) result }
{
    if !is_name(word) {
        return Ok(None);
    }
    let name = Text::new(alloc, word)?;
    literals.push(LitExpr {
        place: at,
        name_place: at,
        name,
        positive: true,
    })?;
    Ok(Some(Point::Literal(literals)))
}

/// The word `not` of a literal.
#[tactic(auto, using(crate::proofs::Beginning::not_some, crate::proofs::Beginning::not_none))]
pub(crate) fn literal_not(literals: LitExprs, place: Place, word: &str) -> Option<Point>
    ensures { (p t : AnyPlace) → Takes p (step_at p (point.LiteralNot literals place) (token_at t (word_token word.now))) (Ok result) }
{
    if word == "not" {
        return Some(Point::LiteralName(literals, place));
    }
    None
}

/// The name of a literal that is negated.
#[tactic(auto, using(crate::proofs::Beginning::negated_some, crate::proofs::Beginning::negated_none))]
pub(crate) fn literal_name(
    alloc: Global,
    literals: LitExprs,
    place: Place,
    at: Place,
    word: &str,
) -> Result<Option<Point>, AllocError>
    ensures { (p : AnyPlace) → Takes p (step_at p (point.LiteralName literals place) (token_at at (word_token word.now))) result }
{
    if !is_name(word) {
        return Ok(None);
    }
    let literal = LitExpr {
        place,
        name_place: at,
        name: Text::new(alloc, word)?,
        positive: false,
    };
    Ok(Some(Point::LiteralEnd(literals, literal)))
}

/// The closing bracket of a literal.
#[tactic(auto, using(crate::proofs::Beginning::literal_end))]
pub(crate) fn literal_close(
    mut literals: LitExprs,
    literal: LitExpr,
) -> Result<Option<Point>, AllocError>
    ensures { (p t : AnyPlace) → Takes p (step_at p (point.LiteralEnd literals literal) (token_at t close_bracket)) result }
{
    literals.push(literal)?;
    Ok(Some(Point::Literal(literals)))
}
