//! The tokens of types.
ghost use Rattle.std.specs.Prelude.{◌≡◌, [], codes, Some, None};
ghost use Rattle.yices_grammar.specs.declared.Place.{Place as AnyPlace};
ghost use Rattle.yices_grammar.specs.Tokens.{word as word_token, close_bracket};
ghost use Rattle.yices_commands.specs.Plain.{plain_type};
ghost use Rattle.yices_parser.specs.Steps.{Leaves, Takes, IsWordType, token_at, step_at, typed_at, type_filled_at, arrow_at, arrow_step};
ghost use Rattle.yices_commands.specs.declared.state.Point.TheVariants as point;
ghost use Rattle.yices_commands.specs.declared.state.TypePurpose.TheVariants as type_purpose;

use sqlite_items::{Boxed, Items};
use std::alloc::{AllocError, Global};
use y_io::Text;
use yices_commands::state::{Around, AroundType, Arrow, Due, Point, TypePurpose};
use yices_commands::{Action, Decl, Decls, TypeExpr, TypeExprs, TypeForm};
use yices_grammar::Place;
use yices_lexer::{is_type_name, is_whole};

/// A word as a type, if it is one.
#[tactic(auto, using(crate::proofs::Words::type_named, crate::proofs::Words::type_bool, crate::proofs::Words::type_real, crate::proofs::Words::type_none))]
fn word_type(alloc: Global, word: &str) -> Result<Option<TypeForm>, AllocError>
    ensures { IsWordType word.now result }
{
    if is_type_name(word) {
        return Ok(Some(TypeForm::Named(Text::new(alloc, word)?)));
    }
    if word == "bool" {
        return Ok(Some(TypeForm::Bool));
    }
    if word == "real" {
        return Ok(Some(TypeForm::Real));
    }
    Ok(None)
}

/// A declaration more.
#[tactic(auto, using(crate::proofs::Typing::ends_variable))]
fn declared(
    around: Around,
    place: Place,
    mut decls: Decls,
    name: Text,
    of: TypeExpr,
) -> Result<Point, AllocError>
    ensures { (p : AnyPlace) → Leaves p (typed_at p (type_purpose.Variable around place decls name) (plain_type of)) result }
{
    decls.push(Decl { name, of })?;
    Ok(Point::Token(around, place, Due::Declaration(decls)))
}

/// What the type leads to that is for something.
#[tactic(auto, using(crate::proofs::Typing::ends_define_type, crate::proofs::Typing::ends_define))]
fn end_type(purpose: TypePurpose, of: TypeExpr) -> Result<Point, AllocError>
    ensures { (p : AnyPlace) → Leaves p (typed_at p purpose (plain_type of)) result }
{
    match purpose {
        TypePurpose::DefineType(name) => Ok(Point::End(Action::DefineTypeAs(name, of))),
        TypePurpose::Define(name) => Ok(Point::ExprOrEnd(name, of)),
        TypePurpose::Variable(around, place, decls, name) => {
            declared(around, place, decls, name, of)
        }
    }
}

/// A function type in which a type is due.
#[tactic(auto, using(crate::proofs::Typing::arrow_opens))]
fn open_arrow(mut around: AroundType, place: Place, types: TypeExprs) -> Result<Point, AllocError>
    ensures { (p : AnyPlace) → Leaves p (arrow_at p around place types) result }
{
    around.arrows.push(Arrow { place, types })?;
    Ok(Point::Type(around))
}

/// A type more, in the innermost function type or as the whole.
#[tactic(auto, using(crate::proofs::Typing::attaches_whole, crate::proofs::Typing::attaches_part))]
pub(crate) fn attach_type(mut around: AroundType, of: TypeExpr) -> Result<Point, AllocError>
    ensures { (p : AnyPlace) → Leaves p (type_filled_at p around (plain_type of)) result }
{
    let Some(Arrow { place, mut types }) = around.arrows.pop() else {
        return end_type(around.purpose, of);
    };
    types.push(of)?;
    open_arrow(around, place, types)
}

/// A word where a type is due.
#[tactic(auto, using(crate::proofs::Typing::type_word_some, crate::proofs::Typing::type_word_none))]
pub(crate) fn type_word(
    alloc: Global,
    around: AroundType,
    at: Place,
    word: &str,
) -> Result<Option<Point>, AllocError>
    ensures { (p : AnyPlace) → Takes p (step_at p (point.Type around) (token_at at (word_token word.now))) result }
{
    let Some(form) = word_type(alloc, word)? else {
        return Ok(None);
    };
    let point = attach_type(around, TypeExpr { place: at, form })?;
    Ok(Some(point))
}

/// The word behind the opening bracket of a type.
#[tactic(auto, using(crate::proofs::Typing::type_form_bitvector, crate::proofs::Typing::type_form_arrow, crate::proofs::Typing::type_form_none))]
pub(crate) fn type_form_word(
    alloc: Global,
    around: AroundType,
    place: Place,
    word: &str,
) -> Result<Option<Point>, AllocError>
    ensures { (p t : AnyPlace) → Takes p (step_at p (point.TypeForm around place) (token_at t (word_token word.now))) result }
{
    if word == "bitvector" {
        return Ok(Some(Point::TypeWidth(around, place)));
    }
    if word == "->" {
        let point = open_arrow(around, place, Items::new(alloc))?;
        return Ok(Some(point));
    }
    Ok(None)
}

/// The width of a type of bit-vectors.
#[tactic(auto, using(crate::proofs::Typing::type_width_some, crate::proofs::Typing::type_width_none))]
pub(crate) fn type_width_word(
    alloc: Global,
    around: AroundType,
    place: Place,
    word: &str,
) -> Result<Option<Point>, AllocError>
    ensures { (p t : AnyPlace) → Takes p (step_at p (point.TypeWidth around place) (token_at t (word_token word.now))) result }
{
    if !is_whole(word) {
        return Ok(None);
    }
    let width = Text::new(alloc, word)?;
    Ok(Some(Point::TypeEnd(around, place, width)))
}

/// The closing bracket of a type of bit-vectors.
#[tactic(auto, using(crate::proofs::Typing::bitvector_close))]
pub(crate) fn bitvector_close(
    around: AroundType,
    place: Place,
    width: Text,
) -> Result<Option<Point>, AllocError>
    ensures { (p t : AnyPlace) → Takes p (step_at p (point.TypeEnd around place width) (token_at t close_bracket)) result }
{
    let form = TypeForm::Bitvector(width);
    let point = attach_type(around, TypeExpr { place, form })?;
    Ok(Some(point))
}

/// The closing bracket of a function type with these types.
#[tactic(auto, using(crate::proofs::Typing::arrow_close, crate::proofs::Typing::arrow_close_one, crate::proofs::Typing::arrow_close_none))]
fn arrow_close(
    alloc: Global,
    around: AroundType,
    place: Place,
    mut types: TypeExprs,
) -> Result<Option<Point>, AllocError>
    ensures { (p t : AnyPlace) → Takes p (arrow_step p around place types (token_at t close_bracket)) result }
{
    let Some(last) = types.pop() else {
        return Ok(None);
    };
    if types.is_empty() {
        return Ok(None);
    }
    let form = TypeForm::Arrow(types, Boxed::new(alloc, last)?);
    let point = attach_type(around, TypeExpr { place, form })?;
    Ok(Some(point))
}

/// The closing bracket of the innermost function type.
#[tactic(auto, using(crate::proofs::Typing::type_close_none, crate::proofs::Typing::innermost_arrow))]
pub(crate) fn type_close(alloc: Global, mut around: AroundType) -> Result<Option<Point>, AllocError>
    ensures { (p t : AnyPlace) → Takes p (step_at p (point.Type around) (token_at t close_bracket)) result }
{
    let Some(Arrow { place, types }) = around.arrows.pop() else {
        return Ok(None);
    };
    arrow_close(alloc, around, place, types)
}
