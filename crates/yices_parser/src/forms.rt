//! The tokens that are due in the forms of expressions.
ghost use Rattle.std.specs.Prelude.{◌≡◌, None, Ok};
ghost use Rattle.yices_grammar.specs.declared.Place.{Place as AnyPlace};
ghost use Rattle.yices_grammar.specs.Tokens.{word as word_token, open_bracket, close_bracket, typing_mark};
ghost use Rattle.yices_parser.specs.Steps.{Takes, token_at, step_at};
ghost use Rattle.yices_commands.specs.declared.state.Point.TheVariants as point;
ghost use Rattle.yices_commands.specs.declared.state.Due.TheVariants as due;

use crate::expressions::{attach, open};
use sqlite_items::{Boxed, Items};
use std::alloc::{AllocError, Global};
use y_io::Text;
use yices_commands::state::{Around, AroundType, Due, Opened, Point, TypePurpose};
use yices_commands::{Bind, Binds, Decls, Expr, ExprForm};
use yices_grammar::Place;
use yices_lexer::{is_name, is_whole};

/// The width of a bit-vector.
#[tactic(auto, using(crate::proofs::Due::width_some, crate::proofs::Due::width_none))]
fn width_word(
    alloc: Global,
    around: Around,
    place: Place,
    word: &str,
) -> Result<Option<Point>, AllocError>
    ensures { (p t : AnyPlace) → Takes p (step_at p (point.Token around place due.Width) (token_at t (word_token word.now))) result }
{
    if !is_whole(word) {
        return Ok(None);
    }
    let width = Text::new(alloc, word)?;
    Ok(Some(Point::Token(around, place, Due::Number(width))))
}

/// The number of a bit-vector.
#[tactic(auto, using(crate::proofs::Due::number_some, crate::proofs::Due::number_none))]
fn number_word(
    alloc: Global,
    around: Around,
    place: Place,
    width: Text,
    word: &str,
) -> Result<Option<Point>, AllocError>
    ensures { (p t : AnyPlace) → Takes p (step_at p (point.Token around place (due.Number width)) (token_at t (word_token word.now))) result }
{
    if !is_whole(word) {
        return Ok(None);
    }
    let form = ExprForm::MkBv(width, Text::new(alloc, word)?);
    Ok(Some(Point::Token(around, place, Due::End(form))))
}

/// The highest bit to be extracted.
#[tactic(auto, using(crate::proofs::Due::high_some, crate::proofs::Due::high_none))]
fn high_word(
    alloc: Global,
    around: Around,
    place: Place,
    word: &str,
) -> Result<Option<Point>, AllocError>
    ensures { (p t : AnyPlace) → Takes p (step_at p (point.Token around place due.High) (token_at t (word_token word.now))) result }
{
    if !is_whole(word) {
        return Ok(None);
    }
    let high = Text::new(alloc, word)?;
    Ok(Some(Point::Token(around, place, Due::Low(high))))
}

/// The lowest bit to be extracted.
#[tactic(auto, using(crate::proofs::Due::low_some, crate::proofs::Due::low_none))]
fn low_word(
    alloc: Global,
    around: Around,
    place: Place,
    high: Text,
    word: &str,
) -> Result<Option<Point>, AllocError>
    ensures { (p t : AnyPlace) → Takes p (step_at p (point.Token around place (due.Low high)) (token_at t (word_token word.now))) result }
{
    if !is_whole(word) {
        return Ok(None);
    }
    let low = Text::new(alloc, word)?;
    let point = open(around, place, Opened::Extract(high, low))?;
    Ok(Some(point))
}

/// The count of an operator and its argument.
#[tactic(auto, using(crate::proofs::Due::count_some, crate::proofs::Due::count_none))]
fn count_word(
    alloc: Global,
    around: Around,
    place: Place,
    operator: Text,
    argument: Expr,
    word: &str,
) -> Result<Option<Point>, AllocError>
    ensures { (p t : AnyPlace) → Takes p (step_at p (point.Token around place (due.Count operator argument)) (token_at t (word_token word.now))) result }
{
    if !is_whole(word) {
        return Ok(None);
    }
    let count = Text::new(alloc, word)?;
    let argument = Boxed::new(alloc, argument)?;
    let form = ExprForm::Counted(operator, argument, count);
    Ok(Some(Point::Token(around, place, Due::End(form))))
}

/// The name of a binding.
#[tactic(auto, using(crate::proofs::Due::binding_name_some, crate::proofs::Due::binding_name_none))]
fn binding_name(
    alloc: Global,
    around: Around,
    place: Place,
    binds: Binds,
    word: &str,
) -> Result<Option<Point>, AllocError>
    ensures { (p t : AnyPlace) → Takes p (step_at p (point.Token around place (due.BindingName binds)) (token_at t (word_token word.now))) result }
{
    if !is_name(word) {
        return Ok(None);
    }
    let name = Text::new(alloc, word)?;
    let point = open(around, place, Opened::Bind(binds, name))?;
    Ok(Some(point))
}

/// The name of a declaration.
#[tactic(auto, using(crate::proofs::Due::declaration_some, crate::proofs::Due::declaration_none))]
fn declaration_name(
    alloc: Global,
    around: Around,
    place: Place,
    decls: Decls,
    word: &str,
) -> Result<Option<Point>, AllocError>
    ensures { (p t : AnyPlace) → Takes p (step_at p (point.Token around place (due.Declaration decls)) (token_at t (word_token word.now))) result }
{
    if !is_name(word) {
        return Ok(None);
    }
    let name = Text::new(alloc, word)?;
    Ok(Some(Point::Token(around, place, Due::DeclarationMark(decls, name))))
}

/// No token of the kind is due there.
fn refused(due: Due) -> Option<Point>
    ensures { result ≡ None }
{
    let _ = due;
    None
}

/// An opening bracket in a form.
#[tactic(auto, using(crate::proofs::Due::no_open, crate::proofs::Due::arguments_open, crate::proofs::Due::bindings_open, crate::proofs::Due::binding_open, crate::proofs::Due::declarations_open))]
pub(crate) fn due_open(
    alloc: Global,
    around: Around,
    place: Place,
    due: Due,
) -> Result<Option<Point>, AllocError>
    ensures { (p t : AnyPlace) → Takes p (step_at p (point.Token around place due) (token_at t open_bracket)) result }
{
    let next = match due {
        Due::Arguments(function) => {
            let point = open(
                around,
                place,
                Opened::Arguments(function, Items::new(alloc)),
            )?;
            return Ok(Some(point));
        }
        Due::Bindings => Due::Binding(Items::new(alloc)),
        Due::Binding(binds) => Due::BindingName(binds),
        Due::Declarations => Due::Declaration(Items::new(alloc)),
        other => return Ok(refused(other)),
    };
    Ok(Some(Point::Token(around, place, next)))
}

/// The closing bracket of a form.
#[tactic(auto, using(crate::proofs::Due::end_close))]
fn end_close(
    alloc: Global,
    around: Around,
    place: Place,
    form: ExprForm,
) -> Result<Option<Point>, AllocError>
    ensures { (p t : AnyPlace) → Takes p (step_at p (point.Token around place (due.End form)) (token_at t close_bracket)) result }
{
    let point = attach(alloc, around, Expr { place, form })?;
    Ok(Some(point))
}

/// The bracket behind bindings.
#[tactic(auto, using(crate::proofs::Due::binding_close, crate::proofs::Due::binding_close_none))]
fn binding_close(around: Around, place: Place, binds: Binds) -> Result<Option<Point>, AllocError>
    ensures { (p t : AnyPlace) → Takes p (step_at p (point.Token around place (due.Binding binds)) (token_at t close_bracket)) result }
{
    if binds.is_empty() {
        return Ok(None);
    }
    let point = open(around, place, Opened::Let(binds))?;
    Ok(Some(point))
}

/// The bracket behind declarations.
#[tactic(auto, using(crate::proofs::Due::declaration_close, crate::proofs::Due::declaration_close_none))]
fn declaration_close(
    around: Around,
    place: Place,
    decls: Decls,
) -> Result<Option<Point>, AllocError>
    ensures { (p t : AnyPlace) → Takes p (step_at p (point.Token around place (due.Declaration decls)) (token_at t close_bracket)) result }
{
    if decls.is_empty() {
        return Ok(None);
    }
    let point = open(around, place, Opened::Forall(decls))?;
    Ok(Some(point))
}

/// The bracket behind a binding.
#[tactic(auto, using(crate::proofs::Due::binding_end))]
fn binding_end(
    around: Around,
    place: Place,
    mut binds: Binds,
    bind: Bind,
) -> Result<Option<Point>, AllocError>
    ensures { (p t : AnyPlace) → Takes p (step_at p (point.Token around place (due.BindingEnd binds bind)) (token_at t close_bracket)) result }
{
    binds.push(bind)?;
    Ok(Some(Point::Token(around, place, Due::Binding(binds))))
}

/// A word in a form.
#[tactic(auto, using(crate::proofs::Due::no_word))]
pub(crate) fn due_word(
    alloc: Global,
    around: Around,
    place: Place,
    due: Due,
    word: &str,
) -> Result<Option<Point>, AllocError>
    ensures { (p t : AnyPlace) → Takes p (step_at p (point.Token around place due) (token_at t (word_token word.now))) result }
{
    match due {
        Due::Width => width_word(alloc, around, place, word),
        Due::Number(width) => number_word(alloc, around, place, width, word),
        Due::High => high_word(alloc, around, place, word),
        Due::Low(high) => low_word(alloc, around, place, high, word),
        Due::Count(operator, argument) => {
            count_word(alloc, around, place, operator, argument, word)
        }
        Due::BindingName(binds) => binding_name(alloc, around, place, binds, word),
        Due::Declaration(decls) => declaration_name(alloc, around, place, decls, word),
        other => Ok(refused(other)),
    }
}

/// A closing bracket in a form.
#[tactic(auto, using(crate::proofs::Due::no_close))]
pub(crate) fn due_close(
    alloc: Global,
    around: Around,
    place: Place,
    due: Due,
) -> Result<Option<Point>, AllocError>
    ensures { (p t : AnyPlace) → Takes p (step_at p (point.Token around place due) (token_at t close_bracket)) result }
{
    match due {
        Due::Binding(binds) => binding_close(around, place, binds),
        Due::BindingEnd(binds, bind) => binding_end(around, place, binds, bind),
        Due::Declaration(decls) => declaration_close(around, place, decls),
        Due::End(form) => end_close(alloc, around, place, form),
        other => Ok(refused(other)),
    }
}

/// The typing mark in a form.
#[tactic(auto, using(crate::proofs::Due::mark_due, crate::proofs::Due::no_mark))]
pub(crate) fn due_mark(alloc: Global, around: Around, place: Place, due: Due) -> Option<Point>
    ensures { (p t : AnyPlace) → Takes p (step_at p (point.Token around place due) (token_at t typing_mark)) (Ok result) }
{
    match due {
        Due::DeclarationMark(decls, name) => {
            let purpose = TypePurpose::Variable(around, place, decls, name);
            let arrows = Items::new(alloc);
            Some(Point::Type(AroundType { purpose, arrows }))
        }
        other => refused(other),
    }
}
