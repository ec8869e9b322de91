//! The tokens of expressions.
ghost use Rattle.std.specs.Prelude.{◌≡◌, [], ◌∷◌, ◌++◌, IfOk};
ghost use Rattle.yices_grammar.specs.declared.Place.{Place as AnyPlace};
ghost use Rattle.yices_commands.specs.Plain.{plain};
ghost use Rattle.yices_parser.specs.States.{left_at};
ghost use Rattle.yices_parser.specs.Steps.{Leaves, Takes, IsWordForm, Fills, token_at, step_at, opened_at, opened_step, ended_at, filled_at};
ghost use Rattle.yices_grammar.specs.Tokens.{word as word_token, open_bracket, close_bracket};
ghost use Rattle.yices_commands.specs.declared.state.Point.TheVariants as point;
ghost use Rattle.yices_commands.specs.declared.state.Opened.TheVariants as opened;
ghost use Rattle.yices_commands.specs.declared.command.Expr.{roll-Expr};
ghost use Rattle.yices_commands.specs.declared.command.ExprForm.TheVariants as form;
ghost use Rattle.yices_commands.specs.declared.state.Due.TheVariants as due;

use sqlite_items::{Boxed, Items};
use std::alloc::{AllocError, Global};
use y_io::Text;
use yices_commands::state::{Around, Due, Filled, Frame, Opened, Point, Purpose};
use yices_commands::{Action, Bind, Binds, Decls, Expr, ExprForm, Exprs};
use yices_grammar::Place;
use yices_lexer::{is_binary, is_count_operator, is_hex, is_name, is_number, is_operator};

/// A word as an expression, if it is one.
#[tactic(auto, using(crate::proofs::Words::word_true, crate::proofs::Words::word_false, crate::proofs::Words::word_name, crate::proofs::Words::word_number, crate::proofs::Words::word_binary, crate::proofs::Words::word_hex, crate::proofs::Words::word_none))]
pub(crate) fn word_form(alloc: Global, word: &str) -> Result<Option<ExprForm>, AllocError>
    ensures { IsWordForm word.now result }
{
    if word == "true" {
        return Ok(Some(ExprForm::True));
    }
    if word == "false" {
        return Ok(Some(ExprForm::False));
    }
    if is_name(word) {
        return Ok(Some(ExprForm::Name(Text::new(alloc, word)?)));
    }
    if is_number(word) {
        return Ok(Some(ExprForm::Number(Text::new(alloc, word)?)));
    }
    if is_binary(word) {
        return Ok(Some(ExprForm::Binary(Text::new(alloc, word)?)));
    }
    if is_hex(word) {
        return Ok(Some(ExprForm::Hex(Text::new(alloc, word)?)));
    }
    Ok(None)
}

/// A form in which an expression is due.
#[tactic(auto, using(crate::proofs::Opening::opens))]
pub(crate) fn open(mut around: Around, place: Place, form: Opened) -> Result<Point, AllocError>
    ensures { (p : AnyPlace) → Leaves p (opened_at p around place form) result }
{
    around.frames.push(Frame { place, form })?;
    Ok(Point::Expr(around))
}

/// What the expression of a command leads to.
#[tactic(auto, using(crate::proofs::Opening::ends_define, crate::proofs::Opening::ends_assert, crate::proofs::Opening::ends_eval))]
fn end(purpose: Purpose, expr: Expr) -> Point
    ensures { (p : AnyPlace) → left_at p result ≡ ended_at p purpose (plain expr) }
{
    match purpose {
        Purpose::Define(name, of) => Point::End(Action::Define(name, of, expr)),
        Purpose::Assert => Point::End(Action::Assert(expr)),
        Purpose::Eval => Point::End(Action::Eval(expr)),
    }
}

/// An argument more.
fn with(mut arguments: Exprs, expr: Expr) -> Result<Exprs, AllocError>
    ensures { IfOk result (λ es. es ≡ arguments ++ expr ∷ []) }
{
    arguments.push(expr)?;
    Ok(arguments)
}

/// The bits of an expression.
fn extract(alloc: Global, high: Text, low: Text, expr: Expr) -> Result<Due, AllocError>
    ensures { IfOk result (λ d. d ≡ due.End (form.Extract high low expr)) }
{
    let expr = Boxed::new(alloc, expr)?;
    Ok(Due::End(ExprForm::Extract(high, low, expr)))
}

/// A function with a new value.
fn updated(alloc: Global, function: Expr, arguments: Exprs, value: Expr) -> Result<Due, AllocError>
    ensures { IfOk result (λ d. d ≡ due.End (form.Update function arguments value)) }
{
    let function = Boxed::new(alloc, function)?;
    let value = Boxed::new(alloc, value)?;
    Ok(Due::End(ExprForm::Update(function, arguments, value)))
}

/// A body with names for expressions.
fn bound(alloc: Global, binds: Binds, body: Expr) -> Result<Due, AllocError>
    ensures { IfOk result (λ d. d ≡ due.End (form.Let binds body)) }
{
    let body = Boxed::new(alloc, body)?;
    Ok(Due::End(ExprForm::Let(binds, body)))
}

/// A body with variables.
fn quantified(alloc: Global, decls: Decls, body: Expr) -> Result<Due, AllocError>
    ensures { IfOk result (λ d. d ≡ due.End (form.Forall decls body)) }
{
    let body = Boxed::new(alloc, body)?;
    Ok(Due::End(ExprForm::Forall(decls, body)))
}

/// What an expression that was due leads to in its form.
#[tactic(auto, using(crate::proofs::Filling::fills_op, crate::proofs::Filling::fills_extract, crate::proofs::Filling::fills_counted, crate::proofs::Filling::fills_update, crate::proofs::Filling::fills_arguments, crate::proofs::Filling::fills_value, crate::proofs::Filling::fills_bind, crate::proofs::Filling::fills_let, crate::proofs::Filling::fills_forall, crate::proofs::Filling::fills_apply, crate::proofs::Filling::fills_head))]
fn fill(alloc: Global, form: Opened, expr: Expr) -> Result<Filled, AllocError>
    ensures { IfOk result (λ f. Fills form (plain expr) f) }
{
    match form {
        Opened::Op(operator, arguments) => {
            let arguments = with(arguments, expr)?;
            Ok(Filled::Opened(Opened::Op(operator, arguments)))
        }
        Opened::Extract(high, low) => Ok(Filled::Due(extract(alloc, high, low, expr)?)),
        Opened::Counted(operator) => Ok(Filled::Due(Due::Count(operator, expr))),
        Opened::Update => Ok(Filled::Due(Due::Arguments(expr))),
        Opened::Arguments(function, arguments) => {
            let arguments = with(arguments, expr)?;
            Ok(Filled::Opened(Opened::Arguments(function, arguments)))
        }
        Opened::Value(function, arguments) => {
            Ok(Filled::Due(updated(alloc, function, arguments, expr)?))
        }
        Opened::Bind(binds, name) => Ok(Filled::Due(Due::BindingEnd(binds, Bind { name, expr }))),
        Opened::Let(binds) => Ok(Filled::Due(bound(alloc, binds, expr)?)),
        Opened::Forall(decls) => Ok(Filled::Due(quantified(alloc, decls, expr)?)),
        Opened::Apply(function, arguments) => {
            let arguments = with(arguments, expr)?;
            Ok(Filled::Opened(Opened::Apply(function, arguments)))
        }
        Opened::Head => Ok(Filled::Opened(Opened::Apply(expr, Items::new(alloc)))),
    }
}

/// An expression more, in the innermost form or as the whole.
#[tactic(auto, using(crate::proofs::Opening::attaches_opened, crate::proofs::Opening::attaches_due, crate::proofs::Opening::attaches_none))]
pub(crate) fn attach(alloc: Global, mut around: Around, expr: Expr) -> Result<Point, AllocError>
    ensures { (p : AnyPlace) → Leaves p (filled_at p around (plain expr)) result }
{
    let Some(Frame { place, form }) = around.frames.pop() else {
        return Ok(end(around.purpose, expr));
    };
    match fill(alloc, form, expr)? {
        Filled::Opened(form) => open(around, place, form),
        Filled::Due(due) => Ok(Point::Token(around, place, due)),
    }
}

/// A word where an expression is due.
#[tactic(auto, using(crate::proofs::Entering::expr_word_some, crate::proofs::Entering::expr_word_none))]
pub(crate) fn expr_word(
    alloc: Global,
    around: Around,
    place: Place,
    word: &str,
) -> Result<Option<Point>, AllocError>
    ensures { (p : AnyPlace) → Takes p (step_at p (point.Expr around) (token_at place (word_token word.now))) result }
{
    let Some(form) = word_form(alloc, word)? else {
        return Ok(None);
    };
    let point = attach(alloc, around, Expr { place, form })?;
    Ok(Some(point))
}

/// A name before its arguments.
fn applied(
    alloc: Global,
    around: Around,
    place: Place,
    at: Place,
    word: &str,
) -> Result<Point, AllocError>
    ensures { (p : AnyPlace) → Leaves p (opened_at p around place (opened.Apply (roll-Expr (record { place = at; form = form.Name word.now })) [])) result }
{
    let form = ExprForm::Name(Text::new(alloc, word)?);
    let function = Expr { place: at, form };
    open(around, place, Opened::Apply(function, Items::new(alloc)))
}

/// The word behind the opening bracket of an expression.
#[tactic(auto, using(crate::proofs::Entering::form_op, crate::proofs::Entering::form_width, crate::proofs::Entering::form_high, crate::proofs::Entering::form_counted, crate::proofs::Entering::form_update, crate::proofs::Entering::form_let, crate::proofs::Entering::form_forall, crate::proofs::Entering::form_apply, crate::proofs::Entering::form_none))]
pub(crate) fn form_word(
    alloc: Global,
    around: Around,
    place: Place,
    at: Place,
    word: &str,
) -> Result<Option<Point>, AllocError>
    ensures { (p : AnyPlace) → Takes p (step_at p (point.Form around place) (token_at at (word_token word.now))) result }
{
    if is_operator(word) {
        let operator = Text::new(alloc, word)?;
        let point = open(around, place, Opened::Op(operator, Items::new(alloc)))?;
        return Ok(Some(point));
    }
    if word == "mk-bv" {
        return Ok(Some(Point::Token(around, place, Due::Width)));
    }
    if word == "bv-extract" {
        return Ok(Some(Point::Token(around, place, Due::High)));
    }
    if is_count_operator(word) {
        let operator = Text::new(alloc, word)?;
        let point = open(around, place, Opened::Counted(operator))?;
        return Ok(Some(point));
    }
    if word == "update" {
        let point = open(around, place, Opened::Update)?;
        return Ok(Some(point));
    }
    if word == "let" {
        return Ok(Some(Point::Token(around, place, Due::Bindings)));
    }
    if word == "forall" {
        return Ok(Some(Point::Token(around, place, Due::Declarations)));
    }
    if is_name(word) {
        let point = applied(alloc, around, place, at, word)?;
        return Ok(Some(point));
    }
    Ok(None)
}

/// The closing bracket of an operation.
#[tactic(auto, using(crate::proofs::Closing::closes_op))]
fn close_operation(
    alloc: Global,
    around: Around,
    place: Place,
    operator: Text,
    arguments: Exprs,
) -> Result<Option<Point>, AllocError>
    ensures { (p t : AnyPlace) → Takes p (opened_step p around place (opened.Op operator arguments) (token_at t close_bracket)) result }
{
    let form = ExprForm::Op(operator, arguments);
    let point = attach(alloc, around, Expr { place, form })?;
    Ok(Some(point))
}

/// The bracket behind the arguments of an update.
#[tactic(auto, using(crate::proofs::Closing::closes_arguments, crate::proofs::Closing::closes_no_arguments))]
fn close_arguments(
    around: Around,
    place: Place,
    function: Expr,
    arguments: Exprs,
) -> Result<Option<Point>, AllocError>
    ensures { (p t : AnyPlace) → Takes p (opened_step p around place (opened.Arguments function arguments) (token_at t close_bracket)) result }
{
    if arguments.is_empty() {
        return Ok(None);
    }
    let point = open(around, place, Opened::Value(function, arguments))?;
    Ok(Some(point))
}

/// The closing bracket of an application.
#[tactic(auto, using(crate::proofs::Closing::closes_apply, crate::proofs::Closing::closes_apply_none))]
fn close_application(
    alloc: Global,
    around: Around,
    place: Place,
    function: Expr,
    arguments: Exprs,
) -> Result<Option<Point>, AllocError>
    ensures { (p t : AnyPlace) → Takes p (opened_step p around place (opened.Apply function arguments) (token_at t close_bracket)) result }
{
    if arguments.is_empty() {
        return Ok(None);
    }
    let form = ExprForm::Apply(Boxed::new(alloc, function)?, arguments);
    let point = attach(alloc, around, Expr { place, form })?;
    Ok(Some(point))
}

/// No list of expressions can end there.
fn no_list(form: Opened) -> Option<Point>
    ensures { result ≡ None }
{
    let _ = form;
    None
}

/// A closing bracket in the innermost form.
#[tactic(auto, using(crate::proofs::Closing::closes_no_list))]
fn close_form(
    alloc: Global,
    around: Around,
    place: Place,
    form: Opened,
) -> Result<Option<Point>, AllocError>
    ensures { (p t : AnyPlace) → Takes p (opened_step p around place form (token_at t close_bracket)) result }
{
    match form {
        Opened::Op(operator, arguments) => {
            close_operation(alloc, around, place, operator, arguments)
        }
        Opened::Arguments(function, arguments) => {
            close_arguments(around, place, function, arguments)
        }
        Opened::Apply(function, arguments) => {
            close_application(alloc, around, place, function, arguments)
        }
        other => Ok(no_list(other)),
    }
}

/// A closing bracket where an expression is due: the end of a list of them.
#[tactic(auto, using(crate::proofs::Closing::closes_whole))]
pub(crate) fn expr_close(alloc: Global, mut around: Around) -> Result<Option<Point>, AllocError>
    ensures { (p t : AnyPlace) → Takes p (step_at p (point.Expr around) (token_at t close_bracket)) result }
{
    let Some(Frame { place, form }) = around.frames.pop() else {
        return Ok(None);
    };
    close_form(alloc, around, place, form)
}

/// An opening bracket behind the opening bracket of an expression: a form that is applied.
#[tactic(auto, using(crate::proofs::Entering::form_open))]
pub(crate) fn form_open(
    mut around: Around,
    place: Place,
    at: Place,
) -> Result<Option<Point>, AllocError>
    ensures { (p : AnyPlace) → Takes p (step_at p (point.Form around place) (token_at at open_bracket)) result }
{
    let form = Opened::Head;
    around.frames.push(Frame { place, form })?;
    Ok(Some(Point::Form(around, at)))
}
