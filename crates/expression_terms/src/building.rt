//! Builds the terms of expressions.
//!
//! One function makes the term of each form of an expression, of the terms of its parts, which come first. Its contract
//! is quantified over the trees that the names stand for: whatever these are, the table grew by what constructors add for
//! fresh trees among those that are written (`GrowsBy`), or by that and by what a refused constructor may have added
//! (`GrowsPast`). What was built before stays, so the parts are put together from left to right.
//!
//! The terms of calls are told to the caller (`AddsParts`). Whoever keeps them, beside what the names' terms were built
//! from, keeps all that the answer was built from (`StaysWithin`).
ghost use Rattle.std.specs.Prelude.{◌≡◌, ◌++◌, ◌∷◌, [], IfErr, IfOk, OnErr, OnOk, map};
ghost use Rattle.yices_grammar.specs.Commands.{apply, binds, expr_at, exprs, let_in, operation};
ghost use Rattle.yices_grammar.specs.Commands as form;
ghost use Rattle.yices_commands.specs.Plain.{plain, plain_bind};
ghost use Rattle.yices_api.specs.State.{ContextsStay};
ghost use Rattle.expression_terms.specs.Building.{Adds, BuildsOr, named_in};
ghost use Rattle.expression_terms.specs.Outcomes.{Builds, BuildsEach, BindsEach, IsNoFunction, IsTwice, OnlyAdds, paired, Stops, StopsEach, BindsStop};
ghost use Rattle.expression_terms.specs.Growth.{all_trees, bound_trees};
ghost use Rattle.expression_terms.specs.Keeping.{AddsAmong, AddsParts, AllStayWithin, BoundStayWithin, StaysWithin};
ghost use Rattle.expression_terms.specs.Trees.{names_of};
ghost use Rattle.expression_terms.specs.declared.refusal.Stop.TheVariants.{NoMemory};

use crate::calls::operate;
use crate::names::{Bound, bind_all, find, first_repeated, unbind_first};
use crate::refusal::{Refusal, Stop};
use std::alloc::Global;
use term_table::{Term, Terms};
use y_io::Text;
use y_tree::laws::misfits;
use yices_api::Env;
use yices_commands::{Bind, Expr, ExprForm};
use yices_grammar::Place;

/// Builds the term of an expression, and answers its handle. It takes as many steps as the expression has parts beside
/// those of the constructors, and one call deep for each bracket that is open in it. The names are those that the table
/// has. The terms of the calls in the expression are told to `parts`, behind those that are there, in the order in which
/// they are built.
///
/// # Errors
///
/// The first thing that is wrong, at its place; `TableFull`; `NoMemory`. Then new terms may be left.
pub fn build(alloc: Global, env: &mut Env, parts: &mut Terms, expr: &Expr) -> Result<Term, Stop>
    ensures built { BuildsOr (record { bound = []; defined = env.old.table.term_names }) env.old (plain expr.now) result env.new }
    ensures adds { Adds (record { bound = []; defined = env.old.table.term_names }) env.old (plain expr.now) env.new }
    ensures parts { IfOk result (λ t. AddsParts (record { bound = []; defined = env.old.table.term_names }) env.old.table env.new.table (plain expr.now) parts.old parts.new) }
    ensures kept { IfOk result (λ t. StaysWithin (record { bound = []; defined = env.old.table.term_names }) env.old.table env.new.table parts.new (plain expr.now) t) }
{
    let mut names = Bound::new(alloc);
    build_one(alloc, env, &mut names, parts, expr)
}

/// Adds a term at the end.
///
/// # Errors
///
/// `NoMemory`. Then nothing is added.
fn keep(terms: &mut Terms, t: Term) -> Result<(), Stop>
    ensures ok { OnOk result (terms.new ≡ terms.old ++ t ∷ []) }
    ensures err { OnErr result (terms.new ≡ terms.old) }
    ensures cause { IfErr result (λ e. e ≡ NoMemory) }
{
    terms.push(t)?;
    Ok(())
}

/// Builds the term of an expression.
#[cycle(build)]
fn build_one(
    alloc: Global,
    env: &mut Env,
    names: &mut Bound,
    parts: &mut Terms,
    expr: &Expr,
) -> Result<Term, Stop>
    ensures built { IfOk result (Builds (named_in env.old.table names.old) env.old env.new (plain expr.now)) }
    ensures refused { IfErr result (Stops (named_in env.old.table names.old) env.old env.new (plain expr.now)) }
    ensures contexts { ContextsStay env.old env.new }
    ensures grown { OnlyAdds env.old.table env.new.table }
    ensures names { names.new ≡ names.old }
    ensures parts { IfOk result (λ t. AddsParts (named_in env.old.table names.old) env.old.table env.new.table (plain expr.now) parts.old parts.new) }
    ensures kept { IfOk result (StaysWithin (named_in env.old.table names.old) env.old.table env.new.table parts.new (plain expr.now)) }
{
    let at = expr.place;
    match &expr.form {
        ExprForm::True => Ok(env.table().true_term()),
        ExprForm::False => Ok(env.table().false_term()),
        ExprForm::Name(name) => find(alloc, env.table(), names, at, name),
        ExprForm::Op(word, arguments) => {
            build_call(alloc, env, names, parts, at, word, arguments.as_slice())
        }
        ExprForm::Let(binds, body) => {
            build_let(alloc, env, names, parts, at, binds.as_slice(), body.get())
        }
        ExprForm::Apply(function, arguments) => {
            let function = function.get();
            build_apply(alloc, env, names, parts, at, function, arguments.as_slice())
        }
        ExprForm::Update(function, arguments, value) => {
            let function = function.get();
            let arguments = arguments.as_slice();
            let value = value.get();
            build_update(alloc, env, names, parts, at, function, arguments, value)
        }
        ExprForm::Number(_)
        | ExprForm::Binary(_)
        | ExprForm::Hex(_)
        | ExprForm::MkBv(_, _)
        | ExprForm::Extract(_, _, _)
        | ExprForm::Counted(_, _, _)
        | ExprForm::Forall(_, _) => Err(Stop::Refused(at, Refusal::NotBuilt)),
    }
}

/// Builds the terms of expressions, in order.
#[cycle(build)]
fn build_all(
    alloc: Global,
    env: &mut Env,
    names: &mut Bound,
    parts: &mut Terms,
    arguments: &[Expr],
) -> Result<Terms, Stop>
    ensures built { IfOk result (BuildsEach (named_in env.old.table names.old) env.old env.new (exprs (map plain arguments.now))) }
    ensures refused { IfErr result (StopsEach (named_in env.old.table names.old) env.old env.new (exprs (map plain arguments.now))) }
    ensures contexts { ContextsStay env.old env.new }
    ensures grown { OnlyAdds env.old.table env.new.table }
    ensures names { names.new ≡ names.old }
    ensures parts { IfOk result (λ ts. AddsAmong (named_in env.old.table names.old) env.old.table env.new.table (λ s. all_trees s (exprs (map plain arguments.now))) parts.old parts.new) }
    ensures kept { IfOk result (AllStayWithin (named_in env.old.table names.old) env.old.table env.new.table parts.new (exprs (map plain arguments.now))) }
{
    let mut terms = Terms::new(alloc);
    for i in 0..arguments.len() {
        let t = build_one(alloc, env, names, parts, &arguments[i])?;
        keep(&mut terms, t)?;
    }
    Ok(terms)
}

/// Builds the term of an operator over expressions.
#[cycle(build)]
fn build_call(
    alloc: Global,
    env: &mut Env,
    names: &mut Bound,
    parts: &mut Terms,
    place: Place,
    word: &Text,
    arguments: &[Expr],
) -> Result<Term, Stop>
    ensures built { IfOk result (Builds (named_in env.old.table names.old) env.old env.new (expr_at place (operation word.now (exprs (map plain arguments.now))))) }
    ensures refused { IfErr result (Stops (named_in env.old.table names.old) env.old env.new (expr_at place (operation word.now (exprs (map plain arguments.now))))) }
    ensures contexts { ContextsStay env.old env.new }
    ensures grown { OnlyAdds env.old.table env.new.table }
    ensures names { names.new ≡ names.old }
    ensures parts { IfOk result (λ t. AddsParts (named_in env.old.table names.old) env.old.table env.new.table (expr_at place (operation word.now (exprs (map plain arguments.now)))) parts.old parts.new) }
    ensures kept { IfOk result (StaysWithin (named_in env.old.table names.old) env.old.table env.new.table parts.new (expr_at place (operation word.now (exprs (map plain arguments.now))))) }
{
    let terms = build_all(alloc, env, names, parts, arguments)?;
    let t = operate(alloc, env, place, word, terms.as_slice())?;
    env.is_world();
    keep(parts, t)?;
    Ok(t)
}

/// Refuses an application, since no truth value is a function.
///
/// # Errors
///
/// `WrongType`; `NoMemory`.
fn no_function(alloc: Global, place: Place) -> Stop
    ensures { IsNoFunction place result }
{
    match (Text::new(alloc, "function"), Text::new(alloc, "bool")) {
        (Ok(wanted), Ok(found)) => Stop::Refused(
            place,
            Refusal::WrongType {
                place: 1,
                wanted,
                found,
            },
        ),
        _ => Stop::NoMemory,
    }
}

/// Builds the terms of an application's parts, and refuses it.
///
/// # Errors
///
/// What is wrong with a part, or else that the function is none; `TableFull`; `NoMemory`.
#[cycle(build)]
fn build_apply(
    alloc: Global,
    env: &mut Env,
    names: &mut Bound,
    parts: &mut Terms,
    place: Place,
    function: &Expr,
    arguments: &[Expr],
) -> Result<Term, Stop>
    ensures built { IfOk result (Builds (named_in env.old.table names.old) env.old env.new (expr_at place (apply (plain function.now) (exprs (map plain arguments.now))))) }
    ensures refused { IfErr result (Stops (named_in env.old.table names.old) env.old env.new (expr_at place (apply (plain function.now) (exprs (map plain arguments.now))))) }
    ensures contexts { ContextsStay env.old env.new }
    ensures grown { OnlyAdds env.old.table env.new.table }
    ensures names { names.new ≡ names.old }
    ensures parts { IfOk result (λ t. AddsParts (named_in env.old.table names.old) env.old.table env.new.table (expr_at place (apply (plain function.now) (exprs (map plain arguments.now)))) parts.old parts.new) }
    ensures kept { IfOk result (StaysWithin (named_in env.old.table names.old) env.old.table env.new.table parts.new (expr_at place (apply (plain function.now) (exprs (map plain arguments.now))))) }
{
    let _ = build_one(alloc, env, names, parts, function)?;
    let _ = build_all(alloc, env, names, parts, arguments)?;
    misfits();
    Err(no_function(alloc, place))
}

/// Builds the terms of an update's parts, and refuses it.
///
/// # Errors
///
/// What is wrong with a part, or else that the function is none; `TableFull`; `NoMemory`.
#[cycle(build)]
fn build_update(
    alloc: Global,
    env: &mut Env,
    names: &mut Bound,
    parts: &mut Terms,
    place: Place,
    function: &Expr,
    arguments: &[Expr],
    value: &Expr,
) -> Result<Term, Stop>
    ensures built { IfOk result (Builds (named_in env.old.table names.old) env.old env.new (expr_at place (form.update (plain function.now) (exprs (map plain arguments.now)) (plain value.now)))) }
    ensures refused { IfErr result (Stops (named_in env.old.table names.old) env.old env.new (expr_at place (form.update (plain function.now) (exprs (map plain arguments.now)) (plain value.now)))) }
    ensures contexts { ContextsStay env.old env.new }
    ensures grown { OnlyAdds env.old.table env.new.table }
    ensures names { names.new ≡ names.old }
    ensures parts { IfOk result (λ t. AddsParts (named_in env.old.table names.old) env.old.table env.new.table (expr_at place (form.update (plain function.now) (exprs (map plain arguments.now)) (plain value.now))) parts.old parts.new) }
    ensures kept { IfOk result (StaysWithin (named_in env.old.table names.old) env.old.table env.new.table parts.new (expr_at place (form.update (plain function.now) (exprs (map plain arguments.now)) (plain value.now)))) }
{
    let _ = build_one(alloc, env, names, parts, function)?;
    let _ = build_all(alloc, env, names, parts, arguments)?;
    let _ = build_one(alloc, env, names, parts, value)?;
    misfits();
    Err(no_function(alloc, place))
}

/// Builds the terms of what names are bound to, in order.
#[cycle(build)]
fn build_bound(
    alloc: Global,
    env: &mut Env,
    names: &mut Bound,
    parts: &mut Terms,
    bindings: &[Bind],
) -> Result<Terms, Stop>
    ensures built { IfOk result (BindsEach (named_in env.old.table names.old) env.old env.new (binds (map plain_bind bindings.now))) }
    ensures refused { IfErr result (BindsStop (named_in env.old.table names.old) env.old env.new (binds (map plain_bind bindings.now))) }
    ensures contexts { ContextsStay env.old env.new }
    ensures grown { OnlyAdds env.old.table env.new.table }
    ensures names { names.new ≡ names.old }
    ensures parts { IfOk result (λ ts. AddsAmong (named_in env.old.table names.old) env.old.table env.new.table (λ s. bound_trees s (binds (map plain_bind bindings.now))) parts.old parts.new) }
    ensures kept { IfOk result (λ ts. BoundStayWithin (named_in env.old.table names.old) env.old.table env.new.table parts.new (binds (map plain_bind bindings.now)) (paired ts (names_of (binds (map plain_bind bindings.now))))) }
{
    let mut terms = Terms::new(alloc);
    for i in 0..bindings.len() {
        let t = build_one(alloc, env, names, parts, &bindings[i].expr)?;
        keep(&mut terms, t)?;
    }
    Ok(terms)
}

/// The refusal of a name that one `let` binds twice.
fn twice(alloc: Global, place: Place, name: &Text) -> Stop
    ensures { IsTwice place name.now result }
{
    match Text::new(alloc, name.as_str()) {
        Ok(text) => Stop::Refused(place, Refusal::BoundTwice(text)),
        Err(_) => Stop::NoMemory,
    }
}

/// Builds what is bound, outside its own bindings, and then the body over them; the bindings are gone afterwards.
#[cycle(build)]
fn build_let(
    alloc: Global,
    env: &mut Env,
    names: &mut Bound,
    parts: &mut Terms,
    place: Place,
    bindings: &[Bind],
    body: &Expr,
) -> Result<Term, Stop>
    ensures built { IfOk result (Builds (named_in env.old.table names.old) env.old env.new (expr_at place (let_in (binds (map plain_bind bindings.now)) (plain body.now)))) }
    ensures refused { IfErr result (Stops (named_in env.old.table names.old) env.old env.new (expr_at place (let_in (binds (map plain_bind bindings.now)) (plain body.now)))) }
    ensures contexts { ContextsStay env.old env.new }
    ensures grown { OnlyAdds env.old.table env.new.table }
    ensures names { names.new ≡ names.old }
    ensures parts { IfOk result (λ t. AddsParts (named_in env.old.table names.old) env.old.table env.new.table (expr_at place (let_in (binds (map plain_bind bindings.now)) (plain body.now))) parts.old parts.new) }
    ensures kept { IfOk result (StaysWithin (named_in env.old.table names.old) env.old.table env.new.table parts.new (expr_at place (let_in (binds (map plain_bind bindings.now)) (plain body.now)))) }
{
    if let Some(again) = first_repeated(alloc, bindings)? {
        return Err(twice(alloc, place, &bindings[again].name));
    }
    let terms = build_bound(alloc, env, names, parts, bindings)?;
    env.is_world();
    bind_all(names, bindings, terms.as_slice())?;
    misfits();
    let answer = build_one(alloc, env, names, parts, body);
    unbind_first(names, bindings, bindings.len());
    answer
}
