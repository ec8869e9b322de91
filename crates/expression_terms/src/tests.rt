//! Expressions over three constants: terms that are one, and refusals with their places, worked out by hand.
use super::*;
use sqlite_items::{Boxed, Items};
use std::alloc::{AllocError, Global};
use std::process::Abort;
use std::test::Fail;
use term_table::{Term, Terms};
use y_io::Text;
use yices_api::{Call, Env, Reply, step};
use yices_commands::{Bind, Expr, ExprForm};
use yices_grammar::Place;

/// What an expression comes to.
#[derive(Clone, Copy, Debug, PartialEq, Eq)]
enum Comes {
    Built(Term),
    Unknown(u64),
    Twice(u64),
    Arity(u64, usize),
    Type(u64, usize),
    NotBuilt(u64),
    Other,
}

/// The place in the first line at that column.
fn at(column: u64) -> Place {
    Place { line: 1, column }
}

/// A name at a column.
fn name(alloc: Global, column: u64, text: &str) -> Result<Expr, AllocError> {
    Ok(Expr {
        place: at(column),
        form: ExprForm::Name(Text::new(alloc, text)?),
    })
}

/// Names at a column.
fn names(alloc: Global, column: u64, texts: &[&str]) -> Result<Items<Expr>, AllocError> {
    let mut items = Items::new(alloc);
    for text in texts {
        items.push(name(alloc, column, text)?)?;
    }
    Ok(items)
}

/// An operator at column 1 over names at column 2.
fn over(alloc: Global, word: &str, texts: &[&str]) -> Result<Expr, AllocError> {
    let arguments = names(alloc, 2, texts)?;
    Ok(Expr {
        place: at(1),
        form: ExprForm::Op(Text::new(alloc, word)?, arguments),
    })
}

/// A name that is bound to a name at column 4.
fn bind(alloc: Global, bound: &str, text: &str) -> Result<Bind, AllocError> {
    let bound = Text::new(alloc, bound)?;
    let expr = name(alloc, 4, text)?;
    Ok(Bind { name: bound, expr })
}

/// Names that are bound to names, side by side.
fn all_bound(alloc: Global, binds: &[(&str, &str)]) -> Result<Items<Bind>, AllocError> {
    let mut items = Items::new(alloc);
    for (bound, text) in binds {
        items.push(bind(alloc, bound, text)?)?;
    }
    Ok(items)
}

/// A `let` of these names around an expression.
fn let_form(alloc: Global, items: Items<Bind>, body: Expr) -> Result<ExprForm, AllocError> {
    let body = Boxed::new(alloc, body)?;
    Ok(ExprForm::Let(items, body))
}

/// An environment with the constants p, q and r.
fn three_constants(alloc: Global) -> Result<Env, AllocError> {
    let mut env = Env::new(alloc)?;
    for text in ["p", "q", "r"] {
        let of = env.table().bool_type();
        if let Reply::Term(t) = step(&mut env, &Call::NewUninterpretedTerm(of)) {
            let _ = step(&mut env, &Call::SetTermName(Text::new(alloc, text)?, t));
        }
    }
    Ok(env)
}

/// What building the expression comes to.
fn built(alloc: Global, env: &mut Env, expr: Expr) -> Comes {
    let mut parts = Terms::new(alloc);
    match build(alloc, env, &mut parts, &expr) {
        Ok(t) => Comes::Built(t),
        Err(Stop::NoMemory) => Comes::Other,
        Err(Stop::Refused(place, refusal)) => refused(place, refusal),
    }
}

/// A refusal at a place.
fn refused(place: Place, refusal: Refusal) -> Comes {
    match refusal {
        Refusal::UnknownName(_) => Comes::Unknown(place.column),
        Refusal::BoundTwice(_) => Comes::Twice(place.column),
        Refusal::BadArity(count) => Comes::Arity(place.column, count),
        Refusal::WrongType {
            place: argument,
            ..
        } => Comes::Type(place.column, argument),
        Refusal::NotBuilt => Comes::NotBuilt(place.column),
        _ => Comes::Other,
    }
}

/// A word with names.
type Words = (&'static str, &'static [&'static str]);

/// Pairs of calls that make one term.
const SAME: [(Words, Words); 12] = [
    (("xor", &["p", "q", "p"]), ("and", &["q"])),
    (("xor", &["p", "q", "r"]), ("xor", &["r", "p", "q"])),
    (("and", &["p", "q", "p"]), ("and", &["q", "p"])),
    (("or", &["p", "q"]), ("or", &["q", "p", "q"])),
    (("=>", &["p", "p"]), ("distinct", &["p"])),
    (("<=>", &["p", "q"]), ("=", &["q", "p"])),
    (("if", &["p", "q", "q"]), ("or", &["q"])),
    (("ite", &["p", "q", "r"]), ("if", &["p", "q", "r"])),
    (("/=", &["p", "q"]), ("xor", &["p", "q"])),
    (("/=", &["p", "p"]), ("distinct", &["p", "q", "r"])),
    (("distinct", &["p", "q"]), ("/=", &["q", "p"])),
    (("=", &["p", "p"]), ("<=>", &["q", "q"])),
];

/// Calls that are refused.
const REFUSED: [(Words, Comes); 11] = [
    (("and", &[]), Comes::Arity(1, 0)),
    (("or", &[]), Comes::Arity(1, 0)),
    (("xor", &[]), Comes::Arity(1, 0)),
    (("distinct", &[]), Comes::Arity(1, 0)),
    (("not", &["p", "q"]), Comes::Arity(1, 2)),
    (("=>", &["p"]), Comes::Arity(1, 1)),
    (("<=>", &["p", "q", "r"]), Comes::Arity(1, 3)),
    (("if", &["p", "q"]), Comes::Arity(1, 2)),
    (("=", &["p"]), Comes::Arity(1, 1)),
    (("and", &["p", "x"]), Comes::Unknown(2)),
    (("bvadd", &["p", "q"]), Comes::NotBuilt(1)),
];

/// What a word over names comes to.
fn comes_to(alloc: Global, env: &mut Env, words: Words) -> Result<Comes, AllocError> {
    let expr = over(alloc, words.0, words.1)?;
    Ok(built(alloc, env, expr))
}

/// What it comes to where names are bound.
fn let_comes_to(
    alloc: Global,
    env: &mut Env,
    binds: &[(&str, &str)],
    words: Words,
) -> Result<Comes, AllocError> {
    let items = all_bound(alloc, binds)?;
    let body = over(alloc, words.0, words.1)?;
    let form = let_form(alloc, items, body)?;
    Ok(built(alloc, env, Expr { place: at(3), form }))
}

/// What p applied to q comes to.
fn application_comes_to(alloc: Global, env: &mut Env) -> Result<Comes, AllocError> {
    let function = Boxed::new(alloc, name(alloc, 2, "p")?)?;
    let arguments = names(alloc, 3, &["q"])?;
    let form = ExprForm::Apply(function, arguments);
    Ok(built(alloc, env, Expr { place: at(1), form }))
}

fn is_built(comes: Comes) -> bool {
    matches!(comes, Comes::Built(_))
}

fn check_same(
    rt: &impl Abort,
    alloc: Global,
    env: &mut Env,
    rows: &[(Words, Words)],
) -> Result<(), AllocError> {
    for row in rows {
        let first = comes_to(alloc, env, row.0)?;
        let second = comes_to(alloc, env, row.1)?;
        assert!(rt; is_built(first) && first == second, "at {:?}", row.0.0);
    }
    Ok(())
}

fn check_refused(
    rt: &impl Abort,
    alloc: Global,
    env: &mut Env,
    rows: &[(Words, Comes)],
) -> Result<(), AllocError> {
    for row in rows {
        assert_eq!(rt; comes_to(alloc, env, row.0)?, row.1);
    }
    Ok(())
}

#[test]
fn words_make_their_terms(rt: HostRuntime) -> Result<(), Fail> {
    let alloc: Global = rt.alloc();
    let mut env = three_constants(alloc)?;
    check_same(&rt, alloc, &mut env, &SAME)?;
    check_refused(&rt, alloc, &mut env, &REFUSED)?;
    Ok(())
}

#[test]
fn names_are_bound_side_by_side(rt: HostRuntime) -> Result<(), Fail> {
    let alloc: Global = rt.alloc();
    let mut env = three_constants(alloc)?;
    let implied = comes_to(alloc, &mut env, ("=>", &["q", "p"]))?;
    let other = comes_to(alloc, &mut env, ("=>", &["p", "q"]))?;
    let swapped = let_comes_to(
        alloc,
        &mut env,
        &[("p", "q"), ("q", "p")],
        ("=>", &["p", "q"]),
    )?;
    assert!(&rt; is_built(implied) && swapped == implied && other != implied);
    let twice = let_comes_to(alloc, &mut env, &[("x", "p"), ("x", "z")], ("not", &["x"]))?;
    assert_eq!(&rt; twice, Comes::Twice(3));
    let unknown = let_comes_to(alloc, &mut env, &[("y", "x")], ("not", &["x"]))?;
    assert_eq!(&rt; unknown, Comes::Unknown(4));
    Ok(())
}

#[test]
fn no_truth_value_is_a_function(rt: HostRuntime) -> Result<(), Fail> {
    let alloc: Global = rt.alloc();
    let mut env = three_constants(alloc)?;
    assert_eq!(&rt; application_comes_to(alloc, &mut env)?, Comes::Type(1, 1));
    Ok(())
}
