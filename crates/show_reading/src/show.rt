//! The text of what commands hold.

use std::alloc::{AllocError, Global};
use yices_text::{Action, Bind, Command, Decl, Expr, ExprForm, LitExpr, Place, TypeExpr, TypeForm};

fn show_place(place: Place, out: &mut String) -> Result<(), AllocError> {
    let Place { line, column } = place;
    write!(out, "@{line}:{column}")
}

/// What is still to be shown.
#[derive(Clone, Copy)]
enum Work<'a> {
    Type(&'a TypeExpr),
    Decl(&'a Decl),
    Expr(&'a Expr),
    Bind(&'a Bind),
    Text(&'a str),
    Place(Place),
}

/// Shows the words of a type, and leaves its parts.
fn begin_type<'a>(
    of: &'a TypeExpr,
    work: &mut Vec<Work<'a>>,
    out: &mut String,
) -> Result<(), AllocError> {
    work.push(Work::Place(of.place))?;
    match &of.form {
        TypeForm::Bool => write!(out, " bool"),
        TypeForm::Real => write!(out, " real"),
        TypeForm::Named(name) => write!(out, " type {}", name.as_str()),
        TypeForm::Bitvector(width) => write!(out, " (bitvector {})", width.as_str()),
        TypeForm::Arrow(arguments, value) => {
            write!(out, " (->")?;
            work.push(Work::Text(")"))?;
            work.push(Work::Type(value.get()))?;
            work.push(Work::Text(" =>"))?;
            for argument in arguments.as_slice().iter().rev() {
                work.push(Work::Type(argument))?;
            }
            Ok(())
        }
    }
}

fn show_leaf(form: &ExprForm, out: &mut String) -> Result<bool, AllocError> {
    match form {
        ExprForm::True => write!(out, " true")?,
        ExprForm::False => write!(out, " false")?,
        ExprForm::Name(name) => write!(out, " name {}", name.as_str())?,
        ExprForm::Number(number) => write!(out, " number {}", number.as_str())?,
        ExprForm::Binary(bits) => write!(out, " binary {}", bits.as_str())?,
        ExprForm::Hex(digits) => write!(out, " hex {}", digits.as_str())?,
        ExprForm::MkBv(width, number) => {
            write!(out, " (mk-bv {} {})", width.as_str(), number.as_str())?;
        }
        _ => return Ok(false),
    }
    Ok(true)
}

fn leave_exprs<'a>(exprs: &'a [Expr], work: &mut Vec<Work<'a>>) -> Result<(), AllocError> {
    for expr in exprs.iter().rev() {
        work.push(Work::Expr(expr))?;
    }
    Ok(())
}

/// Leaves the parts, the first to be shown first.
fn leave<'a>(parts: &[Work<'a>], work: &mut Vec<Work<'a>>) -> Result<(), AllocError> {
    for part in parts.iter().rev() {
        work.push(*part)?;
    }
    Ok(())
}

fn begin_let<'a>(
    binds: &'a [Bind],
    body: &'a Expr,
    work: &mut Vec<Work<'a>>,
    out: &mut String,
) -> Result<(), AllocError> {
    leave(&[Work::Text(" in"), Work::Expr(body)], work)?;
    for bind in binds.iter().rev() {
        work.push(Work::Bind(bind))?;
    }
    write!(out, " (let")
}

fn begin_forall<'a>(
    decls: &'a [Decl],
    body: &'a Expr,
    work: &mut Vec<Work<'a>>,
    out: &mut String,
) -> Result<(), AllocError> {
    leave(&[Work::Text(" in"), Work::Expr(body)], work)?;
    for decl in decls.iter().rev() {
        work.push(Work::Decl(decl))?;
    }
    write!(out, " (forall")
}

fn begin_update<'a>(
    function: &'a Expr,
    arguments: &'a [Expr],
    value: &'a Expr,
    work: &mut Vec<Work<'a>>,
    out: &mut String,
) -> Result<(), AllocError> {
    leave(&[Work::Text(" )"), Work::Expr(value)], work)?;
    leave_exprs(arguments, work)?;
    leave(&[Work::Expr(function), Work::Text(" (")], work)?;
    write!(out, " (update")
}

fn begin_operation<'a>(
    word: &str,
    arguments: &'a [Expr],
    work: &mut Vec<Work<'a>>,
    out: &mut String,
) -> Result<(), AllocError> {
    leave_exprs(arguments, work)?;
    write!(out, " (op {word}")
}

fn begin_extract<'a>(
    high: &str,
    low: &str,
    bits: &'a Expr,
    work: &mut Vec<Work<'a>>,
    out: &mut String,
) -> Result<(), AllocError> {
    work.push(Work::Expr(bits))?;
    write!(out, " (extract {high} {low}")
}

fn begin_counted<'a>(
    word: &str,
    bits: &'a Expr,
    count: &'a str,
    work: &mut Vec<Work<'a>>,
    out: &mut String,
) -> Result<(), AllocError> {
    leave(
        &[Work::Expr(bits), Work::Text(" "), Work::Text(count)],
        work,
    )?;
    write!(out, " (counted {word}")
}

fn begin_apply<'a>(
    function: &'a Expr,
    arguments: &'a [Expr],
    work: &mut Vec<Work<'a>>,
    out: &mut String,
) -> Result<(), AllocError> {
    leave_exprs(arguments, work)?;
    work.push(Work::Expr(function))?;
    write!(out, " (apply")
}

/// Shows the first words of a form, and leaves its parts.
fn begin_form<'a>(
    form: &'a ExprForm,
    work: &mut Vec<Work<'a>>,
    out: &mut String,
) -> Result<(), AllocError> {
    match form {
        ExprForm::Op(word, arguments) => {
            begin_operation(word.as_str(), arguments.as_slice(), work, out)
        }
        ExprForm::Extract(high, low, bits) => {
            begin_extract(high.as_str(), low.as_str(), bits.get(), work, out)
        }
        ExprForm::Counted(word, bits, count) => {
            begin_counted(word.as_str(), bits.get(), count.as_str(), work, out)
        }
        ExprForm::Update(function, arguments, value) => {
            begin_update(function.get(), arguments.as_slice(), value.get(), work, out)
        }
        ExprForm::Let(binds, body) => begin_let(binds.as_slice(), body.get(), work, out),
        ExprForm::Forall(decls, body) => begin_forall(decls.as_slice(), body.get(), work, out),
        ExprForm::Apply(function, arguments) => {
            begin_apply(function.get(), arguments.as_slice(), work, out)
        }
        _ => Ok(()),
    }
}

/// Shows the first words of an expression, and leaves its parts.
fn begin_expr<'a>(
    expr: &'a Expr,
    work: &mut Vec<Work<'a>>,
    out: &mut String,
) -> Result<(), AllocError> {
    work.push(Work::Place(expr.place))?;
    if show_leaf(&expr.form, out)? {
        return Ok(());
    }
    work.push(Work::Text(")"))?;
    begin_form(&expr.form, work, out)
}

/// Shows one thing more, and leaves its parts.
fn show_next<'a>(
    next: Work<'a>,
    work: &mut Vec<Work<'a>>,
    out: &mut String,
) -> Result<(), AllocError> {
    match next {
        Work::Type(of) => begin_type(of, work, out),
        Work::Decl(decl) => {
            write!(out, " {}::", decl.name.as_str())?;
            work.push(Work::Type(&decl.of))?;
            Ok(())
        }
        Work::Expr(expr) => begin_expr(expr, work, out),
        Work::Bind(bind) => {
            write!(out, " {} =", bind.name.as_str())?;
            work.push(Work::Expr(&bind.expr))?;
            Ok(())
        }
        Work::Text(text) => write!(out, "{text}"),
        Work::Place(place) => show_place(place, out),
    }
}

fn show_all<'a>(alloc: Global, first: Work<'a>, out: &mut String) -> Result<(), AllocError> {
    let mut work = Vec::new(alloc);
    work.push(first)?;
    for _ in 0..u64::MAX {
        match work.pop() {
            Some(next) => show_next(next, &mut work, out)?,
            None => return Ok(()),
        }
    }
    Ok(())
}

fn show_type(alloc: Global, of: &TypeExpr, out: &mut String) -> Result<(), AllocError> {
    show_all(alloc, Work::Type(of), out)
}

fn show_expr(alloc: Global, expr: &Expr, out: &mut String) -> Result<(), AllocError> {
    show_all(alloc, Work::Expr(expr), out)
}

fn show_literal(literal: &LitExpr, out: &mut String) -> Result<(), AllocError> {
    let sign = if literal.positive { '+' } else { '-' };
    write!(out, " {sign}{}", literal.name.as_str())?;
    show_place(literal.place, out)?;
    show_place(literal.name_place, out)
}

fn show_literals(literals: &[LitExpr], out: &mut String) -> Result<(), AllocError> {
    write!(out, " check-assuming")?;
    for literal in literals {
        show_literal(literal, out)?;
    }
    Ok(())
}

fn show_bytes(bytes: &[u8], out: &mut String) -> Result<(), AllocError> {
    write!(out, " echo")?;
    for byte in bytes {
        write!(out, " {byte}")?;
    }
    Ok(())
}

fn show_typed(
    alloc: Global,
    head: &str,
    name: &str,
    of: &TypeExpr,
    out: &mut String,
) -> Result<(), AllocError> {
    write!(out, " {head} {name}")?;
    show_type(alloc, of, out)
}

fn show_defined(
    alloc: Global,
    name: &str,
    of: &TypeExpr,
    expr: &Expr,
    out: &mut String,
) -> Result<(), AllocError> {
    show_typed(alloc, "define", name, of, out)?;
    show_expr(alloc, expr, out)
}

fn show_of(alloc: Global, word: &str, expr: &Expr, out: &mut String) -> Result<(), AllocError> {
    write!(out, " {word}")?;
    show_expr(alloc, expr, out)
}

fn show_type_defined(
    alloc: Global,
    name: &str,
    of: &TypeExpr,
    out: &mut String,
) -> Result<(), AllocError> {
    write!(out, " define-type {name} as")?;
    show_type(alloc, of, out)
}

/// The word of a command that is nothing else.
fn word_of(action: &Action) -> &'static str {
    match action {
        Action::Check => "check",
        Action::ShowUnsatAssumptions => "show-unsat-assumptions",
        Action::Push => "push",
        Action::Pop => "pop",
        Action::Reset => "reset",
        Action::ShowModel => "show-model",
        Action::ShowImplicant => "show-implicant",
        Action::EfSolve => "ef-solve",
        Action::Exit => "exit",
        _ => "",
    }
}

fn show_action(alloc: Global, action: &Action, out: &mut String) -> Result<(), AllocError> {
    match action {
        Action::DefineType(name) => write!(out, " define-type {}", name.as_str()),
        Action::DefineTypeAs(name, of) => show_type_defined(alloc, name.as_str(), of, out),
        Action::Declare(name, of) => show_typed(alloc, "declare", name.as_str(), of, out),
        Action::Define(name, of, expr) => show_defined(alloc, name.as_str(), of, expr, out),
        Action::Assert(expr) => show_of(alloc, "assert", expr, out),
        Action::Eval(expr) => show_of(alloc, "eval", expr, out),
        Action::CheckAssuming(literals) => show_literals(literals.as_slice(), out),
        Action::Echo(text) => show_bytes(text.as_bytes(), out),
        Action::Include(name) => write!(out, " include {}", name.as_str()),
        other => write!(out, " {}", word_of(other)),
    }
}

/// Writes a command with all that it holds and its places.
pub fn show_command(alloc: Global, command: &Command, out: &mut String) -> Result<(), AllocError> {
    write!(out, "[")?;
    show_place(command.place, out)?;
    show_action(alloc, &command.action, out)?;
    write!(out, "]")
}
