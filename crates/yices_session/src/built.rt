//! What is built of the language.

ghost use Rattle.std.specs.Prelude.{◌≡◌, map};
ghost use Rattle.std.specs.List.{list_any};
ghost use Rattle.std.specs.Str.{bytes_eq};
ghost use Rattle.yices_grammar.specs.Commands.{binds, exprs};
ghost use Rattle.yices_commands.specs.Plain.{plain_type, plain, plain_bind, plain_command};
ghost use Rattle.yices_session.specs.Built as built;

use y_io::Text;
use yices_commands::{Action, Bind, Command, Expr, ExprForm, TypeExpr, TypeForm};

/// The words of operators that are built.
const BUILT_OPERATORS: [&str; 11] = [
    "not", "and", "or", "xor", "=>", "<=>", "if", "ite", "=", "/=", "distinct",
];

/// Whether all of the command is built. It takes as many steps as the command has parts, and one call
/// deep for each bracket that is open in it.
pub fn is_built(command: &Command) -> bool
    ensures { result ≡ built.is_built (plain_command command.now) }
{
    match &command.action {
        Action::Declare(_, of) => is_built_type(of),
        Action::Define(_, of, value) => is_built_type(of) && is_built_expr(value),
        Action::Assert(formula) => is_built_expr(formula),
        Action::Eval(term) => is_built_expr(term),
        Action::Check
        | Action::Push
        | Action::Pop
        | Action::Reset
        | Action::ShowModel
        | Action::CheckAssuming(_)
        | Action::ShowUnsatAssumptions
        | Action::Echo(_)
        | Action::Exit => true,
        Action::DefineType(_)
        | Action::DefineTypeAs(_, _)
        | Action::ShowImplicant
        | Action::EfSolve
        | Action::Include(_) => false,
    }
}

/// Whether the type is built.
#[tactic(auto, using(crate::proofs::Forms::bool_type, crate::proofs::Forms::real_type, crate::proofs::Forms::named_type, crate::proofs::Forms::bitvector_type, crate::proofs::Forms::arrow_type))]
fn is_built_type(of: &TypeExpr) -> bool
    ensures { result ≡ built.is_built_type (plain_type of.now) }
{
    match &of.form {
        TypeForm::Bool => true,
        TypeForm::Real | TypeForm::Named(_) | TypeForm::Bitvector(_) | TypeForm::Arrow(_, _) => {
            false
        }
    }
}

/// Whether the expression is built, with all its parts.
#[cycle(built)]
#[tactic(auto, using(crate::proofs::Forms::true_built, crate::proofs::Forms::false_built, crate::proofs::Forms::name_built, crate::proofs::Forms::number_unbuilt, crate::proofs::Forms::binary_unbuilt, crate::proofs::Forms::hex_unbuilt, crate::proofs::Forms::mk_bv_unbuilt, crate::proofs::Forms::extract_unbuilt, crate::proofs::Forms::counted_unbuilt, crate::proofs::Forms::forall_unbuilt))]
fn is_built_expr(expr: &Expr) -> bool
    ensures { result ≡ built.is_built_expr (plain expr.now) }
{
    match &expr.form {
        ExprForm::True | ExprForm::False | ExprForm::Name(_) => true,
        ExprForm::Op(op, arguments) => is_built_operator(op) && are_built(arguments.as_slice()),
        ExprForm::Let(bindings, body) => {
            are_binds_built(bindings.as_slice()) && is_built_expr(body.get())
        }
        ExprForm::Apply(function, arguments) => {
            is_built_expr(function.get()) && are_built(arguments.as_slice())
        }
        ExprForm::Update(function, arguments, value) => {
            is_built_expr(function.get())
                && are_built(arguments.as_slice())
                && is_built_expr(value.get())
        }
        ExprForm::Number(_)
        | ExprForm::Binary(_)
        | ExprForm::Hex(_)
        | ExprForm::MkBv(_, _)
        | ExprForm::Extract(_, _, _)
        | ExprForm::Counted(_, _, _)
        | ExprForm::Forall(_, _) => false,
    }
}

/// Whether the expressions are built.
#[cycle(built)]
fn are_built(arguments: &[Expr]) -> bool
    ensures { result ≡ built.are_built (exprs (map plain arguments.now)) }
{
    for i in 0..arguments.len() {
        if !is_built_expr(&arguments[i]) {
            return false;
        }
    }
    true
}

/// Whether what is bound is built.
#[cycle(built)]
fn are_binds_built(bindings: &[Bind]) -> bool
    ensures { result ≡ built.binds_built (binds (map plain_bind bindings.now)) }
{
    for i in 0..bindings.len() {
        if !is_built_expr(&bindings[i].expr) {
            return false;
        }
    }
    true
}

/// Whether the word is one of those.
fn is_one_of(words: &[&str], word: &str) -> bool
    ensures { result ≡ list_any (λ w. bytes_eq word.now w.now) words.now }
{
    words.iter().any(|w| word == *w)
}

/// Whether the word of an operator is one of those that are built.
fn is_built_operator(op: &Text) -> bool
    ensures { result ≡ built.is_built_word op.now }
{
    is_one_of(BUILT_OPERATORS.as_slice(), op.as_str())
}
