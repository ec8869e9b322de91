//! A shape with the row of a call: the same wants of its arguments, in the same order.
ghost use Rattle.std.specs.Prelude.{◌≡◌, IfOk, true, false, length};
ghost use Rattle.y_tree.specs.Tree.{negation, choice, equality, disequality};
ghost use Rattle.term_sketches.specs.Sketches.{operator_of};
ghost use Rattle.term_build.specs.Building.{IsEmptyCall, IsRowShape, takes_count};

use std::alloc::{AllocError, Global};
use term_sketches::Operator;
use term_table::{Args, Shape, Term};

/// The terms as arguments of a shape.
pub(crate) fn make_args(alloc: Global, terms: &[Term]) -> Result<Args, AllocError>
    ensures { IfOk result (λ args. args ≡ terms.now) }
{
    let mut args = Args::new(alloc);
    for term in terms {
        args.push(*term)?;
    }
    Ok(args)
}

/// Whether the call is a conjunction, a disjunction or a parity of nothing.
pub(crate) fn is_empty_call(operator: Operator, arguments: &[Term]) -> bool
    ensures yes { result ≡ true → IsEmptyCall (operator_of operator) arguments.now }
    ensures no { result ≡ false → IsEmptyCall (operator_of operator) arguments.now → ⊥ }
{
    match operator {
        Operator::And | Operator::Or | Operator::Xor => arguments.is_empty(),
        _ => false,
    }
}

/// Whether the constructor takes so many arguments.
pub(crate) fn takes(operator: Operator, count: usize) -> bool
    ensures { result ≡ takes_count operator count }
{
    match operator {
        Operator::Not => 1 == count,
        Operator::And | Operator::Or | Operator::Xor | Operator::Distinct => 1 <= count,
        Operator::Implies | Operator::Iff | Operator::Eq | Operator::Neq => 2 == count,
        Operator::Ite => 3 == count,
    }
}

/// A shape over the arguments with the row of the call.
pub(crate) fn row_shape(
    alloc: Global,
    operator: Operator,
    arguments: &[Term],
) -> Result<Shape, AllocError>
    requires { takes_count operator (length arguments.now) ≡ true }
    ensures { IfOk result (λ s. IsRowShape (operator_of operator) arguments.now s) }
{
    match operator {
        Operator::Not => Ok(not_shape(arguments)),
        Operator::Eq | Operator::Neq => Ok(eq_shape(arguments)),
        Operator::Ite => Ok(ite_shape(arguments)),
        Operator::And | Operator::Implies | Operator::Iff => {
            let args = make_args(alloc, arguments)?;
            Ok(Shape::And(args))
        }
        Operator::Or => {
            let args = make_args(alloc, arguments)?;
            Ok(Shape::Or(args))
        }
        Operator::Xor => {
            let args = make_args(alloc, arguments)?;
            Ok(Shape::Xor(args))
        }
        Operator::Distinct => {
            let args = make_args(alloc, arguments)?;
            Ok(Shape::Distinct(args))
        }
    }
}

/// The negation of one argument.
#[tactic(auto, using(crate::proofs::Calls::not_row))]
fn not_shape(arguments: &[Term]) -> Shape
    requires { length arguments.now ≡ 1 }
    ensures { IsRowShape negation arguments.now result }
{
    match arguments {
        [only] => Shape::Not(*only),
        _ => Shape::True,
    }
}

/// The equality of two arguments.
#[tactic(auto, using(crate::proofs::Calls::eq_row, crate::proofs::Calls::neq_row))]
fn eq_shape(arguments: &[Term]) -> Shape
    requires { length arguments.now ≡ 2 }
    ensures equal { IsRowShape equality arguments.now result }
    ensures other { IsRowShape disequality arguments.now result }
{
    match arguments {
        [left, right] => Shape::Eq(*left, *right),
        _ => Shape::True,
    }
}

/// The choice between two arguments by the first.
#[tactic(auto, using(crate::proofs::Calls::ite_row))]
fn ite_shape(arguments: &[Term]) -> Shape
    requires { length arguments.now ≡ 3 }
    ensures { IsRowShape choice arguments.now result }
{
    match arguments {
        [test, yes, no] => Shape::Ite(*test, *yes, *no),
        _ => Shape::True,
    }
}
