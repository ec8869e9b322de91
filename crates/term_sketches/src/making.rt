//! The sketch of a call.
ghost use Rattle.std.specs.Prelude.{◌≡◌, IfOk};
ghost use Rattle.term_sketches.specs.Sketches.{chosen_first, implied, negated_first, sketch_of};

use crate::choosing::{choose, differ};
use crate::items::{Literal, Operator, Sketch};
use crate::joining::join;
use crate::parity::parity;
use std::alloc::{AllocError, Global};

/// What the constructor makes of its arguments as literals, the first of which is a truth value or not: in time
/// n log n, for n literals.
///
/// # Errors
///
/// Where memory is refused.
pub fn make_sketch(
    alloc: Global,
    operator: Operator,
    truths: bool,
    literals: &[Literal],
) -> Result<Sketch, AllocError>
    ensures { IfOk result (λ s. s ≡ sketch_of operator truths literals.now) }
{
    match operator {
        Operator::Not => Ok(negate(literals)),
        Operator::And => join(alloc, true, literals),
        Operator::Or => join(alloc, false, literals),
        Operator::Xor => parity(alloc, false, literals),
        Operator::Implies => imply(alloc, literals),
        Operator::Iff => parity(alloc, true, literals),
        Operator::Ite => choose_first(alloc, literals),
        Operator::Eq => parity(alloc, true, literals),
        Operator::Neq => parity(alloc, false, literals),
        Operator::Distinct => differ(alloc, truths, literals),
    }
}

/// The opposite of the first literal.
fn negate(literals: &[Literal]) -> Sketch
    ensures { result ≡ negated_first literals.now }
{
    match literals {
        [] => Sketch::OneLiteral(Literal::constant(true)),
        [only, ..] => Sketch::OneLiteral(only.opposite()),
    }
}

/// That the second literal follows from the first.
fn imply(alloc: Global, literals: &[Literal]) -> Result<Sketch, AllocError>
    ensures { IfOk result (λ s. s ≡ implied literals.now) }
{
    match literals {
        [left, right] => join(alloc, false, &[left.opposite(), *right]),
        _ => Ok(Sketch::OneLiteral(Literal::constant(true))),
    }
}

/// A choice by the first literal between the others.
fn choose_first(alloc: Global, literals: &[Literal]) -> Result<Sketch, AllocError>
    ensures { IfOk result (λ s. s ≡ chosen_first literals.now) }
{
    match literals {
        [test, yes, no] => choose(alloc, *test, *yes, *no),
        _ => Ok(Sketch::OneLiteral(Literal::constant(true))),
    }
}
