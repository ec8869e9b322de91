//! Sums of terms.
ghost use Rattle.std.specs.Prelude.{◌≡◌, ◌⊎◌, IfOk, IfErr, map};
ghost use Rattle.std.specs.Ordering.{is_lt};
ghost use Rattle.rationals.specs.Rational.{zero_ℚ, cmp_ℚ};
ghost use Rattle.y_tree.specs.Values.{number};
ghost use Rattle.y_tree.specs.Plain.{plain_value};
ghost use Rattle.y_tree.specs.Meaning.{linear_value, number_of};
ghost use Rattle.term_shapes.specs.declared.lists.Monomial.{Monomial};
ghost use Rattle.model_eval.specs.Known.{found};
ghost use Rattle.model_eval.specs.Sums.{numbers, IsWideProduct, IsWideSum, RefusesSum};

use crate::errors::EvalError;
use crate::known::{Known, number_at};
use fraction128::{Frac, Wide};
use term_table::{Monomial, Term};
use y_tree::Value;

/// Whether the number of a term is below 0.
pub(crate) fn is_negative(known: &Known, t: Term) -> bool
    ensures { result ≡ is_lt (cmp_ℚ (number_of (found known.now.entries t)) zero_ℚ) }
{
    Frac::cmp(number_at(known, t), Frac::zero()).is_lt()
}

/// The sum of the products of factors with their terms' numbers, in order, and of the constant.
///
/// # Errors
///
/// The first operation that is too wide, with its operands.
pub(crate) fn sum_of(known: &Known, monomials: &[Monomial], constant: Frac) -> Result<Frac, Wide>
    ensures value { IfOk result (λ q. q ≡ linear_value (map (λ (m : Monomial). m.factor) monomials.now) constant (numbers known.now.entries monomials.now)) }
    ensures wide { IfErr result (λ wide. IsWideProduct monomials.now (numbers known.now.entries monomials.now) wide ⊎ IsWideSum monomials.now constant (numbers known.now.entries monomials.now) wide) }
{
    let mut sum = Frac::zero();
    for monomial in monomials {
        let part = monomial.factor.mul(number_at(known, monomial.of))?;
        sum = sum.add(part)?;
    }
    sum.add(constant)
}

/// The value of a sum.
///
/// # Errors
///
/// `Wide` where an operation is too wide.
#[tactic(auto, unfolding(y_tree::specs::Plain::plain_value))]
pub(crate) fn sum_value(
    known: &Known,
    monomials: &[Monomial],
    constant: Frac,
) -> Result<Value, EvalError>
    ensures value { IfOk result (λ v. plain_value v ≡ number (linear_value (map (λ (m : Monomial). m.factor) monomials.now) constant (numbers known.now.entries monomials.now))) }
    ensures wide { IfErr result (RefusesSum monomials.now constant (numbers known.now.entries monomials.now)) }
{
    match sum_of(known, monomials, constant) {
        Ok(sum) => Ok(Value::Real(sum)),
        Err(wide) => Err(EvalError::Wide(wide)),
    }
}
