//! The operators and the tests, by their names.
//!
//! Each is one of the circuits. The bound on the variables of a word is that of a modulo in two's
//! complement, the greatest of all, with room for the literal that is always true.

ghost use Rattle.std.specs.Prelude.{◌≡◌, ◌<◌, ◌+◌, ◌*◌, ◌≤◌, ℕ, Bool, length, IfOk};
ghost use Rattle.bit_blast.specs.Bits.{number_under};
ghost use Rattle.clause_gates.specs.Circuits.{Grows, Computes, IsTruth, AllBelow};
ghost use Rattle.bit_blast.specs.Circuits.{IsWord};
ghost use Rattle.bit_blast.specs.Operators.{operate, compare};

use crate::adding::{add, subtract};
use crate::bitwise::{Pairing, each};
use crate::comparing::{at_least, equal, signed_at_least};
use crate::dividing::divide;
use crate::multiplying::multiply;
use crate::shifting::{Way, shift};
use crate::signed::{signed_divide, signed_modulo, signed_remainder};
use clause_gates::{Circuit, folding};
use clause_logic::Lit;
use clause_logic::lists::Lits;
use std::alloc::{AllocError, Global};

/// An operator on two words.
#[derive(Clone, Copy, PartialEq, Eq, Debug)]
pub enum BitOp {
    /// The sum.
    Add,
    /// The difference.
    Sub,
    /// The product.
    Mul,
    /// The quotient; by 0 all ones.
    Div,
    /// The remainder; by 0 the first word.
    Rem,
    /// The quotient in two's complement, rounded towards 0.
    Sdiv,
    /// The remainder in two's complement, with the sign of the first word.
    Srem,
    /// The remainder in two's complement, with the sign of the second word.
    Smod,
    /// Both bits, place by place.
    And,
    /// Either bit, place by place.
    Or,
    /// Just one of the bits, place by place.
    Xor,
    /// The first word moved up by the number of the second.
    Shl,
    /// The first word moved down, with zeros.
    Lshr,
    /// The first word moved down, with copies of its highest bit.
    Ashr,
}

/// A test of two words.
#[derive(Clone, Copy, PartialEq, Eq, Debug)]
pub enum BitTest {
    /// The words are equal.
    Equal,
    /// The first is at least the second.
    Ge,
    /// The first is above the second.
    Gt,
    /// The first is at least the second in two's complement.
    Sge,
    /// The first is above the second in two's complement.
    Sgt,
}

/// The bits of an operator of two words, beside a literal that is always true.
pub fn word_beside(
    alloc: Global,
    circuit: &mut Circuit,
    truth: Lit,
    op: BitOp,
    a: &[Lit],
    b: &[Lit],
) -> Result<Lits, AllocError>
    requires truth { IsTruth circuit.old.content truth }
    requires a_known { AllBelow circuit.old.content.vars a.now }
    requires b_known { AllBelow circuit.old.content.vars b.now }
    requires same { length a.now ≡ length b.now }
    requires some { 0 < length a.now }
    requires narrow { length a.now ≤ 128 }
    ensures grows { Grows circuit.old circuit.new (24 * ((length a.now + 1) * (length a.now + 1))) }
    ensures ok { IfOk result (λ r. IsWord circuit.new.content (length a.now) r (λ s. operate op (length a.now) (number_under s a.now) (number_under s b.now))) }
{
    let falsehood = truth.opposite();
    let sign = a[a.len() - 1];
    match op {
        BitOp::Add => add(alloc, circuit, truth, a, b, falsehood),
        BitOp::Sub => subtract(alloc, circuit, truth, a, b),
        BitOp::Mul => multiply(alloc, circuit, truth, a, b),
        BitOp::Div => {
            let division = divide(alloc, circuit, truth, a, b)?;
            Ok(division.quotient)
        }
        BitOp::Rem => {
            let division = divide(alloc, circuit, truth, a, b)?;
            Ok(division.remainder)
        }
        BitOp::Sdiv => signed_divide(alloc, circuit, truth, a, b),
        BitOp::Srem => signed_remainder(alloc, circuit, truth, a, b),
        BitOp::Smod => signed_modulo(alloc, circuit, truth, a, b),
        BitOp::And => each(alloc, circuit, truth, Pairing::And, truth, a, b),
        BitOp::Or => each(alloc, circuit, truth, Pairing::Or, truth, a, b),
        BitOp::Xor => each(alloc, circuit, truth, Pairing::Xor, truth, a, b),
        BitOp::Shl => shift(alloc, circuit, truth, Way::Up, falsehood, a, b),
        BitOp::Lshr => shift(alloc, circuit, truth, Way::Down, falsehood, a, b),
        BitOp::Ashr => shift(alloc, circuit, truth, Way::Down, sign, a, b),
    }
}

/// Whether a test holds of two words, beside a literal that is always true.
pub fn test_beside(
    alloc: Global,
    circuit: &mut Circuit,
    truth: Lit,
    op: BitTest,
    a: &[Lit],
    b: &[Lit],
) -> Result<Lit, AllocError>
    requires truth { IsTruth circuit.old.content truth }
    requires a_known { AllBelow circuit.old.content.vars a.now }
    requires b_known { AllBelow circuit.old.content.vars b.now }
    requires same { length a.now ≡ length b.now }
    requires some { 0 < length a.now }
    ensures grows { Grows circuit.old circuit.new (2 * length a.now) }
    ensures ok { IfOk result (λ g. Computes circuit.new.content g (λ s. compare op (length a.now) (number_under s a.now) (number_under s b.now))) }
{
    match op {
        BitTest::Equal => equal(circuit, truth, a, b),
        BitTest::Ge => at_least(circuit, truth, a, b),
        BitTest::Gt => {
            let most = at_least(circuit, truth, b, a)?;
            Ok(most.opposite())
        }
        BitTest::Sge => signed_at_least(alloc, circuit, truth, a, b),
        BitTest::Sgt => {
            let most = signed_at_least(alloc, circuit, truth, b, a)?;
            Ok(most.opposite())
        }
    }
}

/// The bits of an operator of two words of one length from 1 to 128, the low bit first. Where
/// memory is refused, new variables and clauses may be there. For several words of one circuit
/// `word_beside` shares the literal that is always true, and folds constants.
pub fn word(
    alloc: Global,
    circuit: &mut Circuit,
    op: BitOp,
    a: &[Lit],
    b: &[Lit],
) -> Result<Lits, AllocError>
    requires a_known { AllBelow circuit.old.content.vars a.now }
    requires b_known { AllBelow circuit.old.content.vars b.now }
    requires same { length a.now ≡ length b.now }
    requires some { 0 < length a.now }
    requires narrow { length a.now ≤ 128 }
    ensures grows { Grows circuit.old circuit.new (48 * ((length a.now + 1) * (length a.now + 1))) }
    ensures ok { IfOk result (λ r. IsWord circuit.new.content (length a.now) r (λ s. operate op (length a.now) (number_under s a.now) (number_under s b.now))) }
{
    let truth = folding::truth(circuit)?;
    word_beside(alloc, circuit, truth, op, a, b)
}

/// Whether a test holds of two words of one length from 1 on. Where memory is refused, new
/// variables and clauses may be there.
pub fn test(
    alloc: Global,
    circuit: &mut Circuit,
    op: BitTest,
    a: &[Lit],
    b: &[Lit],
) -> Result<Lit, AllocError>
    requires a_known { AllBelow circuit.old.content.vars a.now }
    requires b_known { AllBelow circuit.old.content.vars b.now }
    requires same { length a.now ≡ length b.now }
    requires some { 0 < length a.now }
    ensures grows { Grows circuit.old circuit.new (8 * length a.now) }
    ensures ok { IfOk result (λ g. Computes circuit.new.content g (λ s. compare op (length a.now) (number_under s a.now) (number_under s b.now))) }
{
    let truth = folding::truth(circuit)?;
    test_beside(alloc, circuit, truth, op, a, b)
}
