//! Division of numbers in two's complement.
//!
//! The sizes are divided, and the signs put on afterwards: the quotient's is that of the two signs'
//! exclusive or, the remainder's that of the dividend. A modulo has the sign of the divisor: where the
//! signs differ, and the remainder isn't 0, the divisor is added to it.

ghost use Rattle.std.specs.Prelude.{◌≡◌, ◌<◌, ◌+◌, ◌*◌, ◌≤◌, ℕ, Bool, length, IfOk};
ghost use Rattle.y_tree.specs.BitVectors.{magnitude, divide, remainder, signed_divide, signed_remainder, signed_modulo};
ghost use Rattle.bit_blast.specs.Bits.{number_under};
ghost use Rattle.clause_gates.specs.Circuits.{Grows, IsTruth, AllBelow};
ghost use Rattle.bit_blast.specs.Circuits.{IsWord};

use crate::adding::{add, negate_if};
use crate::bitwise::{Pairing, each};
use crate::comparing::nonzero;
use crate::dividing::{Division, divide};
use clause_gates::Circuit;
use clause_gates::folding::{and_of, xor_of};
use clause_logic::Lit;
use clause_logic::lists::Lits;
use std::alloc::{AllocError, Global};

/// The quotient and the remainder of the sizes of two words.
#[tactic(auto, using(clause_gates::proofs::Growth::grows_same))]
fn divide_sizes(
    alloc: Global,
    circuit: &mut Circuit,
    truth: Lit,
    a: &[Lit],
    b: &[Lit],
) -> Result<Division, AllocError>
    requires truth { IsTruth circuit.old.content truth }
    requires a_known { AllBelow circuit.old.content.vars a.now }
    requires b_known { AllBelow circuit.old.content.vars b.now }
    requires same { length a.now ≡ length b.now }
    requires some { 0 < length a.now }
    ensures grows { Grows circuit.old circuit.new (3 * (length a.now * length a.now) + 8 * length a.now) }
    ensures quotient { IfOk result (λ r. IsWord circuit.new.content (length a.now) r.quotient (λ s. divide (length a.now) (magnitude (length a.now) (number_under s a.now)) (magnitude (length a.now) (number_under s b.now)))) }
    ensures remainder { IfOk result (λ r. IsWord circuit.new.content (length a.now) r.remainder (λ s. remainder (magnitude (length a.now) (number_under s a.now)) (magnitude (length a.now) (number_under s b.now)))) }
{
    let last = a.len() - 1;
    let x = negate_if(alloc, circuit, truth, a[last], a)?;
    let y = negate_if(alloc, circuit, truth, b[last], b)?;
    divide(alloc, circuit, truth, x.as_slice(), y.as_slice())
}

/// The quotient of two words in two's complement, rounded towards 0: a division and three
/// negations.
#[tactic(auto, using(clause_gates::proofs::Growth::grows_same))]
pub fn signed_divide(
    alloc: Global,
    circuit: &mut Circuit,
    truth: Lit,
    a: &[Lit],
    b: &[Lit],
) -> Result<Lits, AllocError>
    requires truth { IsTruth circuit.old.content truth }
    requires a_known { AllBelow circuit.old.content.vars a.now }
    requires b_known { AllBelow circuit.old.content.vars b.now }
    requires same { length a.now ≡ length b.now }
    requires some { 0 < length a.now }
    ensures grows { Grows circuit.old circuit.new (3 * (length a.now * length a.now) + 11 * length a.now + 1) }
    ensures ok { IfOk result (λ r. IsWord circuit.new.content (length a.now) r (λ s. signed_divide (length a.now) (number_under s a.now) (number_under s b.now))) }
{
    let last = a.len() - 1;
    let division = divide_sizes(alloc, circuit, truth, a, b)?;
    let sign = xor_of(circuit, truth, a[last], b[last])?;
    negate_if(alloc, circuit, truth, sign, division.quotient.as_slice())
}

/// The remainder of two words in two's complement, with the sign of the dividend: a division and
/// three negations.
#[tactic(auto, using(clause_gates::proofs::Growth::grows_same))]
pub fn signed_remainder(
    alloc: Global,
    circuit: &mut Circuit,
    truth: Lit,
    a: &[Lit],
    b: &[Lit],
) -> Result<Lits, AllocError>
    requires truth { IsTruth circuit.old.content truth }
    requires a_known { AllBelow circuit.old.content.vars a.now }
    requires b_known { AllBelow circuit.old.content.vars b.now }
    requires same { length a.now ≡ length b.now }
    requires some { 0 < length a.now }
    ensures grows { Grows circuit.old circuit.new (3 * (length a.now * length a.now) + 11 * length a.now) }
    ensures ok { IfOk result (λ r. IsWord circuit.new.content (length a.now) r (λ s. signed_remainder (length a.now) (number_under s a.now) (number_under s b.now))) }
{
    let last = a.len() - 1;
    let division = divide_sizes(alloc, circuit, truth, a, b)?;
    negate_if(
        alloc,
        circuit,
        truth,
        a[last],
        division.remainder.as_slice(),
    )
}

/// The remainder of two words in two's complement, with the sign of the divisor: a remainder with
/// the sign of the dividend, to which the divisor is added where the signs differ and the
/// remainder isn't 0.
#[tactic(auto, using(clause_gates::proofs::Growth::grows_same))]
pub fn signed_modulo(
    alloc: Global,
    circuit: &mut Circuit,
    truth: Lit,
    a: &[Lit],
    b: &[Lit],
) -> Result<Lits, AllocError>
    requires truth { IsTruth circuit.old.content truth }
    requires a_known { AllBelow circuit.old.content.vars a.now }
    requires b_known { AllBelow circuit.old.content.vars b.now }
    requires same { length a.now ≡ length b.now }
    requires some { 0 < length a.now }
    ensures grows { Grows circuit.old circuit.new (3 * (length a.now * length a.now) + 15 * length a.now + 2) }
    ensures ok { IfOk result (λ r. IsWord circuit.new.content (length a.now) r (λ s. signed_modulo (length a.now) (number_under s a.now) (number_under s b.now))) }
{
    let last = a.len() - 1;
    let division = divide_sizes(alloc, circuit, truth, a, b)?;
    let rest = division.remainder.as_slice();
    let signed = negate_if(alloc, circuit, truth, a[last], rest)?;
    let some = nonzero(circuit, truth, rest)?;
    let apart = xor_of(circuit, truth, a[last], b[last])?;
    let flag = and_of(circuit, truth, apart, some)?;
    let addend = each(alloc, circuit, truth, Pairing::Keep, flag, b, b)?;
    add(
        alloc,
        circuit,
        truth,
        signed.as_slice(),
        addend.as_slice(),
        truth.opposite(),
    )
}
