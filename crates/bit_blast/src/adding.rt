//! Sums and differences, from bit to bit.
//!
//! Three bits add up to their parity and twice their majority. So the bits that are made and the
//! carry, which counts by its place, are the sum of the two words so far. The opposite bits of a word
//! of n bits are 2^n - 1 less the word: a difference is the sum with them and a first carry of 1.

ghost use Rattle.std.specs.Prelude.{◌≡◌, ◌<◌, ◌+◌, ◌*◌, ◌≤◌, ℕ, Bool, length, IfOk};
ghost use Rattle.y_tree.specs.BitVectors.{wrap, subtract, negate_if};
ghost use Rattle.clause_gates.specs.Bits.{value_under};
ghost use Rattle.bit_blast.specs.Bits.{number_under, bit};
ghost use Rattle.clause_gates.specs.Circuits.{Grows, Computes, IsTruth, AllBelow};
ghost use Rattle.bit_blast.specs.Circuits.{IsWord, IsSum};

use crate::bitwise::{Pairing, each, filled, inverted};
use clause_gates::Circuit;
use clause_gates::folding::{carry_of, sum_of};
use clause_logic::Lit;
use clause_logic::lists::Lits;
use std::alloc::{AllocError, Global};

/// The bits of a sum, and its last carry.
#[derive(Drop)]
pub struct Sum {
    /// The bits, as many as each word has.
    pub bits: Lits,
    /// The carry out of the highest bit.
    pub carry: Lit,
}

/// The sum of two words and a carry, from bit to bit: two gates a bit.
#[tactic(auto, using(clause_gates::proofs::Growth::grows_same, clause_gates::proofs::Growth::grows_more))]
pub fn ripple(
    alloc: Global,
    circuit: &mut Circuit,
    truth: Lit,
    a: &[Lit],
    b: &[Lit],
    first: Lit,
) -> Result<Sum, AllocError>
    requires truth { IsTruth circuit.old.content truth }
    requires a_known { AllBelow circuit.old.content.vars a.now }
    requires b_known { AllBelow circuit.old.content.vars b.now }
    requires first_known { first.var < circuit.old.content.vars }
    requires same { length a.now ≡ length b.now }
    ensures grows { Grows circuit.old circuit.new (2 * length a.now) }
    ensures ok { IfOk result (λ r. IsSum circuit.new.content a.now b.now first r.bits r.carry) }
{
    let mut bits = Lits::new(alloc);
    let mut carry = first;
    for i in 0..a.len() {
        let x = a[i];
        let y = b[i];
        let sum = sum_of(circuit, truth, x, y, carry)?;
        let next = carry_of(circuit, truth, x, y, carry)?;
        bits.push(sum)?;
        carry = next;
    }
    Ok(Sum { bits, carry })
}

/// The sum of two words and a carry, modulo 2 to their length: two gates a bit, but one for the
/// highest.
#[tactic(auto, using(clause_gates::proofs::Growth::grows_same))]
pub fn add(
    alloc: Global,
    circuit: &mut Circuit,
    truth: Lit,
    a: &[Lit],
    b: &[Lit],
    first: Lit,
) -> Result<Lits, AllocError>
    requires truth { IsTruth circuit.old.content truth }
    requires a_known { AllBelow circuit.old.content.vars a.now }
    requires b_known { AllBelow circuit.old.content.vars b.now }
    requires first_known { first.var < circuit.old.content.vars }
    requires same { length a.now ≡ length b.now }
    ensures grows { Grows circuit.old circuit.new (2 * length a.now) }
    ensures ok { IfOk result (λ r. IsWord circuit.new.content (length a.now) r (λ s. wrap (length a.now) (number_under s a.now + number_under s b.now + bit (value_under s first)))) }
{
    if a.is_empty() {
        return Ok(Lits::new(alloc));
    }
    let last = a.len() - 1;
    let Sum { mut bits, carry } = ripple(alloc, circuit, truth, &a[..last], &b[..last], first)?;
    let high = sum_of(circuit, truth, a[last], b[last], carry)?;
    bits.push(high)?;
    Ok(bits)
}

/// The difference of two words, modulo 2 to their length: as a sum.
#[tactic(auto, using(clause_gates::proofs::Growth::grows_same))]
pub fn subtract(
    alloc: Global,
    circuit: &mut Circuit,
    truth: Lit,
    a: &[Lit],
    b: &[Lit],
) -> Result<Lits, AllocError>
    requires truth { IsTruth circuit.old.content truth }
    requires a_known { AllBelow circuit.old.content.vars a.now }
    requires b_known { AllBelow circuit.old.content.vars b.now }
    requires same { length a.now ≡ length b.now }
    ensures grows { Grows circuit.old circuit.new (2 * length a.now) }
    ensures ok { IfOk result (λ r. IsWord circuit.new.content (length a.now) r (λ s. subtract (length a.now) (number_under s a.now) (number_under s b.now))) }
{
    let not_b = inverted(alloc, b)?;
    add(alloc, circuit, truth, a, not_b.as_slice(), truth)
}

/// The negation of a word where a flag is true, or else the word: three gates a bit.
#[tactic(auto, using(clause_gates::proofs::Growth::grows_same))]
pub fn negate_if(
    alloc: Global,
    circuit: &mut Circuit,
    truth: Lit,
    flag: Lit,
    a: &[Lit],
) -> Result<Lits, AllocError>
    requires truth { IsTruth circuit.old.content truth }
    requires flag_known { flag.var < circuit.old.content.vars }
    requires a_known { AllBelow circuit.old.content.vars a.now }
    ensures grows { Grows circuit.old circuit.new (3 * length a.now) }
    ensures ok { IfOk result (λ r. IsWord circuit.new.content (length a.now) r (λ s. negate_if (value_under s flag) (length a.now) (number_under s a.now))) }
{
    let zeros = filled(alloc, truth.opposite(), a.len())?;
    let flipped = each(alloc, circuit, truth, Pairing::Flip, flag, a, a)?;
    add(
        alloc,
        circuit,
        truth,
        flipped.as_slice(),
        zeros.as_slice(),
        flag,
    )
}
