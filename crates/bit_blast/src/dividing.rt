//! Quotients and remainders, by restoring division.
//!
//! From the highest bit of the dividend on, what is left is doubled and takes the next bit, and the
//! divisor is taken away where it fits. After k steps there are the quotient and the remainder of the
//! top k bits, and the remainder has k bits: so the divisor can fit only where none of its bits above
//! these is true, and a step needs no wider sum. By 0 each step fits and takes nothing away: the
//! quotient is all ones, and the dividend is left.

ghost use Rattle.std.specs.Prelude.{◌≡◌, ◌<◌, ◌+◌, ◌-◌, ◌*◌, ◌==◌, ◌≤◌, not, nat_le, ℕ, Bool, drop, slice_index_or, length, IfOk, if◌then◌else◌};
ghost use Rattle.clause_logic.specs.declared.Lit.{Lit};
ghost use Rattle.y_tree.specs.BitVectors.{divide, remainder};
ghost use Rattle.clause_gates.specs.Bits.{value_under};
ghost use Rattle.bit_blast.specs.Bits.{number_under, bit};
ghost use Rattle.clause_gates.specs.Circuits.{Grows, Computes, IsTruth, AllBelow};
ghost use Rattle.bit_blast.specs.Circuits.{IsWord};

use crate::adding::{Sum, ripple};
use crate::bitwise::{Pairing, each, inverted, joined};
use clause_gates::Circuit;
use clause_gates::folding::{and_of, or_of};
use clause_logic::Lit;
use clause_logic::lists::Lits;
use std::alloc::{AllocError, Global};

/// For each place of a word, from the highest on, whether a bit above it is true: one gate a bit.
#[tactic(auto, using(clause_gates::proofs::Growth::grows_same))]
fn tops(alloc: Global, circuit: &mut Circuit, truth: Lit, b: &[Lit]) -> Result<Lits, AllocError>
    requires truth { IsTruth circuit.old.content truth }
    requires b_known { AllBelow circuit.old.content.vars b.now }
    ensures grows { Grows circuit.old circuit.new (length b.now) }
    ensures count { IfOk result (λ r. length r ≡ length b.now) }
    ensures ok { IfOk result (λ r. (t : ℕ) (d : Lit) → t < length b.now → Computes circuit.new.content (slice_index_or r t d) (λ s. not (number_under s (drop (length b.now - t) b.now) == 0))) }
{
    let mut some = truth.opposite();
    let mut all = Lits::new(alloc);
    for t in 0..b.len() {
        all.push(some)?;
        let next = or_of(circuit, truth, some, b[b.len() - 1 - t])?;
        some = next;
    }
    Ok(all)
}

/// A bit of a quotient, and what is left.
#[derive(Drop)]
struct Step {
    bit: Lit,
    rest: Lits,
}

/// One step of a division: the next bit of the dividend before what is left, the divisor taken
/// away where it fits. Three gates a bit, and one.
#[tactic(auto, using(clause_gates::proofs::Growth::grows_same))]
fn divide_step(
    alloc: Global,
    circuit: &mut Circuit,
    truth: Lit,
    next: Lit,
    rest: &[Lit],
    b: &[Lit],
    top: Lit,
) -> Result<Step, AllocError>
    requires truth { IsTruth circuit.old.content truth }
    requires next_known { next.var < circuit.old.content.vars }
    requires rest_known { AllBelow circuit.old.content.vars rest.now }
    requires b_known { AllBelow circuit.old.content.vars b.now }
    requires narrow { length rest.now < length b.now }
    requires top { Computes circuit.old.content top (λ s. not (number_under s (drop (length rest.now + 1) b.now) == 0)) }
    ensures grows { Grows circuit.old circuit.new (3 * length rest.now + 4) }
    ensures bit { IfOk result (λ r. Computes circuit.new.content r.bit (λ s. nat_le (number_under s b.now) (bit (value_under s next) + 2 * number_under s rest.now))) }
    ensures rest { IfOk result (λ r. IsWord circuit.new.content (length rest.now + 1) r.rest (λ s. if nat_le (number_under s b.now) (bit (value_under s next) + 2 * number_under s rest.now) then bit (value_under s next) + 2 * number_under s rest.now - number_under s b.now else bit (value_under s next) + 2 * number_under s rest.now)) }
{
    let longer = joined(alloc, next, rest)?;
    let word = longer.as_slice();
    let not_b = inverted(alloc, &b[..rest.len() + 1])?;
    let Sum { bits, carry } = ripple(alloc, circuit, truth, word, not_b.as_slice(), truth)?;
    let not_top = top.opposite();
    let fits = and_of(circuit, truth, carry, not_top)?;
    let left = each(
        alloc,
        circuit,
        truth,
        Pairing::Choose,
        fits,
        bits.as_slice(),
        word,
    )?;
    Ok(Step {
        bit: fits,
        rest: left,
    })
}

/// A quotient and a remainder.
#[derive(Drop)]
pub struct Division {
    /// The quotient, rounded down.
    pub quotient: Lits,
    /// What is left.
    pub remainder: Lits,
}

/// The quotient and the remainder of two words, bit by bit from the highest on: for n bits less
/// than 3 * n * (n + 3) / 2 gates. By 0 the quotient is all ones, and the remainder the dividend.
#[tactic(auto, using(clause_gates::proofs::Growth::grows_same))]
pub fn divide(
    alloc: Global,
    circuit: &mut Circuit,
    truth: Lit,
    a: &[Lit],
    b: &[Lit],
) -> Result<Division, AllocError>
    requires truth { IsTruth circuit.old.content truth }
    requires a_known { AllBelow circuit.old.content.vars a.now }
    requires b_known { AllBelow circuit.old.content.vars b.now }
    requires same { length a.now ≡ length b.now }
    ensures grows { Grows circuit.old circuit.new (length a.now + length a.now * (3 * length a.now + 1)) }
    ensures quotient { IfOk result (λ r. IsWord circuit.new.content (length a.now) r.quotient (λ s. divide (length a.now) (number_under s a.now) (number_under s b.now))) }
    ensures remainder { IfOk result (λ r. IsWord circuit.new.content (length a.now) r.remainder (λ s. remainder (number_under s a.now) (number_under s b.now))) }
{
    let tops = tops(alloc, circuit, truth, b)?;
    let tops = tops.as_slice();
    let mut quotient = Lits::new(alloc);
    let mut rest = Lits::new(alloc);
    for k in 0..a.len() {
        let place = a.len() - 1 - k;
        let step = divide_step(
            alloc,
            circuit,
            truth,
            a[place],
            rest.as_slice(),
            b,
            tops[place],
        )?;
        let Step { bit, rest: left } = step;
        let longer = joined(alloc, bit, quotient.as_slice())?;
        quotient = longer;
        rest = left;
    }
    Ok(Division {
        quotient,
        remainder: rest,
    })
}
