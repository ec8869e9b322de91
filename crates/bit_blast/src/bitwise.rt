//! Gates on all bits of words, and lists of literals that take no gate.
//!
//! Each place has a gate of its own, so the values of the bits that are made are those of the words'
//! bits, paired from place to place.

ghost use Rattle.std.specs.Prelude.{◌≡◌, ◌<◌, ◌∷◌, ℕ, Bool, map, replicate, length, IfOk};
ghost use Rattle.clause_logic.specs.Clauses.{opposite};
ghost use Rattle.clause_gates.specs.Bits.{value_under};
ghost use Rattle.bit_blast.specs.Bits.{values_under};
ghost use Rattle.bit_blast.specs.Bitwise.{pair_value, pairwise};
ghost use Rattle.clause_gates.specs.Circuits.{Grows, Computes, IsTruth, AllBelow};
ghost use Rattle.bit_blast.specs.Circuits.{IsBits};

use clause_gates::Circuit;
use clause_gates::folding::{and_of, mux_of, or_of, xor_of};
use clause_logic::Lit;
use clause_logic::lists::Lits;
use std::alloc::{AllocError, Global};

/// A gate on a bit of each of two words, beside a flag.
#[derive(Clone, Copy)]
pub enum Pairing {
    /// Both bits.
    And,
    /// Either bit.
    Or,
    /// Just one of the bits.
    Xor,
    /// The first bit where the flag is true, or else the second.
    Choose,
    /// The first bit where the flag is true, or else 0.
    Keep,
    /// The first bit, inverted where the flag is true.
    Flip,
}

/// One gate: at most one new variable.
fn apply(
    circuit: &mut Circuit,
    truth: Lit,
    pairing: Pairing,
    flag: Lit,
    a: Lit,
    b: Lit,
) -> Result<Lit, AllocError>
    requires truth { IsTruth circuit.old.content truth }
    requires flag_known { flag.var < circuit.old.content.vars }
    requires a_known { a.var < circuit.old.content.vars }
    requires b_known { b.var < circuit.old.content.vars }
    ensures grows { Grows circuit.old circuit.new 1 }
    ensures ok { IfOk result (λ g. Computes circuit.new.content g (λ s. pair_value pairing (value_under s flag) (value_under s a) (value_under s b))) }
{
    match pairing {
        Pairing::And => and_of(circuit, truth, a, b),
        Pairing::Or => or_of(circuit, truth, a, b),
        Pairing::Xor => xor_of(circuit, truth, a, b),
        Pairing::Choose => mux_of(circuit, truth, flag, a, b),
        Pairing::Keep => and_of(circuit, truth, flag, a),
        Pairing::Flip => xor_of(circuit, truth, flag, a),
    }
}

/// A gate on all bits of two words of one length: one gate a bit.
#[tactic(auto, using(clause_gates::proofs::Growth::grows_same))]
pub fn each(
    alloc: Global,
    circuit: &mut Circuit,
    truth: Lit,
    pairing: Pairing,
    flag: Lit,
    a: &[Lit],
    b: &[Lit],
) -> Result<Lits, AllocError>
    requires truth { IsTruth circuit.old.content truth }
    requires flag_known { flag.var < circuit.old.content.vars }
    requires a_known { AllBelow circuit.old.content.vars a.now }
    requires b_known { AllBelow circuit.old.content.vars b.now }
    requires same { length a.now ≡ length b.now }
    ensures grows { Grows circuit.old circuit.new (length a.now) }
    ensures ok { IfOk result (λ r. IsBits circuit.new.content (length a.now) r (λ s. pairwise (pair_value pairing (value_under s flag)) (values_under s a.now) (values_under s b.now))) }
{
    let mut bits = Lits::new(alloc);
    for i in 0..a.len() {
        let g = apply(circuit, truth, pairing, flag, a[i], b[i])?;
        bits.push(g)?;
    }
    Ok(bits)
}

/// The opposites of all literals.
pub fn inverted(alloc: Global, a: &[Lit]) -> Result<Lits, AllocError>
    ensures { IfOk result (λ r. r ≡ map opposite a.now) }
{
    let mut bits = Lits::new(alloc);
    for l in a {
        bits.push(l.opposite())?;
    }
    Ok(bits)
}

/// A literal, so many times.
pub fn filled(alloc: Global, l: Lit, n: usize) -> Result<Lits, AllocError>
    ensures { IfOk result (λ r. r ≡ replicate n l) }
{
    let mut bits = Lits::new(alloc);
    for i in 0..n {
        bits.push(l)?;
    }
    Ok(bits)
}

/// A literal before others.
pub fn joined(alloc: Global, first: Lit, rest: &[Lit]) -> Result<Lits, AllocError>
    ensures { IfOk result (λ r. r ≡ first ∷ rest.now) }
{
    let mut bits = Vec::new(alloc);
    bits.push(first)?;
    bits.extend_from_slice(rest)?;
    Ok(Lits::from_vec(bits))
}
