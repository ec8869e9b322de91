//! Shifts by a word.
//!
//! Each low bit of the amount moves the word by its own place's number of places, or not: a stage of
//! choices for each bit that amounts below the width need. Any higher bit moves all bits out. A shift
//! that fills with a literal is one that fills with 0, of the word with each bit inverted where that
//! literal is true, inverted back.

ghost use Rattle.std.specs.Prelude.{◌≡◌, ◌<◌, ◌+◌, ◌*◌, ◌^◌, ◌≤◌, ℕ, Bool, length, IfOk};
ghost use Rattle.clause_gates.specs.Bits.{value_under};
ghost use Rattle.bit_blast.specs.Bits.{number_under};
ghost use Rattle.clause_gates.specs.Circuits.{Satisfies, Grows, IsTruth, AllBelow};
ghost use Rattle.bit_blast.specs.Circuits.{IsWord};
ghost use Rattle.bit_blast.specs.Shifts.{moved, shift_plain, shift_filled, flipped_number};

use crate::bitwise::{Pairing, each, filled};
use crate::comparing::nonzero;
use clause_gates::Circuit;
use clause_logic::Lit;
use clause_logic::lists::Lits;
use std::alloc::{AllocError, Global};

/// Where the bits go.
#[derive(Clone, Copy)]
pub enum Way {
    /// To the high bits.
    Up,
    /// To the low bits.
    Down,
}

/// The bits moved by a number of places, the places left filled.
fn moved(alloc: Global, way: Way, fill: Lit, k: usize, a: &[Lit]) -> Result<Lits, AllocError>
    requires { k ≤ length a.now }
    ensures { IfOk result (λ r. r ≡ moved way fill k a.now) }
{
    let mut bits = filled(alloc, fill, k)?.into_vec();
    match way {
        Way::Up => {
            bits.extend_from_slice(&a[..a.len() - k])?;
            Ok(Lits::from_vec(bits))
        }
        Way::Down => {
            let mut low = Vec::from_slice(alloc, &a[k..])?;
            low.extend_from_slice(&bits)?;
            Ok(Lits::from_vec(low))
        }
    }
}

/// How many bits of an amount tell all shifts of a word of n bits apart.
fn stage_count(n: usize) -> usize
    requires { n ≤ 128 }
    ensures enough { n ≤ 2 ^ result }
    ensures few { result ≤ 7 }
    ensures within { result ≤ n }
    ensures needed { (j : ℕ) → j < result → 2 ^ j < n }
{
    for m in 0..7 {
        if n <= 1 << m {
            return m;
        }
    }
    7
}

/// A shift by the number of a few bits, one stage a bit: for each stage one gate a bit.
#[tactic(auto, using(clause_gates::proofs::Growth::grows_same))]
fn shift_near(
    alloc: Global,
    circuit: &mut Circuit,
    truth: Lit,
    way: Way,
    fill: Lit,
    a: &[Lit],
    b: &[Lit],
) -> Result<Lits, AllocError>
    requires truth { IsTruth circuit.old.content truth }
    requires fill_known { fill.var < circuit.old.content.vars }
    requires a_known { AllBelow circuit.old.content.vars a.now }
    requires b_known { AllBelow circuit.old.content.vars b.now }
    requires few { length b.now ≤ 7 }
    requires needed { (j : ℕ) → j < length b.now → 2 ^ j < length a.now }
    ensures grows { Grows circuit.old circuit.new (length b.now * length a.now) }
    ensures count { IfOk result (λ r. length r ≡ length a.now) }
    ensures known { IfOk result (λ r. AllBelow circuit.new.content.vars r) }
    ensures ok { IfOk result (λ r. (s : ℕ → Bool) → Satisfies s circuit.new.content → flipped_number s fill r ≡ shift_plain way (length a.now) (flipped_number s fill a.now) (number_under s b.now)) }
{
    let mut word = Lits::from_vec(Vec::from_slice(alloc, a)?);
    for j in 0..b.len() {
        let shifted = moved(alloc, way, fill, 1 << j, word.as_slice())?;
        let next = each(
            alloc,
            circuit,
            truth,
            Pairing::Choose,
            b[j],
            shifted.as_slice(),
            word.as_slice(),
        )?;
        word = next;
    }
    Ok(word)
}

/// A shift by a word, the places left filled with a literal: for n bits about n * log n gates.
#[tactic(auto, using(clause_gates::proofs::Growth::grows_same))]
pub fn shift(
    alloc: Global,
    circuit: &mut Circuit,
    truth: Lit,
    way: Way,
    fill: Lit,
    a: &[Lit],
    b: &[Lit],
) -> Result<Lits, AllocError>
    requires truth { IsTruth circuit.old.content truth }
    requires fill_known { fill.var < circuit.old.content.vars }
    requires a_known { AllBelow circuit.old.content.vars a.now }
    requires b_known { AllBelow circuit.old.content.vars b.now }
    requires same { length a.now ≡ length b.now }
    requires narrow { length a.now ≤ 128 }
    ensures grows { Grows circuit.old circuit.new (9 * length a.now) }
    ensures ok { IfOk result (λ r. IsWord circuit.new.content (length a.now) r (λ s. shift_filled way (value_under s fill) (length a.now) (number_under s a.now) (number_under s b.now))) }
{
    let low = stage_count(b.len());
    let near = shift_near(alloc, circuit, truth, way, fill, a, &b[..low])?;
    let far = nonzero(circuit, truth, &b[low..])?;
    let gone = filled(alloc, fill, a.len())?;
    each(
        alloc,
        circuit,
        truth,
        Pairing::Choose,
        far,
        gone.as_slice(),
        near.as_slice(),
    )
}
