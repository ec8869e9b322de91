//! Products, by rows of conjunctions.
//!
//! From the highest bit of the second word on, the product so far is doubled and the first word added
//! where the bit is true. What is doubled later needs fewer bits, modulo the power of 2 that the word
//! ends at: row k adds the first word's k low bits.

ghost use Rattle.std.specs.Prelude.{◌≡◌, ◌<◌, ◌+◌, ◌*◌, ◌≤◌, ℕ, Bool, length, IfOk};
ghost use Rattle.y_tree.specs.BitVectors.{wrap};
ghost use Rattle.clause_gates.specs.Bits.{value_under};
ghost use Rattle.bit_blast.specs.Bits.{number_under, bit};
ghost use Rattle.clause_gates.specs.Circuits.{Grows, IsTruth, AllBelow};
ghost use Rattle.bit_blast.specs.Circuits.{IsWord};

use crate::adding::add;
use crate::bitwise::{Pairing, each, joined};
use clause_gates::Circuit;
use clause_logic::Lit;
use clause_logic::lists::Lits;
use std::alloc::{AllocError, Global};

/// Twice a word, and another one where a flag is true: three gates a bit.
#[tactic(auto, using(clause_gates::proofs::Growth::grows_same))]
fn add_row(
    alloc: Global,
    circuit: &mut Circuit,
    truth: Lit,
    flag: Lit,
    a: &[Lit],
    high: &[Lit],
) -> Result<Lits, AllocError>
    requires truth { IsTruth circuit.old.content truth }
    requires flag_known { flag.var < circuit.old.content.vars }
    requires a_known { AllBelow circuit.old.content.vars a.now }
    requires high_known { AllBelow circuit.old.content.vars high.now }
    requires longer { length a.now ≡ length high.now + 1 }
    ensures grows { Grows circuit.old circuit.new (3 * length a.now) }
    ensures ok { IfOk result (λ r. IsWord circuit.new.content (length a.now) r (λ s. wrap (length a.now) (bit (value_under s flag) * number_under s a.now + 2 * number_under s high.now))) }
{
    let row = each(alloc, circuit, truth, Pairing::Keep, flag, a, a)?;
    let row = row.as_slice();
    let rest = add(alloc, circuit, truth, &row[1..], high, truth.opposite())?;
    joined(alloc, row[0], rest.as_slice())
}

/// The product of two words, modulo 2 to their length: rows of conjunctions, added from the
/// highest bit of the second word on. For n bits that is less than 3 * n * (n + 1) / 2 gates.
#[tactic(auto, using(clause_gates::proofs::Growth::grows_same))]
pub fn multiply(
    alloc: Global,
    circuit: &mut Circuit,
    truth: Lit,
    a: &[Lit],
    b: &[Lit],
) -> Result<Lits, AllocError>
    requires truth { IsTruth circuit.old.content truth }
    requires a_known { AllBelow circuit.old.content.vars a.now }
    requires b_known { AllBelow circuit.old.content.vars b.now }
    requires same { length a.now ≡ length b.now }
    ensures grows { Grows circuit.old circuit.new (3 * (length a.now * length a.now)) }
    ensures ok { IfOk result (λ r. IsWord circuit.new.content (length a.now) r (λ s. wrap (length a.now) (number_under s a.now * number_under s b.now))) }
{
    let mut product = Lits::new(alloc);
    for k in 0..a.len() {
        let flag = b[a.len() - 1 - k];
        let longer = add_row(alloc, circuit, truth, flag, &a[..k + 1], product.as_slice())?;
        product = longer;
    }
    Ok(product)
}
