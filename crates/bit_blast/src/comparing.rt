//! Comparisons of words.
//!
//! The last carry of a difference is true where nothing had to be borrowed, so where the first number
//! is at least the second. In two's complement a number is in the order of its word with the sign bit
//! inverted.

ghost use Rattle.std.specs.Prelude.{◌≡◌, ◌<◌, ◌+◌, ◌-◌, ◌*◌, ◌==◌, ◌++◌, ◌∷◌, [], ◌≤◌, not, nat_le, take, slice_index_or, ℕ, Bool, length, IfOk};
ghost use Rattle.clause_logic.specs.declared.Lit.{Lit};
ghost use Rattle.clause_logic.specs.Clauses.{opposite};
ghost use Rattle.y_tree.specs.BitVectors.{signed_at_least};
ghost use Rattle.clause_gates.specs.Bits.{value_under};
ghost use Rattle.bit_blast.specs.Bits.{number_under};
ghost use Rattle.clause_gates.specs.Circuits.{Grows, Computes, IsTruth, AllBelow};

use clause_gates::Circuit;
use clause_gates::folding::{and_of, carry_of, or_of, xor_of};
use clause_logic::Lit;
use clause_logic::lists::Lits;
use std::alloc::{AllocError, Global};

/// Whether the first number is at least the second: the last carry of their difference, one gate
/// a bit.
#[tactic(auto, using(clause_gates::proofs::Growth::grows_same))]
pub fn at_least(circuit: &mut Circuit, truth: Lit, a: &[Lit], b: &[Lit]) -> Result<Lit, AllocError>
    requires truth { IsTruth circuit.old.content truth }
    requires a_known { AllBelow circuit.old.content.vars a.now }
    requires b_known { AllBelow circuit.old.content.vars b.now }
    requires same { length a.now ≡ length b.now }
    ensures grows { Grows circuit.old circuit.new (length a.now) }
    ensures ok { IfOk result (λ g. Computes circuit.new.content g (λ s. nat_le (number_under s b.now) (number_under s a.now))) }
{
    let mut carry = truth;
    for i in 0..a.len() {
        let not_y = b[i].opposite();
        let next = carry_of(circuit, truth, a[i], not_y, carry)?;
        carry = next;
    }
    Ok(carry)
}

/// Whether two numbers are equal: two gates a bit.
#[tactic(auto, using(clause_gates::proofs::Growth::grows_same))]
pub fn equal(circuit: &mut Circuit, truth: Lit, a: &[Lit], b: &[Lit]) -> Result<Lit, AllocError>
    requires truth { IsTruth circuit.old.content truth }
    requires a_known { AllBelow circuit.old.content.vars a.now }
    requires b_known { AllBelow circuit.old.content.vars b.now }
    requires same { length a.now ≡ length b.now }
    ensures grows { Grows circuit.old circuit.new (2 * length a.now) }
    ensures ok { IfOk result (λ g. Computes circuit.new.content g (λ s. number_under s a.now == number_under s b.now)) }
{
    let mut all = truth;
    for i in 0..a.len() {
        let differ = xor_of(circuit, truth, a[i], b[i])?;
        let next = and_of(circuit, truth, all, differ.opposite())?;
        all = next;
    }
    Ok(all)
}

/// Whether a number is not 0: one gate a bit.
#[tactic(auto, using(clause_gates::proofs::Growth::grows_same))]
pub fn nonzero(circuit: &mut Circuit, truth: Lit, a: &[Lit]) -> Result<Lit, AllocError>
    requires truth { IsTruth circuit.old.content truth }
    requires a_known { AllBelow circuit.old.content.vars a.now }
    ensures grows { Grows circuit.old circuit.new (length a.now) }
    ensures ok { IfOk result (λ g. Computes circuit.new.content g (λ s. not (number_under s a.now == 0))) }
{
    let mut some = truth.opposite();
    for i in 0..a.len() {
        let next = or_of(circuit, truth, some, a[i])?;
        some = next;
    }
    Ok(some)
}

/// The word with its highest bit inverted, which takes no gate.
fn sign_flipped(alloc: Global, a: &[Lit]) -> Result<Lits, AllocError>
    requires { 0 < length a.now }
    ensures { IfOk result (λ r. (d : Lit) → r ≡ take (length a.now - 1) a.now ++ opposite (slice_index_or a.now (length a.now - 1) d) ∷ []) }
{
    let last = a.len() - 1;
    let mut bits = Vec::from_slice(alloc, &a[..last])?;
    bits.push(a[last].opposite())?;
    Ok(Lits::from_vec(bits))
}

/// Whether the first number is at least the second in two's complement: one gate a bit.
#[tactic(auto, using(clause_gates::proofs::Growth::grows_same))]
pub fn signed_at_least(
    alloc: Global,
    circuit: &mut Circuit,
    truth: Lit,
    a: &[Lit],
    b: &[Lit],
) -> Result<Lit, AllocError>
    requires truth { IsTruth circuit.old.content truth }
    requires a_known { AllBelow circuit.old.content.vars a.now }
    requires b_known { AllBelow circuit.old.content.vars b.now }
    requires same { length a.now ≡ length b.now }
    requires some { 0 < length a.now }
    ensures grows { Grows circuit.old circuit.new (length a.now) }
    ensures ok { IfOk result (λ g. Computes circuit.new.content g (λ s. signed_at_least (length a.now) (number_under s a.now) (number_under s b.now))) }
{
    let x = sign_flipped(alloc, a)?;
    let y = sign_flipped(alloc, b)?;
    at_least(circuit, truth, x.as_slice(), y.as_slice())
}
