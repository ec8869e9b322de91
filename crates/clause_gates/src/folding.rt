//! Gates beside a literal that is always true: a gate with a constant operand takes fewer clauses,
//! or no variable.
//!
//! A constant is that literal or its opposite, so a test for one compares two literals. With a
//! constant operand each gate is the other operand, its opposite, a constant, or a gate of one operand
//! less. Equal and opposite operands are treated in the same way.

ghost use Rattle.std.specs.Prelude.{◌≡◌, ◌<◌, ◌&&◌, ◌||◌, ◌∷◌, [], ℕ, Bool, true, IfOk, if◌then◌else◌};
ghost use Rattle.y_tree.specs.BitVectors.{differ};
ghost use Rattle.clause_gates.specs.Bits.{value_under, majority};
ghost use Rattle.clause_gates.specs.Circuits.{Grows, Computes, IsTruth};

use crate::circuit::Circuit;
use crate::defining::Gate;
use crate::gates::{and2, majority3, mux, parity3, xor2};
use clause_logic::{Lit, same};
use std::alloc::AllocError;

/// A literal that is always true: one new variable, with one clause.
pub fn truth(circuit: &mut Circuit) -> Result<Lit, AllocError>
    ensures grows { Grows circuit.old circuit.new 1 }
    ensures ok { IfOk result (λ t. IsTruth circuit.new.content t) }
{
    circuit.define(Gate::Truth)
}

/// The conjunction of two literals: at most one new variable.
#[tactic(auto, using(crate::proofs::Growth::grows_same))]
pub fn and_of(circuit: &mut Circuit, truth: Lit, a: Lit, b: Lit) -> Result<Lit, AllocError>
    requires truth { IsTruth circuit.old.content truth }
    requires a_known { a.var < circuit.old.content.vars }
    requires b_known { b.var < circuit.old.content.vars }
    ensures grows { Grows circuit.old circuit.new 1 }
    ensures ok { IfOk result (λ g. Computes circuit.new.content g (λ s. value_under s a && value_under s b)) }
{
    let falsehood = truth.opposite();
    let not_b = b.opposite();
    if same(a, truth) || same(b, falsehood) {
        return Ok(b);
    }
    if same(b, truth) || same(a, falsehood) {
        return Ok(a);
    }
    if same(a, not_b) {
        return Ok(falsehood);
    }
    and2(circuit, a, b)
}

/// The disjunction of two literals: at most one new variable.
pub fn or_of(circuit: &mut Circuit, truth: Lit, a: Lit, b: Lit) -> Result<Lit, AllocError>
    requires truth { IsTruth circuit.old.content truth }
    requires a_known { a.var < circuit.old.content.vars }
    requires b_known { b.var < circuit.old.content.vars }
    ensures grows { Grows circuit.old circuit.new 1 }
    ensures ok { IfOk result (λ g. Computes circuit.new.content g (λ s. value_under s a || value_under s b)) }
{
    let not_a = a.opposite();
    let not_b = b.opposite();
    let none = and_of(circuit, truth, not_a, not_b)?;
    Ok(none.opposite())
}

/// Whether just one of two literals is true: at most one new variable.
#[tactic(auto, using(crate::proofs::Growth::grows_same))]
pub fn xor_of(circuit: &mut Circuit, truth: Lit, a: Lit, b: Lit) -> Result<Lit, AllocError>
    requires truth { IsTruth circuit.old.content truth }
    requires a_known { a.var < circuit.old.content.vars }
    requires b_known { b.var < circuit.old.content.vars }
    ensures grows { Grows circuit.old circuit.new 1 }
    ensures ok { IfOk result (λ g. Computes circuit.new.content g (λ s. differ (value_under s a) (value_under s b))) }
{
    let falsehood = truth.opposite();
    let not_a = a.opposite();
    let not_b = b.opposite();
    if same(a, truth) {
        return Ok(not_b);
    }
    if same(b, truth) {
        return Ok(not_a);
    }
    if same(a, falsehood) {
        return Ok(b);
    }
    if same(b, falsehood) {
        return Ok(a);
    }
    if same(a, b) {
        return Ok(falsehood);
    }
    if same(a, not_b) {
        return Ok(truth);
    }
    xor2(circuit, a, b)
}

/// The second literal where the first is true, or else the third: at most one new variable.
#[tactic(auto, using(crate::proofs::Growth::grows_same))]
pub fn mux_of(circuit: &mut Circuit, truth: Lit, c: Lit, a: Lit, b: Lit) -> Result<Lit, AllocError>
    requires truth { IsTruth circuit.old.content truth }
    requires c_known { c.var < circuit.old.content.vars }
    requires a_known { a.var < circuit.old.content.vars }
    requires b_known { b.var < circuit.old.content.vars }
    ensures grows { Grows circuit.old circuit.new 1 }
    ensures ok { IfOk result (λ g. Computes circuit.new.content g (λ s. if value_under s c then value_under s a else value_under s b)) }
{
    let falsehood = truth.opposite();
    let not_c = c.opposite();
    if same(c, truth) {
        return Ok(a);
    }
    if same(c, falsehood) {
        return Ok(b);
    }
    if same(a, truth) {
        return or_of(circuit, truth, c, b);
    }
    if same(a, falsehood) {
        return and_of(circuit, truth, not_c, b);
    }
    if same(b, truth) {
        return or_of(circuit, truth, not_c, a);
    }
    if same(b, falsehood) {
        return and_of(circuit, truth, c, a);
    }
    mux(circuit, c, a, b)
}

/// Whether an odd number of three literals is true: at most one new variable.
#[tactic(auto, using(crate::proofs::Growth::grows_same))]
pub fn sum_of(circuit: &mut Circuit, truth: Lit, a: Lit, b: Lit, c: Lit) -> Result<Lit, AllocError>
    requires truth { IsTruth circuit.old.content truth }
    requires a_known { a.var < circuit.old.content.vars }
    requires b_known { b.var < circuit.old.content.vars }
    requires c_known { c.var < circuit.old.content.vars }
    ensures grows { Grows circuit.old circuit.new 1 }
    ensures ok { IfOk result (λ g. Computes circuit.new.content g (λ s. differ (differ (value_under s a) (value_under s b)) (value_under s c))) }
{
    let falsehood = truth.opposite();
    let not_b = b.opposite();
    let not_c = c.opposite();
    if same(c, truth) {
        return xor_of(circuit, truth, a, not_b);
    }
    if same(c, falsehood) {
        return xor_of(circuit, truth, a, b);
    }
    if same(b, truth) {
        return xor_of(circuit, truth, a, not_c);
    }
    if same(b, falsehood) {
        return xor_of(circuit, truth, a, c);
    }
    if same(a, truth) {
        return xor_of(circuit, truth, b, not_c);
    }
    if same(a, falsehood) {
        return xor_of(circuit, truth, b, c);
    }
    parity3(circuit, a, b, c)
}

/// Whether at least two of three literals are true: at most one new variable.
#[tactic(auto, using(crate::proofs::Growth::grows_same))]
pub fn carry_of(
    circuit: &mut Circuit,
    truth: Lit,
    a: Lit,
    b: Lit,
    c: Lit,
) -> Result<Lit, AllocError>
    requires truth { IsTruth circuit.old.content truth }
    requires a_known { a.var < circuit.old.content.vars }
    requires b_known { b.var < circuit.old.content.vars }
    requires c_known { c.var < circuit.old.content.vars }
    ensures grows { Grows circuit.old circuit.new 1 }
    ensures ok { IfOk result (λ g. Computes circuit.new.content g (λ s. majority (value_under s a) (value_under s b) (value_under s c))) }
{
    let falsehood = truth.opposite();
    if same(c, truth) {
        return or_of(circuit, truth, a, b);
    }
    if same(c, falsehood) {
        return and_of(circuit, truth, a, b);
    }
    if same(b, truth) {
        return or_of(circuit, truth, a, c);
    }
    if same(b, falsehood) {
        return and_of(circuit, truth, a, c);
    }
    if same(a, truth) {
        return or_of(circuit, truth, b, c);
    }
    if same(a, falsehood) {
        return and_of(circuit, truth, b, c);
    }
    majority3(circuit, a, b, c)
}
