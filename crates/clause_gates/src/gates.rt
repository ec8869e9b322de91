//! Gates of two and three literals: a new literal, or one that is there, with the value of the
//! gate.
//!
//! The clauses of a conjunction, an exclusive or and a choice are among those of the circuit (or
//! say nothing, where a gate needs no variable), so unit propagation over the circuit does at least
//! what it does over the defining clauses of these operators.

ghost use Rattle.std.specs.Prelude.{◌≡◌, ◌<◌, ◌&&◌, ℕ, Bool, IfOk, if◌then◌else◌};
ghost use Rattle.y_tree.specs.BitVectors.{differ};
ghost use Rattle.clause_gates.specs.Bits.{value_under, majority};
ghost use Rattle.clause_gates.specs.Circuits.{Grows, Computes};
ghost use Rattle.clause_gates.specs.Defining.{Covers, and_clauses, xor_clauses, ite_clauses};

use crate::circuit::Circuit;
use crate::defining::Gate;
use clause_logic::{Lit, same};
use std::alloc::AllocError;

/// The conjunction of two literals: at most one new variable, with three clauses. Where memory is
/// refused, the variable and some of its clauses may be there.
#[tactic(auto, using(crate::proofs::Growth::grows_same))]
pub fn and2(circuit: &mut Circuit, a: Lit, b: Lit) -> Result<Lit, AllocError>
    requires a_known { a.var < circuit.old.content.vars }
    requires b_known { b.var < circuit.old.content.vars }
    ensures grows { Grows circuit.old circuit.new 1 }
    ensures clauses { IfOk result (λ g. Covers circuit.new.content.clauses (and_clauses g a b)) }
    ensures ok { IfOk result (λ g. Computes circuit.new.content g (λ s. value_under s a && value_under s b)) }
{
    if same(a, b) {
        return Ok(a);
    }
    circuit.define(Gate::And(a, b))
}

/// Whether just one of two literals is true: one new variable, with four clauses. Where memory is
/// refused, the variable and some of its clauses may be there.
pub fn xor2(circuit: &mut Circuit, a: Lit, b: Lit) -> Result<Lit, AllocError>
    requires a_known { a.var < circuit.old.content.vars }
    requires b_known { b.var < circuit.old.content.vars }
    ensures grows { Grows circuit.old circuit.new 1 }
    ensures clauses { IfOk result (λ g. Covers circuit.new.content.clauses (xor_clauses g a b)) }
    ensures ok { IfOk result (λ g. Computes circuit.new.content g (λ s. differ (value_under s a) (value_under s b))) }
{
    circuit.define(Gate::Xor(a, b))
}

/// The second literal where the first is true, or else the third: at most one new variable, with
/// four clauses, and two more that let equal branches decide it. Where memory is refused, the
/// variable and some of its clauses may be there.
#[tactic(auto, using(crate::proofs::Growth::grows_same))]
pub fn mux(circuit: &mut Circuit, c: Lit, a: Lit, b: Lit) -> Result<Lit, AllocError>
    requires c_known { c.var < circuit.old.content.vars }
    requires a_known { a.var < circuit.old.content.vars }
    requires b_known { b.var < circuit.old.content.vars }
    ensures grows { Grows circuit.old circuit.new 1 }
    ensures clauses { IfOk result (λ g. Covers circuit.new.content.clauses (ite_clauses g c a b)) }
    ensures ok { IfOk result (λ g. Computes circuit.new.content g (λ s. if value_under s c then value_under s a else value_under s b)) }
{
    if same(a, b) {
        return Ok(a);
    }
    circuit.define(Gate::Choice(c, a, b))
}

/// Whether an odd number of three literals is true: at most one new variable, with eight clauses. Two
/// operands that are equal or opposite take none.
#[tactic(auto, using(crate::proofs::Growth::grows_same))]
pub fn parity3(circuit: &mut Circuit, a: Lit, b: Lit, c: Lit) -> Result<Lit, AllocError>
    requires a_known { a.var < circuit.old.content.vars }
    requires b_known { b.var < circuit.old.content.vars }
    requires c_known { c.var < circuit.old.content.vars }
    ensures grows { Grows circuit.old circuit.new 1 }
    ensures ok { IfOk result (λ g. Computes circuit.new.content g (λ s. differ (differ (value_under s a) (value_under s b)) (value_under s c))) }
{
    let not_a = a.opposite();
    let not_b = b.opposite();
    let not_c = c.opposite();
    if same(a, b) {
        return Ok(c);
    }
    if same(a, not_b) {
        return Ok(not_c);
    }
    if same(a, c) {
        return Ok(b);
    }
    if same(a, not_c) {
        return Ok(not_b);
    }
    if same(b, c) {
        return Ok(a);
    }
    if same(b, not_c) {
        return Ok(not_a);
    }
    circuit.define(Gate::Parity(a, b, c))
}

/// Whether at least two of three literals are true: at most one new variable, with six clauses. Two
/// operands that are equal or opposite take none.
#[tactic(auto, using(crate::proofs::Growth::grows_same))]
pub fn majority3(circuit: &mut Circuit, a: Lit, b: Lit, c: Lit) -> Result<Lit, AllocError>
    requires a_known { a.var < circuit.old.content.vars }
    requires b_known { b.var < circuit.old.content.vars }
    requires c_known { c.var < circuit.old.content.vars }
    ensures grows { Grows circuit.old circuit.new 1 }
    ensures ok { IfOk result (λ g. Computes circuit.new.content g (λ s. majority (value_under s a) (value_under s b) (value_under s c))) }
{
    let not_b = b.opposite();
    let not_c = c.opposite();
    if same(a, b) || same(a, c) {
        return Ok(a);
    }
    if same(b, c) {
        return Ok(b);
    }
    if same(a, not_b) {
        return Ok(c);
    }
    if same(a, not_c) {
        return Ok(b);
    }
    if same(b, not_c) {
        return Ok(a);
    }
    circuit.define(Gate::Majority(a, b, c))
}
