//! Makes circuits, and searches for the factors of a number. It prints how many variables and clauses
//! a product, a quotient and a shift of 8, 16, 32 and 64 bits have, beside the variables that the
//! contract allows. Then for each number of bits that the words name it searches two factors of so
//! many bits, in words of twice the width: of the product of two primes, and of a prime.
#![tactic(auto)]

ghost use Rattle.std.specs.Prelude.{◌≡◌, ◌<◌, ◌≤◌, length};
ghost use Rattle.std.specs.Bool.{OnTrue};
ghost use Rattle.clause_gates.specs.Circuits.{AllBelow};

use anyhow::{Context, Result, bail};
use bit_blast::{BitOp, Circuit, Gate, word};
use clause_logic::Lit;
use clause_logic::lists::Lits;
use clause_search::{Answer, Turns, Unchecked};
use std::alloc::{AllocError, Global};
use std::env;

/// The widths of the circuits that are counted.
const WIDTHS: [usize; 4] = [8, 16, 32, 64];

/// New variables, as a word.
fn fresh(alloc: Global, circuit: &mut Circuit, width: usize) -> Result<Lits, AllocError> {
    let mut bits = Lits::new(alloc);
    for place in 0..width {
        let var = circuit.new_var()?;
        bits.push(Lit {
            var,
            positive: true,
        })?;
    }
    Ok(bits)
}

/// Whether two words may be handed to a circuit.
fn fit(circuit: &Circuit, a: &[Lit], b: &[Lit]) -> bool
    ensures a_known { OnTrue result (AllBelow circuit.now.content.vars a.now) }
    ensures b_known { OnTrue result (AllBelow circuit.now.content.vars b.now) }
    ensures same { OnTrue result (length a.now ≡ length b.now) }
    ensures some { OnTrue result (0 < length a.now) }
    ensures narrow { OnTrue result (length a.now ≤ 128) }
{
    if !circuit.knows(a) {
        return false;
    }
    if !circuit.knows(b) {
        return false;
    }
    a.len() == b.len() && !a.is_empty() && a.len() <= 128
}

/// The bits of an operator of two words, if they fit.
fn bits_of(
    alloc: Global,
    circuit: &mut Circuit,
    op: BitOp,
    a: &[Lit],
    b: &[Lit],
) -> Result<Lits, AllocError> {
    if !fit(circuit, a, b) {
        return Ok(Lits::new(alloc));
    }
    word(alloc, circuit, op, a, b)
}

/// How many clauses a gate has.
fn clauses_of(gate: &Gate) -> usize {
    match gate {
        Gate::Truth => 1,
        Gate::And(_, _) => 3,
        Gate::Xor(_, _) => 4,
        Gate::Parity(_, _, _) => 8,
        Gate::Majority(_, _, _) => 6,
        Gate::Choice(_, _, _) => 6,
    }
}

/// How many clauses all gates have.
fn count(gates: &[Option<Gate>]) -> usize {
    let mut clauses = 0usize;
    for gate in gates {
        if let Some(gate) = gate {
            clauses = clauses.saturating_add(clauses_of(gate));
        }
    }
    clauses
}

/// A circuit of one operator: how many variables it has beside those of the operands, and how many
/// clauses.
fn size(alloc: Global, op: BitOp, width: usize) -> Result<(usize, usize), AllocError> {
    let mut circuit = Circuit::new(alloc);
    let a = fresh(alloc, &mut circuit, width)?;
    let b = fresh(alloc, &mut circuit, width)?;
    let before = circuit.vars();
    bits_of(alloc, &mut circuit, op, a.as_slice(), b.as_slice())?;
    let made = circuit.vars().saturating_sub(before);
    match circuit.gates() {
        Some(gates) => Ok((made, count(gates))),
        None => Ok((made, 0)),
    }
}

/// Adds a clause of one literal, if its variable is there.
fn fix(circuit: &mut Circuit, lit: Lit) -> Result<(), AllocError> {
    if circuit.knows(&[lit]) {
        circuit.add_clause(&[lit])?;
    }
    Ok(())
}

/// Fixes the bits of a word to those of a number.
fn fix_word(circuit: &mut Circuit, bits: &[Lit], number: u64) -> Result<(), AllocError> {
    let mut left = number;
    for bit in bits {
        fix(
            circuit,
            Lit {
                var: bit.var,
                positive: bit.positive == (left % 2 == 1),
            },
        )?;
        left = left / 2;
    }
    Ok(())
}

/// Fixes the high half of a word to zeros.
fn fix_high(circuit: &mut Circuit, bits: &[Lit]) -> Result<(), AllocError> {
    for place in bits.len() / 2..bits.len() {
        fix(circuit, bits[place].opposite())?;
    }
    Ok(())
}

/// The number that literals stand for under values; literals without a value are taken as false.
fn read(values: &[Option<bool>], bits: &[Lit]) -> u64 {
    let mut number = 0u64;
    let mut place = 1u64;
    for bit in bits {
        if let Some(Some(value)) = values.get(bit.var) {
            if *value == bit.positive {
                number = number.wrapping_add(place);
            }
        }
        place = place.wrapping_mul(2);
    }
    number
}

/// What a search for two factors finds.
enum Found {
    /// The factors.
    Factors(u64, u64),
    /// There are none.
    Nothing,
    /// Memory was refused.
    NoMemory,
}

/// Searches two factors of so many bits each.
fn factored(alloc: Global, bits: usize, number: u64) -> Result<Found, AllocError> {
    let width = bits.saturating_mul(2);
    let mut circuit = Circuit::new(alloc);
    let a = fresh(alloc, &mut circuit, width)?;
    let b = fresh(alloc, &mut circuit, width)?;
    fix_high(&mut circuit, a.as_slice())?;
    fix_high(&mut circuit, b.as_slice())?;
    let product = bits_of(alloc, &mut circuit, BitOp::Mul, a.as_slice(), b.as_slice())?;
    fix_word(&mut circuit, product.as_slice(), number)?;
    let mut checker = Unchecked::new();
    match circuit.solve(&[], Turns::Whole, &mut checker) {
        Answer::Sat(values) => {
            let values = values.as_slice();
            Ok(Found::Factors(read(values, a.as_slice()), read(values, b.as_slice())))
        }
        Answer::Unsat(_) => Ok(Found::Nothing),
        _ => Ok(Found::NoMemory),
    }
}

/// The product of two primes of about 0.7 and 0.75 times the power of 2 of so many bits, and the
/// greatest prime below it.
fn numbers(bits: usize) -> Option<(u64, u64)> {
    match bits {
        6 => Some((2_021, 2_017)),
        8 => Some((33_043, 33_037)),
        10 => Some((539_549, 539_533)),
        12 => Some((8_774_687, 8_774_683)),
        14 => Some((140_826_227, 140_826_223)),
        _ => None,
    }
}

/// Prints what a search for two factors finds.
fn search(rt: &HostRuntime, bits: usize, number: u64) -> Result<()> {
    match factored(rt.alloc(), bits, number)? {
        Found::Factors(a, b) => println!(rt; "{bits} bits: {number} = {a} * {b}")?,
        Found::Nothing => println!(rt; "{bits} bits: {number} has no factors")?,
        Found::NoMemory => bail!("no memory"),
    }
    Ok(())
}

fn main(rt: HostRuntime) -> Result<()> {
    let alloc = rt.alloc();
    for width in WIDTHS {
        let allowed = 48 * (width + 1) * (width + 1);
        let (product, product_clauses) = size(alloc, BitOp::Mul, width)?;
        println!(rt; "mul {width}: {product} of {allowed} variables, {product_clauses} clauses")?;
        let (quotient, quotient_clauses) = size(alloc, BitOp::Div, width)?;
        println!(rt; "div {width}: {quotient} of {allowed} variables, {quotient_clauses} clauses")?;
        let (shifted, shift_clauses) = size(alloc, BitOp::Shl, width)?;
        println!(rt; "shl {width}: {shifted} of {allowed} variables, {shift_clauses} clauses")?;
    }
    let words = env::args(&rt)?.collect::<Vec<String>>(alloc)?;
    for k in 1..words.len() {
        let bits = words[k].parse::<usize>().context("the number of bits")?;
        match numbers(bits) {
            Some((composite, prime)) => {
                search(&rt, bits, composite)?;
                search(&rt, bits, prime)?;
            }
            None => bail!("the numbers of bits are 6, 8, 10, 12 and 14"),
        }
    }
    Ok(())
}
