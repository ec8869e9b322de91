//! Operators on bit-vectors.
ghost use Rattle.std.specs.Prelude.{◌≡◌, ◌∷◌, [], IfOk, IsTrue, map};
ghost use Rattle.y_tree.specs.Tree as tree;
ghost use Rattle.y_tree.specs.Order.{is_formed};
ghost use Rattle.y_tree.specs.Plain.{plain_value};
ghost use Rattle.y_tree.specs.Meaning.{bits_of, on_bits, on_bits_at};
ghost use Rattle.bit_arithmetic.specs.Plain.{pair, plain};
ghost use Rattle.model_eval.specs.Known.{found};
ghost use Rattle.model_eval.specs.Words.{IsWord, IsWordOf, AreWords, TakesWords};

use crate::known::{Known, value_at};
use bit_arithmetic::{Outcome, Word, apply, apply_at};
use std::alloc::{AllocError, Global};
use term_table::Term;
use y_tree::{BvAtOp, BvOp, Value};

/// The word of a width and a number.
fn word_of(width: u32, number: u128) -> Word
    requires { IsWordOf width number }
    ensures { pair result ≡ (width, number) }
{
    match Word::new(width, number) {
        Some(word) => word,
        None => unreachable!(),
    }
}

/// The word in a value.
#[tactic(auto, unfolding(y_tree::specs::Plain::plain_value))]
fn word_in(value: &Value) -> Word
    requires { IsWord (plain_value value.now) }
    ensures { pair result ≡ bits_of (plain_value value.now) }
{
    match value {
        Value::Bv { width, bits } => word_of(*width, *bits),
        _ => unreachable!(),
    }
}

/// The word of a term.
#[tactic(auto, unfolding(crate::specs::Known::found))]
fn word_at(known: &Known, t: Term) -> Word
    requires { IsWord (found known.now.entries t) }
    ensures { pair result ≡ bits_of (found known.now.entries t) }
{
    match value_at(known, t) {
        Some(value) => word_in(value),
        None => unreachable!(),
    }
}

/// The words of terms.
///
/// # Errors
///
/// Where memory is refused.
fn words_of(alloc: Global, known: &Known, terms: &[Term]) -> Result<Vec<Word>, AllocError>
    requires { AreWords known.now.entries terms.now }
    ensures { IfOk result (λ words. map pair words.items ≡ map bits_of (map (found known.now.entries) terms.now)) }
{
    let mut words = Vec::new(alloc);
    for term in terms {
        words.push(word_at(known, *term))?;
    }
    Ok(words)
}

/// The value that an operator's outcome is.
#[tactic(auto, unfolding(y_tree::specs::Plain::plain_value))]
fn value_of(outcome: Outcome) -> Value
    ensures { plain_value result ≡ plain outcome }
{
    match outcome {
        Outcome::Bits(word) => Value::Bv {
            width: word.width(),
            bits: word.bits(),
        },
        Outcome::Truth(truth) => Value::Bool(truth),
    }
}

/// The value of an operator on the bit-vectors of terms.
///
/// # Errors
///
/// Where memory is refused. Cost: a list of these bit-vectors.
pub(crate) fn operation(
    alloc: Global,
    known: &Known,
    op: BvOp,
    terms: &[Term],
) -> Result<Value, AllocError>
    requires { TakesWords known.now.entries (tree.bit_vector op) terms.now }
    ensures value { IfOk result (λ v. plain_value v ≡ on_bits op (map bits_of (map (found known.now.entries) terms.now))) }
    ensures formed { IfOk result (λ v. IsTrue (is_formed (plain_value v))) }
{
    let words = words_of(alloc, known, terms)?;
    Ok(value_of(apply(op, words.as_slice())))
}

/// The value of an operator with numbers on the bit-vector of a term.
pub(crate) fn operation_at(known: &Known, op: BvAtOp, i: u32, j: u32, t: Term) -> Value
    requires { TakesWords known.now.entries (tree.bit_vector_at op i j) (t ∷ []) }
    ensures value { plain_value result ≡ on_bits_at op i j (bits_of (found known.now.entries t)) }
    ensures formed { IsTrue (is_formed (plain_value result)) }
{
    value_of(Outcome::Bits(apply_at(op, i, j, word_at(known, t))))
}
