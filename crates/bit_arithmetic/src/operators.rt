//! The operators of the language over words.
ghost use Rattle.std.specs.Prelude.{◌≡◌, true, None, [], ◌∷◌, map};
ghost use Rattle.y_tree.specs.Sorts.{bit_vector};
ghost use Rattle.y_tree.specs.Tree as tree;
ghost use Rattle.y_tree.specs.Values.{truth};
ghost use Rattle.y_tree.specs.Typing.{form_of, test};
ghost use Rattle.y_tree.specs.Misfits.{misfit_of};
ghost use Rattle.y_tree.specs.Meaning.{bits_pair, on_bits, on_bits_at, on_two};
ghost use Rattle.bit_arithmetic.specs.Plain.{pair, plain, takes_two, type_of};

use crate::bitwise::invert;
use crate::division::{divide, remainder, signed_divide, signed_modulo, signed_remainder};
use crate::folds::{Fold, fold_words};
use crate::joins::{extract, join, sign_extend, zero_extend};
use crate::modular::{negate, subtract};
use crate::orders::signed_at_least;
use crate::shifts::{shift_left, shift_right, shift_right_signed};
use crate::words::{Outcome, Word};
use y_tree::{BvAtOp, BvOp};

/// The operator over the words: as many, of such widths, as it takes.
///
/// Takes no memory, and a number of steps linear in the number of words. Source: SMT-LIB 2, theory FixedSizeBitVectors
/// and logic QF_BV, where the division of a by 0 has all bits 1 and the remainder is a.
pub fn apply(op: BvOp, words: &[Word]) -> Outcome
    requires { misfit_of (tree.bit_vector op) (map type_of words.now) ≡ None }
    ensures { plain result ≡ on_bits op (map pair words.now) }
{
    let first = words[0];
    let rest = &words[1..];
    match op {
        BvOp::Add => Outcome::Bits(fold_words(Fold::Sum, first, rest)),
        BvOp::Mul => Outcome::Bits(fold_words(Fold::Product, first, rest)),
        BvOp::And => Outcome::Bits(fold_words(Fold::Conjunction, first, rest)),
        BvOp::Or => Outcome::Bits(fold_words(Fold::Disjunction, first, rest)),
        BvOp::Xor => Outcome::Bits(fold_words(Fold::Parity, first, rest)),
        BvOp::Concat => Outcome::Bits(join(first, rest)),
        BvOp::Neg => Outcome::Bits(negate(first)),
        BvOp::Not => Outcome::Bits(invert(first)),
        _ => on_two(op, first, words[1]),
    }
}

/// An operator that takes two words, over two of one width.
fn on_two(op: BvOp, left: Word, right: Word) -> Outcome
    requires two { takes_two (form_of op) ≡ true }
    requires same { left.width ≡ right.width }
    ensures { plain result ≡ on_two op left.width left.bits right.bits }
{
    match op {
        BvOp::Sub => Outcome::Bits(subtract(left, right)),
        BvOp::Div => Outcome::Bits(divide(left, right)),
        BvOp::Rem => Outcome::Bits(remainder(left, right)),
        BvOp::Sdiv => Outcome::Bits(signed_divide(left, right)),
        BvOp::Srem => Outcome::Bits(signed_remainder(left, right)),
        BvOp::Smod => Outcome::Bits(signed_modulo(left, right)),
        BvOp::Shl => Outcome::Bits(shift_left(left, right.bits)),
        BvOp::Lshr => Outcome::Bits(shift_right(left, right.bits)),
        BvOp::Ashr => Outcome::Bits(shift_right_signed(left, right.bits)),
        _ => Outcome::Truth(holds(op, left, right)),
    }
}

/// Whether an order of two words of one width holds.
fn holds(op: BvOp, left: Word, right: Word) -> bool
    requires order { form_of op ≡ test }
    requires same { left.width ≡ right.width }
    ensures { truth result ≡ on_two op left.width left.bits right.bits }
{
    match op {
        BvOp::Ge => left.bits >= right.bits,
        BvOp::Gt => left.bits > right.bits,
        BvOp::Le => left.bits <= right.bits,
        BvOp::Lt => left.bits < right.bits,
        BvOp::Sge => signed_at_least(left, right),
        BvOp::Sgt => !signed_at_least(right, left),
        BvOp::Sle => signed_at_least(right, left),
        BvOp::Slt => !signed_at_least(left, right),
        _ => unreachable!(),
    }
}

/// The operator with its numbers over the word, whose width they go with.
///
/// Takes no memory, and a constant number of steps. Source: SMT-LIB 2, theory FixedSizeBitVectors and logic QF_BV.
pub fn apply_at(op: BvAtOp, i: u32, j: u32, word: Word) -> Word
    requires { misfit_of (tree.bit_vector_at op i j) (bit_vector word.width ∷ []) ≡ None }
    ensures { bits_pair (pair result) ≡ on_bits_at op i j (pair word) }
{
    match op {
        BvAtOp::ShiftLeft0 => shift_left(word, i as u128),
        BvAtOp::ShiftRight0 => shift_right(word, i as u128),
        BvAtOp::Extract => extract(i, j, word),
        BvAtOp::SignExtend => sign_extend(i, word),
        BvAtOp::ZeroExtend => zero_extend(i, word),
    }
}
