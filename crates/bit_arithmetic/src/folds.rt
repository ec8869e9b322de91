//! Operators that take one word or more, all of one width.
ghost use Rattle.std.specs.Prelude.{◌≡◌, map};
ghost use Rattle.y_tree.specs.Meaning.{fold_all};
ghost use Rattle.bit_arithmetic.specs.Plain.{AreOfWidth, combined, pair};

use crate::bitwise::{conjoin, differ_by_bits, disjoin};
use crate::modular::{add, multiply};
use crate::words::Word;

/// What is made of all words together.
#[derive(Clone, Copy, Debug, PartialEq, Eq)]
pub enum Fold {
    /// The sum.
    Sum,
    /// The product.
    Product,
    /// The conjunction bit by bit.
    Conjunction,
    /// The disjunction bit by bit.
    Disjunction,
    /// The exclusive disjunction bit by bit.
    Parity,
}

/// What is made of two words of one width.
fn combine(by: Fold, left: Word, right: Word) -> Word
    requires { left.width ≡ right.width }
    ensures width { result.width ≡ left.width }
    ensures bits { result.bits ≡ combined by left.width left.bits right.bits }
{
    match by {
        Fold::Sum => add(left, right),
        Fold::Product => multiply(left, right),
        Fold::Conjunction => conjoin(left, right),
        Fold::Disjunction => disjoin(left, right),
        Fold::Parity => differ_by_bits(left, right),
    }
}

/// What is made of a first word and the others, all of its width.
pub(crate) fn fold_words(by: Fold, first: Word, rest: &[Word]) -> Word
    requires { AreOfWidth first.width rest.now }
    ensures width { result.width ≡ first.width }
    ensures bits { result.bits ≡ fold_all (combined by first.width) first.bits (map pair rest.now) }
{
    let mut whole = first;
    for word in rest {
        whole = combine(by, whole, *word);
    }
    whole
}
