//! Sums, differences, products and negations, modulo 2^width.
ghost use Rattle.std.specs.Prelude.{◌≡◌, ◌+◌, ◌*◌};
ghost use Rattle.y_tree.specs.BitVectors.{wrap, negate, negate_if, subtract};

use crate::words::Word;

/// The sum.
pub(crate) fn add(left: Word, right: Word) -> Word
    ensures width { result.width ≡ left.width }
    ensures bits { result.bits ≡ wrap left.width (left.bits + right.bits) }
{
    Word::wrapped(left.width, left.bits.wrapping_add(right.bits))
}

/// The difference of two words of one width.
pub(crate) fn subtract(left: Word, right: Word) -> Word
    requires { left.width ≡ right.width }
    ensures width { result.width ≡ left.width }
    ensures bits { result.bits ≡ subtract left.width left.bits right.bits }
{
    Word::wrapped(left.width, left.bits.wrapping_sub(right.bits))
}

/// The product.
pub(crate) fn multiply(left: Word, right: Word) -> Word
    ensures width { result.width ≡ left.width }
    ensures bits { result.bits ≡ wrap left.width (left.bits * right.bits) }
{
    Word::wrapped(left.width, left.bits.wrapping_mul(right.bits))
}

/// The negation.
pub(crate) fn negate(word: Word) -> Word
    ensures width { result.width ≡ word.width }
    ensures bits { result.bits ≡ negate word.width word.bits }
{
    Word::wrapped(word.width, 0u128.wrapping_sub(word.bits))
}

/// The negation, where the flag says so.
pub(crate) fn negate_if(flag: bool, word: Word) -> Word
    ensures width { result.width ≡ word.width }
    ensures bits { result.bits ≡ negate_if flag word.width word.bits }
{
    if flag { negate(word) } else { word }
}
