//! Operators bit by bit.
ghost use Rattle.std.specs.Prelude.{◌≡◌};
ghost use Rattle.std.specs.Int.Bits.{bit_and, bit_or, bit_xor};
ghost use Rattle.y_tree.specs.BitVectors.{complement};

use crate::words::{Word, ones};

/// Each bit inverted.
pub(crate) fn invert(word: Word) -> Word
    ensures width { result.width ≡ word.width }
    ensures bits { result.bits ≡ complement word.width word.bits }
{
    let bits = ones(word.width) - word.bits;
    Word {
        width: word.width,
        bits,
    }
}

/// The conjunction of two words of one width, bit by bit.
pub(crate) fn conjoin(left: Word, right: Word) -> Word
    requires { left.width ≡ right.width }
    ensures width { result.width ≡ left.width }
    ensures bits { result.bits ≡ bit_and left.bits right.bits }
{
    let bits = left.bits & right.bits;
    Word {
        width: left.width,
        bits,
    }
}

/// The disjunction of two words of one width, bit by bit.
pub(crate) fn disjoin(left: Word, right: Word) -> Word
    requires { left.width ≡ right.width }
    ensures width { result.width ≡ left.width }
    ensures bits { result.bits ≡ bit_or left.bits right.bits }
{
    let bits = left.bits | right.bits;
    Word {
        width: left.width,
        bits,
    }
}

/// The exclusive disjunction of two words of one width, bit by bit.
pub(crate) fn differ_by_bits(left: Word, right: Word) -> Word
    requires { left.width ≡ right.width }
    ensures width { result.width ≡ left.width }
    ensures bits { result.bits ≡ bit_xor left.bits right.bits }
{
    let bits = left.bits ^ right.bits;
    Word {
        width: left.width,
        bits,
    }
}
