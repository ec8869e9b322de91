//! The signs and sizes of words in two's complement.
ghost use Rattle.std.specs.Prelude.{◌≡◌};
ghost use Rattle.y_tree.specs.BitVectors.{differ, is_negative, magnitude};

use crate::modular::negate_if;
use crate::words::{Word, sign_bit};

/// Whether the number is negative in two's complement.
pub(crate) fn is_negative(word: Word) -> bool
    ensures { result ≡ is_negative word.width word.bits }
{
    sign_bit(word.width) <= word.bits
}

/// The size of the number in two's complement.
pub(crate) fn magnitude(word: Word) -> Word
    ensures width { result.width ≡ word.width }
    ensures bits { result.bits ≡ magnitude word.width word.bits }
{
    negate_if(is_negative(word), word)
}

/// Whether exactly one of the two is true.
pub(crate) fn differ(left: bool, right: bool) -> bool
    ensures { result ≡ differ left right }
{
    if left { !right } else { right }
}
