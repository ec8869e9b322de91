//! Orders of words.
ghost use Rattle.std.specs.Prelude.{◌≡◌, ◌+◌, ◌-◌, ◌^◌};
ghost use Rattle.y_tree.specs.BitVectors.{signed_at_least, wrap};

use crate::words::{Word, sign_bit};

/// Whether the first of two words of one width is at least the second, in two's complement.
pub(crate) fn signed_at_least(left: Word, right: Word) -> bool
    requires { left.width ≡ right.width }
    ensures { result ≡ signed_at_least left.width left.bits right.bits }
{
    let least = from_lowest(right);
    let other = from_lowest(left);
    least.bits <= other.bits
}

/// How far the number is above the lowest one in two's complement.
fn from_lowest(word: Word) -> Word
    ensures { result.bits ≡ wrap word.width (word.bits + 2 ^ (word.width - 1)) }
{
    Word::wrapped(word.width, word.bits.wrapping_add(sign_bit(word.width)))
}
