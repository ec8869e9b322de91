//! Bits side by side: concatenations, extensions, and parts of words.
ghost use Rattle.std.specs.Prelude.{◌≡◌, ◌+◌, ◌-◌, ◌<◌, ◌≤◌, map};
ghost use Rattle.y_tree.specs.BitVectors.{concatenate, extract, sign_extend};
ghost use Rattle.y_tree.specs.Meaning.{join_all};
ghost use Rattle.bit_arithmetic.specs.Plain.{all_widths, pair};

use crate::bitwise::invert;
use crate::signs::is_negative;
use crate::words::Word;

/// The first word's bits before the second's.
pub(crate) fn concatenate(high: Word, low: Word) -> Word
    requires { high.width + low.width ≤ 128 }
    ensures width { result.width ≡ high.width + low.width }
    ensures bits { result.bits ≡ concatenate low.width high.bits low.bits }
{
    let width = high.width + low.width;
    let bits = (high.bits << low.width) | low.bits;
    Word { width, bits }
}

/// The words joined, the first one's bits before the others'.
pub(crate) fn join(first: Word, rest: &[Word]) -> Word
    requires { first.width + all_widths rest.now ≤ 128 }
    ensures { pair result ≡ join_all (pair first) (map pair rest.now) }
{
    let mut whole = first;
    for word in rest {
        whole = concatenate(whole, *word);
    }
    whole
}

/// The bits from the high place down to the low one.
pub(crate) fn extract(high: u32, low: u32, word: Word) -> Word
    requires order { low ≤ high }
    requires within { high < word.width }
    ensures width { result.width ≡ high - low + 1 }
    ensures bits { result.bits ≡ extract high low word.bits }
{
    let width = high - low + 1;
    Word::wrapped(width, word.bits >> low)
}

/// So many zeros before the bits.
pub(crate) fn zero_extend(more: u32, word: Word) -> Word
    requires { word.width + more ≤ 128 }
    ensures width { result.width ≡ word.width + more }
    ensures bits { result.bits ≡ word.bits }
{
    let width = word.width + more;
    Word {
        width,
        bits: word.bits,
    }
}

/// So many copies of the sign bit before the bits.
pub(crate) fn sign_extend(more: u32, word: Word) -> Word
    requires { word.width + more ≤ 128 }
    ensures width { result.width ≡ word.width + more }
    ensures bits { result.bits ≡ sign_extend word.width more word.bits }
{
    if is_negative(word) {
        invert(zero_extend(more, invert(word)))
    } else {
        zero_extend(more, word)
    }
}
