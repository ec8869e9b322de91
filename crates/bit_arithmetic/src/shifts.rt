//! Shifts. One by the width or more leaves nothing of the operand but its sign.
ghost use Rattle.std.specs.Prelude.{◌≡◌};
ghost use Rattle.y_tree.specs.BitVectors.{shift_left, shift_right, shift_right_signed};

use crate::bitwise::invert;
use crate::signs::is_negative;
use crate::words::Word;

/// The shift to the left, with zeros.
pub(crate) fn shift_left(word: Word, by: u128) -> Word
    ensures width { result.width ≡ word.width }
    ensures bits { result.bits ≡ shift_left word.width word.bits by }
{
    let width = word.width;
    if by >= width as u128 {
        return Word { width, bits: 0 };
    }
    Word::wrapped(width, word.bits << by)
}

/// The shift to the right, with zeros.
pub(crate) fn shift_right(word: Word, by: u128) -> Word
    ensures width { result.width ≡ word.width }
    ensures bits { result.bits ≡ shift_right word.width word.bits by }
{
    let width = word.width;
    if by >= width as u128 {
        return Word { width, bits: 0 };
    }
    let bits = word.bits >> by;
    Word { width, bits }
}

/// The shift to the right, with copies of the sign bit.
pub(crate) fn shift_right_signed(word: Word, by: u128) -> Word
    ensures width { result.width ≡ word.width }
    ensures bits { result.bits ≡ shift_right_signed word.width word.bits by }
{
    if is_negative(word) {
        invert(shift_right(invert(word), by))
    } else {
        shift_right(word, by)
    }
}
