//! Quotients and remainders. By 0 the quotient has all bits 1, and the remainder is the dividend.
ghost use Rattle.std.specs.Prelude.{◌≡◌};
ghost use Rattle.y_tree.specs.BitVectors.{divide, modulo_by_signs, remainder, signed_divide, signed_modulo, signed_remainder};

use crate::modular::{add, negate_if};
use crate::signs::{differ, is_negative, magnitude};
use crate::words::{Word, ones};

/// The unsigned quotient, rounded down.
pub(crate) fn divide(left: Word, right: Word) -> Word
    ensures width { result.width ≡ left.width }
    ensures bits { result.bits ≡ divide left.width left.bits right.bits }
{
    let width = left.width;
    if right.bits == 0 {
        let bits = ones(width);
        return Word { width, bits };
    }
    let bits = left.bits / right.bits;
    Word { width, bits }
}

/// The unsigned remainder.
pub(crate) fn remainder(left: Word, right: Word) -> Word
    ensures width { result.width ≡ left.width }
    ensures bits { result.bits ≡ remainder left.bits right.bits }
{
    if right.bits == 0 {
        return left;
    }
    let bits = left.bits % right.bits;
    Word {
        width: left.width,
        bits,
    }
}

/// The quotient in two's complement of two words of one width, rounded towards 0.
pub(crate) fn signed_divide(left: Word, right: Word) -> Word
    requires { left.width ≡ right.width }
    ensures width { result.width ≡ left.width }
    ensures bits { result.bits ≡ signed_divide left.width left.bits right.bits }
{
    let apart = differ(is_negative(left), is_negative(right));
    let size = divide(magnitude(left), magnitude(right));
    negate_if(apart, size)
}

/// The remainder in two's complement of two words of one width, with the sign of the dividend.
pub(crate) fn signed_remainder(left: Word, right: Word) -> Word
    requires { left.width ≡ right.width }
    ensures width { result.width ≡ left.width }
    ensures bits { result.bits ≡ signed_remainder left.width left.bits right.bits }
{
    let size = remainder(magnitude(left), magnitude(right));
    negate_if(is_negative(left), size)
}

/// The remainder in two's complement of two words of one width, with the sign of the divisor.
pub(crate) fn signed_modulo(left: Word, right: Word) -> Word
    requires { left.width ≡ right.width }
    ensures width { result.width ≡ left.width }
    ensures bits { result.bits ≡ signed_modulo left.width left.bits right.bits }
{
    let size = remainder(magnitude(left), magnitude(right));
    modulo_by_signs(size, right, is_negative(left), is_negative(right))
}

/// What a remainder of sizes becomes by the signs of the dividend and of the divisor.
fn modulo_by_signs(size: Word, divisor: Word, left: bool, right: bool) -> Word
    requires { size.width ≡ divisor.width }
    ensures width { result.width ≡ divisor.width }
    ensures bits { result.bits ≡ modulo_by_signs divisor.width divisor.bits size.bits left right }
{
    let signed = negate_if(left, size);
    let apart = differ(left, right);
    if !apart {
        return signed;
    }
    if size.bits == 0 {
        return size;
    }
    add(signed, divisor)
}
