//! Whole numbers and fractions in a text, of any length.
//!
//! A whole number is digits with no 0 in front of others. Its value is kept while it is at most `2^127 - 1`; past that
//! only this is known, and more digits can't bring it back. A fraction is a sign, a numerator and, unless it is 1, a
//! slash and a denominator. The first slash ends the numerator, as no digit is one, so a text is read in one way.
ghost use Rattle.std.specs.Prelude.{◌≡◌, ℕ, ◌+◌, ◌*◌, ◌<◌, ◌≤◌, ◌^◌, ◌++◌, Bool, List, MatchOption, pos, unsigned_abs};
ghost use Rattle.std.specs.Char.{digit_value};
ghost use Rattle.rationals.specs.Rational.{ℚ};
ghost use Rattle.fraction128.specs.Exact.{with_sign};
ghost use Rattle.value_texts.specs.Pieces.{IsEnd, is_slash, is_zero, IsSize, IsWholeOf, NoWhole, IsBottomOf, NoBottom, IsUnsigned, IsFraction, IsNumber, NoNumber};

use fraction128::Frac;

// The least size that is past the bound.
const BOUND: u128 = 0x8000_0000_0000_0000_0000_0000_0000_0000;

/// How large a whole number in a text is.
#[derive(Clone, Copy)]
pub(crate) enum Size {
    /// That number, at most `2^127 - 1`.
    Small(u128),
    /// A number past that.
    Past,
}

impl Size {
    fn is_zero(self) -> bool
        ensures { result ≡ is_zero self }
    {
        match self {
            Size::Small(n) => n == 0,
            Size::Past => false,
        }
    }
}

/// A fraction that was read.
#[derive(Clone, Copy)]
pub(crate) enum Number {
    /// That number.
    Exact(Frac),
    /// One with a numerator or denominator past the bound.
    Wide,
}

// The size with one more digit behind it, if the byte is a digit.
fn with_digit(size: Size, byte: u8) -> Option<Size>
    ensures { MatchOption result (10 ≤ digit_value byte)
        (λ s. (digit_value byte < 10) × ((n : ℕ) → IsSize size n → IsSize s (n * 10 + digit_value byte))) }
{
    if byte < b'0' || byte > b'9' {
        return None;
    }
    let digit = u128::from(byte - b'0');
    match size {
        Size::Small(n) if n < BOUND / 8 => {
            let more = n * 10 + digit;
            Some(if more < BOUND {
                Size::Small(more)
            } else {
                Size::Past
            })
        }
        _ => Some(Size::Past),
    }
}

// The size of the whole number that is the text.
pub(crate) fn read_whole(text: &[u8]) -> Option<Size>
    ensures { MatchOption result (NoWhole text.now) (λ s. IsWholeOf text.now s) }
{
    if text.is_empty() {
        return None;
    }
    if text.len() > 1 && text[0] == b'0' {
        return None;
    }
    let mut size = Size::Small(0);
    for i in 0..text.len() {
        size = with_digit(size, text[i])?;
    }
    Some(size)
}

// The place of the first slash, or the end.
fn find_slash(text: &[u8]) -> usize
    ensures { IsEnd is_slash text.now result }
{
    for i in 0..text.len() {
        if text[i] == b'/' {
            return i;
        }
    }
    text.len()
}

// What stands behind the front of the text.
pub(crate) fn after<'a>(text: &'a [u8], front: &[u8]) -> Option<&'a [u8]>
    ensures { MatchOption result ((rest : List ℕ) → text.now ≡ front.now ++ rest → ⊥) (λ rest. text.now ≡ front.now ++ rest.now) }
{
    text.strip_prefix(front)
}

// The size of the denominator: 1 for no text, and else what stands behind a slash.
fn read_bottom(text: &[u8]) -> Option<Size>
    ensures { MatchOption result (NoBottom text.now) (λ s. IsBottomOf text.now s) }
{
    if text.is_empty() {
        return Some(Size::Small(1));
    }
    let digits = after(text, b"/")?;
    match read_whole(digits)? {
        Size::Small(n) if n < 2 => None,
        size => Some(size),
    }
}

// A fraction as it is written.
#[derive(Clone, Copy)]
struct Parts {
    negative: bool,
    top: Size,
    bottom: Size,
}

// The fraction whose sign was read already.
fn read_unsigned(text: &[u8], negative: bool) -> Option<Parts>
    ensures { MatchOption result ((top bottom : ℕ) → IsUnsigned negative top bottom text.now → ⊥)
        (λ p. (p.negative ≡ negative) × ((top : ℕ) × (bottom : ℕ) × IsUnsigned negative top bottom text.now × IsSize p.top top × IsSize p.bottom bottom)) }
{
    let end = find_slash(text);
    let top = read_whole(&text[..end])?;
    let bottom = read_bottom(&text[end..])?;
    if negative && top.is_zero() {
        return None;
    }
    Some(Parts {
        negative,
        top,
        bottom,
    })
}

// The fraction that is the text.
fn read_parts(text: &[u8]) -> Option<Parts>
    ensures { MatchOption result ((negative : Bool) (top bottom : ℕ) → IsFraction negative top bottom text.now → ⊥)
        (λ p. (top : ℕ) × (bottom : ℕ) × IsFraction p.negative top bottom text.now × IsSize p.top top × IsSize p.bottom bottom) }
{
    match after(text, b"-") {
        Some(digits) => read_unsigned(digits, true),
        None => read_unsigned(text, false),
    }
}

// The size with its sign.
fn signed(negative: bool, size: u128) -> i128
    requires { size < 2 ^ 127 }
    ensures value { result ≡ with_sign negative size }
    ensures bound { unsigned_abs result < 2 ^ 127 }
{
    let size = size as i128;
    if negative { -size } else { size }
}

// The fraction with these parts, if they are its lowest terms.
fn in_lowest_terms(num: i128, den: i128) -> Option<Frac>
    requires num { unsigned_abs num < 2 ^ 127 }
    requires den { unsigned_abs den < 2 ^ 127 }
    ensures { MatchOption result ((q : ℚ) → q.num ≡ num → pos q.den ≡ den → ⊥) (λ q. (q.num ≡ num) × (pos q.den ≡ den)) }
{
    match Frac::new(num, den) {
        Ok(q) if q.numer() == num && q.denom() == den => Some(q),
        _ => None,
    }
}

/// The number that is the text.
pub(crate) fn read_number(text: &[u8]) -> Option<Number>
    ensures { MatchOption result (NoNumber text.now) (λ n. IsNumber text.now n) }
{
    let parts = read_parts(text)?;
    match parts.top {
        Size::Past => Some(Number::Wide),
        Size::Small(top) => match parts.bottom {
            Size::Past => Some(Number::Wide),
            Size::Small(bottom) => {
                let num = signed(parts.negative, top);
                let den = signed(false, bottom);
                Some(Number::Exact(in_lowest_terms(num, den)?))
            }
        },
    }
}
