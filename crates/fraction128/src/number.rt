// The fraction: its parts, and the operations of the field.
ghost use Rattle.std.specs.Prelude.{◌≡◌, ◌≢◌, ◌↔◌, ℕ, ◌+◌, ◌*◌, ◌<◌, ◌≤◌, ◌^◌, Bool, ◌&&◌, true, IsTrue, ℤ, pos, neg_ℤ, ◌*ℤ◌, ◌+ℤ◌, ◌<ℤ◌, unsigned_abs, if◌then◌else◌, int_lt, nat_lt};
ghost use Rattle.rationals.specs.Gcd.{gcd};
ghost use Rattle.rationals.specs.Rational.{frac, zero_ℚ, one_ℚ, neg_ℚ, inv_ℚ, ◌*ℚ◌, ◌+ℚ◌, ◌-ℚ◌, ◌/ℚ◌};
ghost use Rattle.fraction128.specs.Exact.{with_sign, small, fits, narrow, ratio, sum_fits, is_zero_ℤ};

use crate::errors::{FracError, Op, Wide};
use crate::euclid::{gcd, gcd_mixed, gcd_word};
use crate::sizes::{LARGEST, differ, small_product, small_sum, word_product};
use std::marker::Model;

// The parts of a narrow fraction are below this, and the products of two such parts far below `LARGEST`.
const NARROW: u128 = 0x4000_0000_0000_0000;

/// A fraction in lowest terms. The denominator is from 1 to `2^127 - 1`, and the numerator has at most that size.
///
/// Contracts see it as a rational number. No call takes memory. A call runs Euclid's algorithm at most twice, with
/// at most 257 turns each; on operands whose parts are below `2^62` all its divisors are found on 64-bit words.
#[derive(Clone, Copy, Debug)]
pub struct Frac {
    num: i128,
    den: i128,
}

impl Model for Frac {
    ghost use Rattle.std.specs.Prelude.{pos, unsigned_abs};
    ghost use Rattle.rationals.specs.Rational.{ℚ, frac};
    ghost use Rattle.rationals.proofs.FieldQ.{coded_ℚ};
    ghost use Rattle.fraction128.specs.Exact.{IsFrac, kept};

    ghost Value = { ℚ };

    ghost coded = { coded_ℚ };

    ghost view = { λ a. frac a.num (unsigned_abs a.den) };

    ghost invariant = { λ a. IsFrac a.num a.den };

    ghost inverse = { λ q. record { num = q.num; den = pos q.den } };

    ghost inverse_ok = { λ a h i. let k = kept a.num a.den h in record { num = k.0 i; den = k.1 i } };
}

impl Frac {
    /// The number 0.
    pub fn zero() -> Frac
        ensures { result ≡ zero_ℚ }
    {
        Frac { num: 0, den: 1 }
    }

    /// The number 1.
    pub fn one() -> Frac
        ensures { result ≡ one_ℚ }
    {
        Frac { num: 1, den: 1 }
    }

    /// The numerator of the lowest terms, with the number's sign.
    pub fn numer(self) -> i128
        ensures { result ≡ self.num }
    {
        self.num
    }

    /// The denominator of the lowest terms, at least 1.
    pub fn denom(self) -> i128
        ensures { result ≡ pos self.den }
    {
        self.den
    }

    /// Whether the number is 0.
    pub fn is_zero(self) -> bool
        ensures { IsTrue result ↔ (self ≡ zero_ℚ) }
    {
        self.size() == 0
    }

    // The size of the numerator.
    pub(crate) fn size(self) -> u128
        ensures value { result ≡ unsigned_abs self.num }
        ensures bound { result < 2 ^ 127 }
    {
        self.num.unsigned_abs()
    }

    // The denominator.
    pub(crate) fn below(self) -> u128
        ensures value { result ≡ self.den }
        ensures bound { result < 2 ^ 127 }
        ensures positive { 0 < result }
    {
        self.den as u128
    }

    pub(crate) fn is_negative(self) -> bool
        ensures value { result ≡ int_lt self.num (pos 0) }
        ensures sign { with_sign result (unsigned_abs self.num) ≡ self.num }
    {
        self.num < 0
    }

    // Whether both parts fit 62 bits.
    pub(crate) fn is_narrow(self) -> bool
        ensures { result ≡ narrow self }
    {
        self.size() < NARROW && self.below() < NARROW
    }

    // The numerator of a narrow fraction as a word.
    pub(crate) fn num_word(self) -> i64
        requires { IsTrue (narrow self) }
        ensures value { result ≡ self.num }
        ensures bound { unsigned_abs result < 2 ^ 62 }
    {
        self.num as i64
    }

    // The size of the numerator of a narrow fraction as a word.
    fn size_word(self) -> u64
        requires { IsTrue (narrow self) }
        ensures value { result ≡ unsigned_abs self.num }
        ensures bound { result < 2 ^ 62 }
    {
        self.size() as u64
    }

    // The denominator of a narrow fraction as a word.
    pub(crate) fn den_word(self) -> u64
        requires { IsTrue (narrow self) }
        ensures value { result ≡ self.den }
        ensures bound { result < 2 ^ 62 }
        ensures positive { 0 < result }
    {
        self.below() as u64
    }

    // A sign, and a size over a denominator in lowest terms.
    fn make(negative: bool, top: u128, bottom: u128) -> Frac
        requires positive { 0 < bottom }
        requires lowest { gcd top bottom ≡ 1 }
        requires top_small { top < 2 ^ 127 }
        requires bottom_small { bottom < 2 ^ 127 }
        ensures { result ≡ frac (with_sign negative top) bottom }
    {
        let size = top as i128;
        let num = if negative { -size } else { size };
        Frac {
            num,
            den: bottom as i128,
        }
    }

    // The same, if the parts fit.
    fn build(negative: bool, top: u128, bottom: u128) -> Option<Frac>
        requires positive { 0 < bottom }
        requires lowest { gcd top bottom ≡ 1 }
        ensures { result ≡ (if small top && small bottom
            then Some (frac (with_sign negative top) bottom) else None) }
    {
        if top > LARGEST || bottom > LARGEST {
            return None;
        }
        Some(Frac::make(negative, top, bottom))
    }

    // A numerator over a denominator, whose greatest common divisor is given.
    fn divided(num: i128, den: u128, divisor: u128) -> Frac
        requires positive { 0 < den }
        requires den_small { den < 2 ^ 127 }
        requires num_small { unsigned_abs num < 2 ^ 127 }
        requires common { divisor ≡ gcd (unsigned_abs num) den }
        ensures { result ≡ frac num den }
    {
        let size = num.unsigned_abs();
        if divisor == 1 {
            return Frac::make(num < 0, size, den);
        }
        Frac::make(num < 0, size / divisor, den / divisor)
    }

    /// The fraction `num / den` in lowest terms.
    ///
    /// Errors: `ZeroDen` exactly where `den` is 0, else `Wide` exactly where the lowest form does not fit.
    /// Cost: one run of Euclid's algorithm.
    pub fn new(num: i128, den: i128) -> Result<Frac, FracError>
        ensures { result ≡ (if is_zero_ℤ den then Err FracError.ZeroDen
            else (if fits (ratio num den) then Ok (ratio num den) else Err FracError.Wide)) }
    {
        if den == 0 {
            return Err(FracError::ZeroDen);
        }
        let size = num.unsigned_abs();
        let size2 = den.unsigned_abs();
        let divisor = gcd(size, size2);
        let negative = differ(num < 0, den < 0);
        let top = size / divisor;
        let bottom = size2 / divisor;
        match Frac::build(negative, top, bottom) {
            Some(f) => Ok(f),
            None => Err(FracError::Wide),
        }
    }

    // The numerator times a positive number, if that fits.
    fn times(self, by: u128) -> Option<i128>
        ensures { result ≡ (if small (unsigned_abs self.num * by) then Some (self.num *ℤ pos by) else None) }
    {
        let size = small_product(self.size(), by)? as i128;
        if self.is_negative() {
            Some(-size)
        } else {
            Some(size)
        }
    }

    // The sum of narrow fractions. Of a divisor of the sum and the common denominator only the part that the two
    // denominators share is left (Knuth, volume 2, 4.5.1), so each run of Euclid's algorithm is on words.
    fn narrow_sum(self, other: Frac) -> Frac
        requires left { IsTrue (narrow self) }
        requires right { IsTrue (narrow other) }
        ensures { result ≡ self +ℚ other }
    {
        let b = self.den_word();
        let d = other.den_word();
        let shared = gcd_word(b, d);
        let left = word_product(self.num_word(), d / shared);
        let right = word_product(other.num_word(), b / shared);
        let sum = left + right;
        let common = (b / shared) as u128 * d as u128;
        let divisor = gcd_mixed(sum.unsigned_abs(), shared);
        Frac::divided(sum, common, divisor as u128)
    }

    // The sum, if it fits.
    fn sum(self, other: Frac) -> Option<Frac>
        ensures { result ≡ (if sum_fits self other then Some (self +ℚ other) else None) }
    {
        if self.is_narrow() && other.is_narrow() {
            return Some(self.narrow_sum(other));
        }
        self.wide_sum(other)
    }

    // The sum over the least common denominator, if it fits.
    fn wide_sum(self, other: Frac) -> Option<Frac>
        ensures { result ≡ (if sum_fits self other then Some (self +ℚ other) else None) }
    {
        let b = self.below();
        let d = other.below();
        let g = gcd(b, d);
        let common = small_product(b / g, d)?;
        let left = self.times(d / g)?;
        let right = other.times(b / g)?;
        let sum = small_sum(left, right)?;
        let divisor = gcd(sum.unsigned_abs(), common);
        Some(Frac::divided(sum, common, divisor))
    }

    /// The sum.
    ///
    /// Errors: `Wide` exactly where the least common denominator, a numerator over it, or their sum is above
    /// `2^127 - 1` in size. Cost: at most two runs of Euclid's algorithm.
    pub fn add(self, other: Frac) -> Result<Frac, Wide>
        ensures { result ≡ (if sum_fits self other then Ok (self +ℚ other)
            else Err (record { op = Op.Add; left = self; right = other })) }
    {
        self.sum(other).ok_or(Wide::of(Op::Add, self, other))
    }

    /// The difference.
    ///
    /// Errors: `Wide` exactly where the sum with the negated right operand is wide. Cost: as `add`.
    pub fn sub(self, other: Frac) -> Result<Frac, Wide>
        ensures { result ≡ (if sum_fits self (neg_ℚ other) then Ok (self -ℚ other)
            else Err (record { op = Op.Sub; left = self; right = other })) }
    {
        self.sum(other.neg()).ok_or(Wide::of(Op::Sub, self, other))
    }

    /// The negated number.
    pub fn neg(self) -> Frac
        ensures { result ≡ neg_ℚ self }
    {
        Frac {
            num: -self.num,
            den: self.den,
        }
    }

    // The product of narrow fractions: each numerator is reduced by the other denominator first.
    fn narrow_product(self, other: Frac) -> Frac
        requires left { IsTrue (narrow self) }
        requires right { IsTrue (narrow other) }
        ensures { result ≡ self *ℚ other }
    {
        let a = self.size_word();
        let b = self.den_word();
        let c = other.size_word();
        let d = other.den_word();
        let g = gcd_word(a, d);
        let h = gcd_word(c, b);
        let top = (a / g) as u128 * (c / h) as u128;
        let bottom = (b / h) as u128 * (d / g) as u128;
        Frac::make(differ(self.is_negative(), other.is_negative()), top, bottom)
    }

    // The product, if it fits.
    fn product(self, other: Frac) -> Option<Frac>
        ensures { result ≡ (if fits (self *ℚ other) then Some (self *ℚ other) else None) }
    {
        if self.is_narrow() && other.is_narrow() {
            return Some(self.narrow_product(other));
        }
        self.wide_product(other)
    }

    // The product, if it fits: each numerator is reduced by the other denominator first.
    fn wide_product(self, other: Frac) -> Option<Frac>
        ensures { result ≡ (if fits (self *ℚ other) then Some (self *ℚ other) else None) }
    {
        let a = self.size();
        let b = self.below();
        let c = other.size();
        let d = other.below();
        let g = gcd(a, d);
        let h = gcd(c, b);
        let top = (a / g).checked_mul(c / h)?;
        let bottom = (b / h).checked_mul(d / g)?;
        Frac::build(differ(self.is_negative(), other.is_negative()), top, bottom)
    }

    /// The product.
    ///
    /// Errors: `Wide` exactly where the lowest form does not fit. Cost: two runs of Euclid's algorithm.
    pub fn mul(self, other: Frac) -> Result<Frac, Wide>
        ensures { result ≡ (if fits (self *ℚ other) then Ok (self *ℚ other)
            else Err (record { op = Op.Mul; left = self; right = other })) }
    {
        self.product(other).ok_or(Wide::of(Op::Mul, self, other))
    }

    // One over the number.
    fn inverse(self) -> Frac
        requires { self ≢ zero_ℚ }
        ensures { result ≡ inv_ℚ self }
    {
        Frac::make(self.is_negative(), self.below(), self.size())
    }

    /// The quotient by a number that is not 0.
    ///
    /// Errors: `Wide` exactly where the lowest form does not fit. Cost: as `mul`.
    pub fn div(self, other: Frac) -> Result<Frac, Wide>
        requires { other ≢ zero_ℚ }
        ensures { result ≡ (if fits (self /ℚ other) then Ok (self /ℚ other)
            else Err (record { op = Op.Div; left = self; right = other })) }
    {
        self.product(other.inverse())
            .ok_or(Wide::of(Op::Div, self, other))
    }
}
