// Arithmetic on the sizes of numerators and denominators.
ghost use Rattle.std.specs.Prelude.{◌≡◌, ◌*◌, ◌<◌, ◌^◌, ◌*ℤ◌, ◌+ℤ◌, pos, unsigned_abs, if◌then◌else◌, nat_lt};
ghost use Rattle.fraction128.specs.Exact.{small, differ};

/// The largest size of a numerator and of a denominator: `2^127 - 1`.
pub const LARGEST: u128 = 0x7fff_ffff_ffff_ffff_ffff_ffff_ffff_ffff;

/// Whether exactly one of the two holds.
pub fn differ(one: bool, two: bool) -> bool
    ensures { result ≡ differ one two }
{
    if one { !two } else { two }
}

/// The product, if it is at most `LARGEST`.
pub fn small_product(a: u128, b: u128) -> Option<u128>
    ensures { result ≡ (if small (a * b) then Some (a * b) else None) }
{
    match a.checked_mul(b) {
        Some(p) if p <= LARGEST => Some(p),
        _ => None,
    }
}

/// The sum, if its size is at most `LARGEST`.
pub fn small_sum(x: i128, y: i128) -> Option<i128>
    ensures { result ≡ (if small (unsigned_abs (x +ℤ y)) then Some (x +ℤ y) else None) }
{
    match x.checked_add(y) {
        Some(z) if z != i128::MIN => Some(z),
        _ => None,
    }
}

/// Whether a b is less than c d, compared in 256 bits.
pub fn product_less(a: u128, b: u128, c: u128, d: u128) -> bool
    ensures { result ≡ nat_lt (a * b) (c * d) }
{
    let (low, high) = a.carrying_mul(b, 0);
    let (low2, high2) = c.carrying_mul(d, 0);
    if high == high2 {
        low < low2
    } else {
        high < high2
    }
}

/// A word times a word, both of 62 bits.
pub fn word_product(num: i64, by: u64) -> i128
    requires num_narrow { unsigned_abs num < 2 ^ 62 }
    requires by_narrow { by < 2 ^ 62 }
    ensures value { result ≡ num *ℤ pos by }
    ensures bound { unsigned_abs result < 2 ^ 124 }
{
    num as i128 * by as i128
}
