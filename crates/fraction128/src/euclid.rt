// Euclid's algorithm for the greatest common divisor (Knuth, The Art of Computer Programming, volume 2, 4.5.2).
ghost use Rattle.std.specs.Prelude.{◌≡◌, ◌<◌};
ghost use Rattle.rationals.specs.Gcd.{gcd};

// Each turn after the first at least halves the product of the two numbers, so these turns are enough.
const WORD_TURNS: u32 = 129;

const TURNS: u32 = 257;

/// The greatest common divisor of two words; of a and 0 it is a.
pub fn gcd_word(a: u64, b: u64) -> u64
    ensures value { result ≡ gcd a b }
    ensures positive { 0 < b → 0 < result }
{
    let mut x = a;
    let mut y = b;
    for _turn in 0..WORD_TURNS {
        if y == 0 {
            return x;
        }
        let r = x % y;
        x = y;
        y = r;
    }
    x
}

/// The same in 128 bits, on words where both numbers fit.
pub fn gcd(a: u128, b: u128) -> u128
    ensures value { result ≡ gcd a b }
    ensures positive { 0 < b → 0 < result }
{
    const WORD: u128 = u64::MAX as u128;
    if a <= WORD && b <= WORD {
        return gcd_word(a as u64, b as u64) as u128;
    }
    let mut x = a;
    let mut y = b;
    for _turn in 0..TURNS {
        if y == 0 {
            return x;
        }
        let r = x % y;
        x = y;
        y = r;
    }
    x
}

/// The same of a long number and a word, which is not 0: one long division at most.
pub fn gcd_mixed(a: u128, b: u64) -> u64
    requires { 0 < b }
    ensures { result ≡ gcd a b }
{
    if b == 1 {
        return 1;
    }
    gcd_word(b, (a % b as u128) as u64)
}
