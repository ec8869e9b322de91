// The order of fractions, and their equality.
ghost use Rattle.std.specs.Prelude.{◌≡◌, ◌++◌};
ghost use Rattle.std.specs.Ordering.{as_partial_cmp};
ghost use Rattle.std.specs.Cmp.{partial_equiv_from_equiv, Agrees};
ghost use Rattle.rationals.specs.Rational.{cmp_ℚ, same_ℚ};
ghost use Rattle.rationals.proofs.CompareQ.{cmp_total, cmp_partial, same_decides, same_equiv, same_ties};
ghost use Rattle.fraction128.specs.Exact.{less};
ghost use Rattle.std.specs.Hash as written;
ghost use Rattle.std.proofs.Common.{refl, ap};

use crate::number::Frac;
use crate::sizes::{product_less, word_product};
use std::cmp::Ordering;
use std::hash::{Hash, Hasher};

impl Frac {
    // Whether self is less than other: the cross products in 256 bits.
    fn is_below(self, other: Frac) -> bool
        ensures { result ≡ less self other }
    {
        let one = self.is_negative();
        let two = other.is_negative();
        if one {
            if two {
                product_less(other.size(), self.below(), self.size(), other.below())
            } else {
                true
            }
        } else if two {
            false
        } else {
            product_less(self.size(), other.below(), other.size(), self.below())
        }
    }

    /// The order of the numbers. It is exact for every pair, and runs no loop.
    pub fn cmp(self, other: Frac) -> Ordering
        ensures { result ≡ cmp_ℚ self other }
    {
        if self.is_narrow() && other.is_narrow() {
            let left = word_product(self.num_word(), other.den_word());
            let right = word_product(other.num_word(), self.den_word());
            return left.cmp(&right);
        }
        if self.is_below(other) {
            Ordering::Less
        } else if other.is_below(self) {
            Ordering::Greater
        } else {
            Ordering::Equal
        }
    }
}

impl PartialEq for Frac {
    ghost eq = { same_ℚ };

    ghost laws = { partial_equiv_from_equiv same_equiv };

    fn eq(&self, other: &Frac) -> bool {
        self.numer() == other.numer() && self.below() == other.below()
    }
}

impl Eq for Frac {
    ghost laws = { same_equiv };
}

impl PartialOrd for Frac {
    ghost partial_cmp = { as_partial_cmp cmp_ℚ };

    ghost laws = { cmp_partial };

    fn partial_cmp(&self, other: &Frac) -> Option<Ordering> {
        Some(Frac::cmp(*self, *other))
    }
}

impl Ord for Frac {
    ghost cmp = { cmp_ℚ };

    ghost total = { cmp_total };

    ghost matches_partial_cmp = { λ q r. refl };

    ghost matches_eq = { same_ties };

    fn cmp(&self, other: &Frac) -> Ordering {
        Frac::cmp(*self, *other)
    }
}

impl Hash for Frac {
    ghost hash_input = { λ q. written.i128 q.num ++ written.u128 q.den };

    ghost respects_eq = { λ q r e. ap (λ x. written.i128 x.num ++ written.u128 x.den) ((same_decides q r).0 e) };

    fn hash<H: Hasher>(&self, state: &mut H) {
        self.numer().hash(state);
        self.below().hash(state);
    }
}
