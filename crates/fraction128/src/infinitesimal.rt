// Fractions with an infinitesimal part.
ghost use Rattle.std.specs.Prelude.{◌≡◌, if◌then◌else◌};
ghost use Rattle.rationals.specs.Rational.{neg_ℚ, ◌*ℚ◌, ◌+ℚ◌, ◌-ℚ◌};
ghost use Rattle.rationals.specs.Delta.{delta, cmp_Δ};
ghost use Rattle.fraction128.specs.declared.errors.Op.{Op};
ghost use Rattle.fraction128.specs.Exact.{fits, sum_fits};

use crate::errors::Wide;
use crate::number::Frac;
use std::cmp::Ordering;

/// The number `real` plus `inf` times a positive infinitesimal, which is below every positive fraction.
#[derive(Clone, Copy, Debug)]
pub struct Delta {
    pub real: Frac,
    pub inf: Frac,
}

impl Delta {
    /// The sum, part by part.
    ///
    /// Errors: the `Wide` of the first part whose sum is wide, `real` before `inf`. Cost: two sums of fractions.
    pub fn add(self, other: Delta) -> Result<Delta, Wide>
        ensures { result ≡ (if sum_fits self.real other.real
            then (if sum_fits self.inf other.inf
            then Ok (record { real = self.real +ℚ other.real; inf = self.inf +ℚ other.inf })
            else Err (record { op = Op.Add; left = self.inf; right = other.inf }))
            else Err (record { op = Op.Add; left = self.real; right = other.real })) }
    {
        let real = self.real.add(other.real)?;
        let inf = self.inf.add(other.inf)?;
        Ok(Delta { real, inf })
    }

    /// The difference, part by part.
    ///
    /// Errors and cost: as `add`.
    pub fn sub(self, other: Delta) -> Result<Delta, Wide>
        ensures { result ≡ (if sum_fits self.real (neg_ℚ other.real)
            then (if sum_fits self.inf (neg_ℚ other.inf)
            then Ok (record { real = self.real -ℚ other.real; inf = self.inf -ℚ other.inf })
            else Err (record { op = Op.Sub; left = self.inf; right = other.inf }))
            else Err (record { op = Op.Sub; left = self.real; right = other.real })) }
    {
        let real = self.real.sub(other.real)?;
        let inf = self.inf.sub(other.inf)?;
        Ok(Delta { real, inf })
    }

    /// The product by a fraction, part by part.
    ///
    /// Errors: the `Wide` of the first part whose product is wide, `real` before `inf`. Cost: two products of fractions.
    pub fn scale(self, by: Frac) -> Result<Delta, Wide>
        ensures { result ≡ (if fits (self.real *ℚ by)
            then (if fits (self.inf *ℚ by)
            then Ok (record { real = self.real *ℚ by; inf = self.inf *ℚ by })
            else Err (record { op = Op.Mul; left = self.inf; right = by }))
            else Err (record { op = Op.Mul; left = self.real; right = by })) }
    {
        let real = self.real.mul(by)?;
        let inf = self.inf.mul(by)?;
        Ok(Delta { real, inf })
    }

    /// The order: by `real`, and by `inf` where those are equal.
    pub fn cmp(self, other: Delta) -> Ordering
        ensures { result ≡ cmp_Δ (delta self.real self.inf) (delta other.real other.inf) }
    {
        match self.real.cmp(other.real) {
            Ordering::Equal => self.inf.cmp(other.inf),
            order => order,
        }
    }
}
