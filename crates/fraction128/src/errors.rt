// What an operation on fractions answers where there is no fraction to answer.
ghost use Rattle.std.specs.Prelude.{◌≡◌};

use crate::number::Frac;

/// An operation on two fractions.
#[derive(Clone, Copy, Debug, PartialEq, Eq)]
pub enum Op {
    Add,
    Sub,
    Mul,
    Div,
}

/// An operation whose result is too wide, with its operands in their order.
#[derive(Clone, Copy, Debug)]
pub struct Wide {
    pub op: Op,
    pub left: Frac,
    pub right: Frac,
}

impl Wide {
    /// The operation with its operands.
    pub(crate) fn of(op: Op, left: Frac, right: Frac) -> Wide
        ensures { result ≡ record { op = op; left = left; right = right } }
    {
        Wide { op, left, right }
    }
}

/// Why two integers make no fraction.
#[derive(Clone, Copy, Debug, PartialEq, Eq)]
pub enum FracError {
    /// The denominator is 0.
    ZeroDen,
    /// A part of the lowest form is above `2^127 - 1` in size.
    Wide,
}
