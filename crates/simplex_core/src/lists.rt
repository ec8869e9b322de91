//! Lists of variables, of fractions and of multipliers. Contracts see each as a list.

ghost use Rattle.std.specs.Prelude.{◌≡◌, length};

use fraction128::Frac;
use std::marker::Model;

/// A list of variables.
#[derive(Drop)]
pub struct Vars {
    items: Vec<usize>,
}

impl Model for Vars {
    ghost use Rattle.std.specs.Prelude.{List, ℕ};

    ghost Value = { List ℕ };

    ghost view = { λ l. l.items.items };
}

impl Vars {
    /// The list of a vector's elements, in order. It takes no memory.
    pub fn from_vec(items: Vec<usize>) -> Vars
        ensures { result ≡ items.items }
    {
        Vars { items }
    }

    /// The elements, in order.
    pub fn as_slice(&self) -> &[usize]
        ensures { result.now ≡ self.now }
    {
        self.items.as_slice()
    }
}

/// A list of fractions.
#[derive(Drop)]
pub struct Fracs {
    items: Vec<Frac>,
}

impl Model for Fracs {
    ghost use Rattle.std.specs.Prelude.{List};
    ghost use Rattle.std.specs.Coded.{codes};
    ghost use Rattle.rationals.specs.Rational.{ℚ};
    ghost use Rattle.rationals.proofs.FieldQ.{coded_ℚ};

    ghost Value = { List ℚ };

    ghost coded = { Prim.hlevel (codes, coded_ℚ) };

    ghost view = { λ l. l.items.items };
}

impl Fracs {
    /// The list of a vector's elements, in order. It takes no memory.
    pub fn from_vec(items: Vec<Frac>) -> Fracs
        ensures { result ≡ items.items }
    {
        Fracs { items }
    }

    /// The elements, in order.
    pub fn as_slice(&self) -> &[Frac]
        ensures { result.now ≡ self.now }
    {
        self.items.as_slice()
    }
}

/// A list of pairs: the tag of a bound, and what it is multiplied by.
#[derive(Drop)]
pub struct Multipliers {
    items: Vec<(usize, Frac)>,
}

impl Model for Multipliers {
    ghost use Rattle.std.specs.Prelude.{List, ℕ};
    ghost use Rattle.std.specs.Coded.{codes};
    ghost use Rattle.rationals.specs.Rational.{ℚ};
    ghost use Rattle.rationals.proofs.FieldQ.{coded_ℚ};

    ghost Value = { List (ℕ × ℚ) };

    ghost coded = { Prim.hlevel (codes, coded_ℚ) };

    ghost view = { λ l. l.items.items };
}

impl Multipliers {
    /// The list of a vector's elements, in order. It takes no memory.
    pub fn from_vec(items: Vec<(usize, Frac)>) -> Multipliers
        ensures { result ≡ items.items }
    {
        Multipliers { items }
    }

    /// The elements, in order.
    pub fn as_slice(&self) -> &[(usize, Frac)]
        ensures { result.now ≡ self.now }
    {
        self.items.as_slice()
    }
}
