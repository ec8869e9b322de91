// The text of a fraction.
ghost use Rattle.rationals.specs.Rational.{ℚ};
ghost use Rattle.fraction128.specs.Text.{frac_text};
ghost use Rattle.std.specs.Prelude.{Some};

use crate::number::Frac;
use itoa::Buffer;
use std::fmt;

impl fmt::Display for Frac {
    ghost output = { λ q. Some (frac_text q) };

    fn fmt<W: fmt::Write>(&self, f: &mut fmt::Formatter<W>) -> fmt::Result {
        let mut buffer = Buffer::new();
        f.write_str(buffer.format(self.numer()))?;
        if self.below() == 1 {
            return Ok(());
        }
        f.write_str("/")?;
        f.write_str(buffer.format(self.below()))
    }
}
