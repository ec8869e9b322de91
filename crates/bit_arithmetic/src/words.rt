//! Words: bit-vectors as numbers, with their widths.
ghost use Rattle.std.specs.Prelude.{◌≡◌, ◌-◌, ◌^◌, ◌<◌, ◌≤◌, ◌↔◌, IsSome, IfSome};
ghost use Rattle.y_tree.specs.BitVectors.{wrap};

/// A bit-vector: its width, from 1 to 128, and its number, below 2^width. Bit 0 is the low one.
#[derive(Clone, Copy, Debug, PartialEq, Eq)]
pub struct Word {
    pub(crate) width: u32,
    pub(crate) bits: u128,
    pub ghost some: { 1 ≤ width },
    pub ghost narrow: { width ≤ 128 },
    pub ghost below: { bits < 2 ^ width },
}

/// What an operator on words gives: a word, or a truth value.
#[derive(Clone, Copy, Debug, PartialEq, Eq)]
pub enum Outcome {
    /// A word.
    Bits(Word),
    /// A truth value.
    Truth(bool),
}

impl Word {
    /// The word of that width and number, where the width is from 1 to 128 and the number below 2^width.
    pub fn new(width: u32, bits: u128) -> Option<Word>
        ensures there { IsSome result ↔ ((1 ≤ width) × (width ≤ 128) × (bits < 2 ^ width)) }
        ensures same { IfSome result (λ w. (w.width ≡ width) × (w.bits ≡ bits)) }
    {
        if width < 1 || width > 128 {
            return None;
        }
        if bits > ones(width) {
            return None;
        }
        Some(Word { width, bits })
    }

    /// The width, from 1 to 128.
    pub fn width(self) -> u32
        ensures { result ≡ self.width }
    {
        self.width
    }

    /// The number, below 2^width.
    pub fn bits(self) -> u128
        ensures { result ≡ self.bits }
    {
        self.bits
    }

    /// The low bits of a number, as many as the width.
    pub(crate) fn wrapped(width: u32, number: u128) -> Word
        requires some { 1 ≤ width }
        requires narrow { width ≤ 128 }
        ensures width { result.width ≡ width }
        ensures bits { result.bits ≡ wrap width number }
    {
        let bits = low_bits(width, number);
        Word { width, bits }
    }
}

/// The number modulo 2^width.
fn low_bits(width: u32, number: u128) -> u128
    requires some { 1 ≤ width }
    requires narrow { width ≤ 128 }
    ensures { result ≡ wrap width number }
{
    number & ones(width)
}

/// The number whose low bits, as many as the width, are 1.
pub(crate) fn ones(width: u32) -> u128
    requires some { 1 ≤ width }
    requires narrow { width ≤ 128 }
    ensures { result ≡ 2 ^ width - 1 }
{
    u128::MAX >> (128 - width)
}

/// The number whose bit is 1 that is the sign of a word of that width.
pub(crate) fn sign_bit(width: u32) -> u128
    requires some { 1 ≤ width }
    requires narrow { width ≤ 128 }
    ensures { result ≡ 2 ^ (width - 1) }
{
    1 << (width - 1)
}
