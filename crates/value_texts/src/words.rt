//! Words: the texts of values that are no functions.
//!
//! Each kind of word shows by its form what its value can be, so a word is taken apart once, and what is made of it is
//! its only value. No word holds a space or a bracket, so where a word stands in a text is decided without its value.
ghost use Rattle.std.specs.Prelude.{◌≡◌, ◌≢◌, ℕ, ◌+◌, ◌<◌, ◌≤◌, ◌^◌, ◌++◌, Bool, length, codes, decimal, IsTrue, MatchOption};
ghost use Rattle.y_tree.specs.Sorts.{real, is_simple};
ghost use Rattle.y_tree.specs.Values.{truth};
ghost use Rattle.value_texts.specs.Texts.{binary, value_text};
ghost use Rattle.value_texts.specs.Pieces.{IsEnd, is_mark, IsWord, NoWord};
ghost use Rattle.y_tree.specs.Plain.{plain_sort, plain_value};

use crate::numbers::{Number, Size, after, read_number, read_whole};
use fraction128::Frac;
use y_tree::{Sort, Value};

/// The value of a word, and whether it is a fraction with a number past the bound. Then the value is 0.
#[derive(Drop)]
pub(crate) struct Word {
    pub(crate) value: Value,
    pub(crate) wide: bool,
}

/// The place of the first space or bracket, or the end.
pub(crate) fn word_end(text: &[u8]) -> usize
    ensures { IsEnd is_mark text.now result }
{
    for i in 0..text.len() {
        if text[i] == b' ' || text[i] == b'(' || text[i] == b')' {
            return i;
        }
    }
    text.len()
}

fn read_truth(text: &[u8]) -> Option<bool>
    ensures { MatchOption result ((b : Bool) → text.now ≢ value_text (truth b)) (λ b. text.now ≡ value_text (truth b)) }
{
    if text == b"true".as_slice() {
        Some(true)
    } else if text == b"false".as_slice() {
        Some(false)
    } else {
        None
    }
}

// The number that the binary digits are, the high one first.
fn read_digits(text: &[u8]) -> Option<u128>
    requires { length text.now ≤ 128 }
    ensures { MatchOption result ((n a : ℕ) → text.now ≢ binary n a)
        (λ a. (text.now ≡ binary (length text.now) a) × (a < 2 ^ length text.now)) }
{
    let mut bits: u128 = 0;
    for i in 0..text.len() {
        let byte = text[i];
        if byte < b'0' || byte > b'1' {
            return None;
        }
        bits = bits * 2 + u128::from(byte - b'0');
    }
    Some(bits)
}

fn read_bits(text: &[u8], width: u32) -> Option<u128>
    requires { width ≤ 128 }
    ensures { MatchOption result ((a : ℕ) → text.now ≢ codes "0b" ++ binary width a)
        (λ a. (text.now ≡ codes "0b" ++ binary width a) × (a < 2 ^ width)) }
{
    let digits = after(text, b"0b")?;
    if digits.len() != width as usize {
        return None;
    }
    read_digits(digits)
}

fn read_element(text: &[u8]) -> Option<u64>
    ensures { MatchOption result ((a : ℕ) → a < 2 ^ 64 → text.now ≢ codes "@" ++ decimal a) (λ a. (text.now ≡ codes "@" ++ decimal a) × (a < 2 ^ 64)) }
{
    match read_whole(after(text, b"@")?)? {
        Size::Small(number) if number <= u128::from(u64::MAX) => Some(number as u64),
        _ => None,
    }
}

// The number that is the text.
#[tactic(auto, unfolding(y_tree::specs::Plain::plain_value))]
fn read_real(text: &[u8]) -> Option<Word>
    ensures { MatchOption result (NoWord real text.now) (λ w. IsWord real text.now (plain_value w.value) w.wide) }
{
    match read_number(text)? {
        Number::Exact(number) => Some(Word {
            value: Value::Real(number),
            wide: false,
        }),
        Number::Wide => Some(Word {
            value: Value::Real(Frac::zero()),
            wide: true,
        }),
    }
}

/// The word that is the text.
#[tactic(auto, unfolding(y_tree::specs::Plain::plain_sort, y_tree::specs::Plain::plain_value))]
pub(crate) fn read_word(text: &[u8], of: &Sort) -> Option<Word>
    requires { IsTrue (is_simple (plain_sort of.now)) }
    ensures { MatchOption result (NoWord (plain_sort of.now) text.now) (λ w. IsWord (plain_sort of.now) text.now (plain_value w.value) w.wide) }
{
    match of {
        Sort::Bool => Some(Word {
            value: Value::Bool(read_truth(text)?),
            wide: false,
        }),
        Sort::Real => read_real(text),
        Sort::Bv(width) => Some(Word {
            value: Value::Bv {
                width: *width,
                bits: read_bits(text, *width)?,
            },
            wide: false,
        }),
        Sort::Free(kind) => Some(Word {
            value: Value::Elem {
                kind: *kind,
                number: read_element(text)?,
            },
            wide: false,
        }),
        Sort::Fun(..) => None,
    }
}
