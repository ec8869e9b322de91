//! The texts of values.
ghost use Rattle.std.specs.Prelude.{◌≡◌, ◌/◌, ◌%◌, ◌^◌, ◌==◌, ◌++◌, codes, decimal, string_bytes, IfOk, OnOk};
ghost use Rattle.fraction128.specs.Text.{frac_text};
ghost use Rattle.value_texts.specs.Texts.{binary, value_text, keys_text, entries_text};
ghost use Rattle.y_tree.specs.Plain.{plain_value, plain_values, plain_entries, plain_function};

use fraction128::Frac;
use itoa::Buffer;
use std::alloc::{AllocError, Global};
use y_io::Text;
use y_tree::{Entry, FunValue, Value};

/// The text of a value.
///
/// A Boolean is `true` or `false`, a fraction its numerator and, where the denominator isn't 1, a slash and the
/// denominator, a bit-vector `0b` and its digits, an element `@` and its number, a function
/// `(function (KEYS) VALUE .. default VALUE)`.
///
/// Errors: want of memory.
pub fn write_value(alloc: Global, value: &Value) -> Result<Text, AllocError>
    ensures { IfOk result (λ text. text ≡ value_text (plain_value value.now)) }
{
    let mut out = String::new(alloc);
    push_value(&mut out, value)?;
    Text::new(alloc, &out)
}

fn push_fraction(out: &mut String, q: Frac) -> Result<(), AllocError>
    ensures { OnOk result (string_bytes out.new ≡ string_bytes out.old ++ frac_text q) }
{
    let mut buffer = Buffer::new();
    out.push_str(buffer.format(q.numer()))?;
    if q.denom() == 1 {
        return Ok(());
    }
    out.push_str("/")?;
    out.push_str(buffer.format(q.denom()))
}

// The bit at that place, counted from the low one.
fn bit_at(bits: u128, place: u32) -> bool
    ensures { result ≡ (bits / 2 ^ place % 2 == 1) }
{
    match bits.checked_shr(place) {
        Some(rest) => rest % 2 == 1,
        None => false,
    }
}

#[tactic(auto, using(crate::proofs::TextLists::bit_one, crate::proofs::TextLists::bit_zero, crate::proofs::TextLists::bits_done))]
fn push_bits(out: &mut String, width: u32, bits: u128) -> Result<(), AllocError>
    ensures { OnOk result (string_bytes out.new ≡ string_bytes out.old ++ binary width bits) }
{
    for i in (0..width).rev() {
        if bit_at(bits, i) {
            out.push_str("1")?;
        } else {
            out.push_str("0")?;
        }
    }
    Ok(())
}

#[cycle(write)]
#[tactic(auto, unfolding(y_tree::specs::Plain::plain_value, crate::specs::Texts::value_text))]
fn push_value(out: &mut String, value: &Value) -> Result<(), AllocError>
    ensures { OnOk result (string_bytes out.new ≡ string_bytes out.old ++ value_text (plain_value value.now)) }
{
    match value {
        Value::Bool(true) => out.push_str("true"),
        Value::Bool(false) => out.push_str("false"),
        Value::Real(q) => push_fraction(out, *q),
        Value::Bv { width, bits } => {
            out.push_str("0b")?;
            push_bits(out, *width, *bits)
        }
        Value::Elem { number, .. } => {
            let mut buffer = Buffer::new();
            out.push_str("@")?;
            out.push_str(buffer.format(*number))
        }
        Value::Fun(f) => push_function(out, f),
    }
}

#[cycle(write)]
#[tactic(auto, unfolding(crate::specs::Texts::value_text))]
fn push_function(out: &mut String, f: &FunValue) -> Result<(), AllocError>
    ensures { OnOk result (string_bytes out.new ≡ string_bytes out.old ++ value_text (plain_function f.now)) }
{
    out.push_str("(function")?;
    push_entries(out, f.entries())?;
    out.push_str(" default ")?;
    push_value(out, f.default_value())?;
    out.push_str(")")
}

#[cycle(write)]
#[tactic(auto, using(crate::proofs::TextLists::entries_more, crate::proofs::TextLists::entries_done), unfolding(y_tree::specs::Plain::plain_value))]
fn push_entries(out: &mut String, entries: &[Entry]) -> Result<(), AllocError>
    ensures { OnOk result (string_bytes out.new ≡ string_bytes out.old ++ entries_text (plain_entries entries.now)) }
{
    for i in 0..entries.len() {
        let entry = &entries[i];
        out.push_str(" (")?;
        push_keys(out, entry.key.as_slice())?;
        out.push_str(") ")?;
        push_value(out, &entry.value)?;
    }
    Ok(())
}

#[cycle(write)]
#[tactic(auto, using(crate::proofs::TextLists::keys_start, crate::proofs::TextLists::keys_more, crate::proofs::TextLists::keys_done, crate::proofs::TextLists::no_keys), unfolding(y_tree::specs::Plain::plain_value))]
fn push_keys(out: &mut String, keys: &[Value]) -> Result<(), AllocError>
    ensures { OnOk result (string_bytes out.new ≡ string_bytes out.old ++ keys_text (plain_values keys.now)) }
{
    if keys.len() == 0 {
        return Ok(());
    }
    push_value(out, &keys[0])?;
    for i in 1..keys.len() {
        out.push_str(" ")?;
        push_value(out, &keys[i])?;
    }
    Ok(())
}
