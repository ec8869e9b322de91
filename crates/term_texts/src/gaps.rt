//! What stands before the arguments of a term, and behind the last.
ghost use Rattle.std.specs.Prelude.{◌≡◌, ◌++◌, List, codes, decimal, string_bytes, slice_get, length, OnOk};
ghost use Rattle.std.specs.Option.{option_copied};
ghost use Rattle.rationals.specs.Rational.{ℚ};
ghost use Rattle.y_tree.specs.Plain.{plain_value};
ghost use Rattle.value_texts.specs.Texts.{value_text};
ghost use Rattle.y_tree.specs.Values.{number, bits};
ghost use Rattle.term_texts.specs.TermTexts.{op_word, at_word, is_one, is_zero};
ghost use Rattle.term_texts.specs.Gaps.{form_gap, application_gap, update_gap, at_gap, opened, closed, earlier, is_wrapped, sum_start, sum_end, between, sum_gap, bound_gap, gap};

use crate::types::push_name;
use fraction128::Frac;
use itoa::Buffer;
use std::alloc::{AllocError, Global};
use term_table::{Monomial, Shape, Table, Term};
use value_texts::write_value;
use y_tree::{BvAtOp, BvOp, Value};

/// Writes what stands before the argument at that place, or behind the last.
pub(crate) fn push_gap(
    alloc: Global,
    out: &mut String,
    table: &Table,
    t: Term,
    shape: &Shape,
    place: usize,
) -> Result<(), AllocError>
    ensures { OnOk result (string_bytes out.new ≡ string_bytes out.old ++ gap table.now t shape.now place) }
{
    match shape {
        Shape::True => out.push_str("true"),
        Shape::False => out.push_str("false"),
        Shape::Const { number, .. } => push_name(out, table.name_of(t), "c!", *number),
        Shape::Var { number, .. } => push_name(out, table.name_of(t), "v!", *number),
        Shape::Number(q) => push_number(alloc, out, *q),
        Shape::Bits { width, bits } => push_bits(alloc, out, *width, *bits),
        Shape::Not(_) => push_form_gap(out, "not", 1, place),
        Shape::And(all) => push_form_gap(out, "and", all.len(), place),
        Shape::Or(all) => push_form_gap(out, "or", all.len(), place),
        Shape::Xor(all) => push_form_gap(out, "xor", all.len(), place),
        Shape::Ite(_, _, _) => push_form_gap(out, "ite", 3, place),
        Shape::Eq(_, _) => push_form_gap(out, "=", 2, place),
        Shape::Distinct(all) => push_form_gap(out, "distinct", all.len(), place),
        Shape::App(_, all) => push_application_gap(out, all.as_slice().len() + 1, place),
        Shape::Update(_, all, _) => push_update_gap(out, all.as_slice().len() + 1, place),
        Shape::Sum(monomials, q) => push_sum_gap(alloc, out, monomials.as_slice(), *q, place),
        Shape::NonNeg(_) => push_bound_gap(out, place),
        Shape::Bv(op, all) => push_form_gap(out, op_word(*op), all.len(), place),
        Shape::BvAt(op, i, j, _) => push_at_gap(out, *op, *i, *j, place),
    }
}

fn push_value(alloc: Global, out: &mut String, value: &Value) -> Result<(), AllocError>
    ensures { OnOk result (string_bytes out.new ≡ string_bytes out.old ++ value_text (plain_value value.now)) }
{
    let text = write_value(alloc, value)?;
    out.push_str(text.as_str())
}

#[tactic(auto, unfolding(y_tree::specs::Plain::plain_value))]
fn push_number(alloc: Global, out: &mut String, q: Frac) -> Result<(), AllocError>
    ensures { OnOk result (string_bytes out.new ≡ string_bytes out.old ++ value_text (number q)) }
{
    push_value(alloc, out, &Value::Real(q))
}

#[tactic(auto, unfolding(y_tree::specs::Plain::plain_value))]
fn push_bits(alloc: Global, out: &mut String, width: u32, digits: u128) -> Result<(), AllocError>
    ensures { OnOk result (string_bytes out.new ≡ string_bytes out.old ++ value_text (bits width digits)) }
{
    push_value(
        alloc,
        out,
        &Value::Bv {
            width,
            bits: digits,
        },
    )
}

// Of a comparison with 0.
fn push_bound_gap(out: &mut String, place: usize) -> Result<(), AllocError>
    ensures { OnOk result (string_bytes out.new ≡ string_bytes out.old ++ bound_gap place) }
{
    if place == 0 {
        out.push_str("(>= ")
    } else {
        out.push_str(" 0)")
    }
}

// Of a word with that many arguments.
fn push_form_gap(out: &mut String, word: &str, count: usize, place: usize) -> Result<(), AllocError>
    ensures { OnOk result (string_bytes out.new ≡ string_bytes out.old ++ form_gap word.now count place) }
{
    if place == 0 {
        out.push_str("(")?;
        out.push_str(word)?;
    }
    if place == count {
        out.push_str(")")
    } else {
        out.push_str(" ")
    }
}

// Of an application with that many arguments, the function among them.
fn push_application_gap(out: &mut String, count: usize, place: usize) -> Result<(), AllocError>
    ensures { OnOk result (string_bytes out.new ≡ string_bytes out.old ++ application_gap count place) }
{
    let gap = if place == 0 {
        "("
    } else if place == count {
        ")"
    } else {
        " "
    };
    out.push_str(gap)
}

// Of an update with that many arguments behind the function, the value among them.
fn push_update_gap(out: &mut String, count: usize, place: usize) -> Result<(), AllocError>
    ensures { OnOk result (string_bytes out.new ≡ string_bytes out.old ++ update_gap count place) }
{
    let gap = if place == 0 {
        "(update "
    } else if place > count {
        ")"
    } else if place == count {
        if place == 1 { " () " } else { ") " }
    } else if place == 1 {
        " ("
    } else {
        " "
    };
    out.push_str(gap)
}

// Whether the number is 1.
fn is_one(q: Frac) -> bool
    ensures { result ≡ is_one q }
{
    q.numer() == 1 && q.denom() == 1
}

// Whether the number is 0.
fn is_zero(q: Frac) -> bool
    ensures { result ≡ is_zero q }
{
    q.numer() == 0
}

// Before the term of a monomial.
fn push_opened(
    alloc: Global,
    out: &mut String,
    monomial: Option<&Monomial>,
) -> Result<(), AllocError>
    ensures { OnOk result (string_bytes out.new ≡ string_bytes out.old ++ opened (option_copied monomial.entry)) }
{
    match monomial {
        Some(monomial) if !is_one(monomial.factor) => {
            out.push_str("(* ")?;
            push_number(alloc, out, monomial.factor)?;
            out.push_str(" ")
        }
        _ => Ok(()),
    }
}

// Behind the term of a monomial.
fn push_closed(out: &mut String, monomial: Option<&Monomial>) -> Result<(), AllocError>
    ensures { OnOk result (string_bytes out.new ≡ string_bytes out.old ++ closed (option_copied monomial.entry)) }
{
    match monomial {
        Some(monomial) if !is_one(monomial.factor) => out.push_str(")"),
        _ => Ok(()),
    }
}

// The monomial at that place.
fn monomial_at(monomials: &[Monomial], place: usize) -> Option<&Monomial>
    ensures { option_copied result ≡ slice_get monomials.now place }
{
    monomials.get(place)
}

// The monomial before that place.
fn earlier(monomials: &[Monomial], place: usize) -> Option<&Monomial>
    ensures { option_copied result ≡ earlier monomials.now place }
{
    if place == 0 {
        return None;
    }
    monomials.get(place - 1)
}

// Whether a sum has more than one part.
fn is_wrapped(count: usize, constant: Frac) -> bool
    ensures { result ≡ is_wrapped count constant }
{
    if is_zero(constant) {
        count > 1
    } else {
        count > 0
    }
}

// Behind the last part of a sum.
fn push_sum_end(
    alloc: Global,
    out: &mut String,
    count: usize,
    constant: Frac,
) -> Result<(), AllocError>
    ensures { OnOk result (string_bytes out.new ≡ string_bytes out.old ++ sum_end count constant) }
{
    if !is_zero(constant) {
        out.push_str(" ")?;
        push_number(alloc, out, constant)?;
    }
    if is_wrapped(count, constant) {
        out.push_str(")")?;
    }
    Ok(())
}

// Before the first part of a sum.
fn push_sum_start(out: &mut String, wrapped: bool) -> Result<(), AllocError>
    ensures { OnOk result (string_bytes out.new ≡ string_bytes out.old ++ sum_start wrapped) }
{
    if wrapped {
        out.push_str("(+ ")?;
    }
    Ok(())
}

// Between the parts of a sum.
fn push_between(
    alloc: Global,
    out: &mut String,
    count: usize,
    constant: Frac,
    place: usize,
) -> Result<(), AllocError>
    ensures { OnOk result (string_bytes out.new ≡ string_bytes out.old ++ between count constant place) }
{
    if count == 0 {
        push_number(alloc, out, constant)
    } else if place == 0 {
        push_sum_start(out, is_wrapped(count, constant))
    } else if place == count {
        push_sum_end(alloc, out, count, constant)
    } else {
        out.push_str(" ")
    }
}

// Of a sum.
fn push_sum_gap(
    alloc: Global,
    out: &mut String,
    monomials: &[Monomial],
    constant: Frac,
    place: usize,
) -> Result<(), AllocError>
    ensures { OnOk result (string_bytes out.new ≡ string_bytes out.old ++ sum_gap monomials.now constant place) }
{
    push_closed(out, earlier(monomials, place))?;
    push_between(alloc, out, monomials.len(), constant, place)?;
    push_opened(alloc, out, monomial_at(monomials, place))?;
    Ok(())
}

// Of an operator on one bit-vector with numbers.
fn push_at_gap(
    out: &mut String,
    op: BvAtOp,
    first: u32,
    second: u32,
    place: usize,
) -> Result<(), AllocError>
    ensures { OnOk result (string_bytes out.new ≡ string_bytes out.old ++ at_gap op first second place) }
{
    let mut buffer = Buffer::new();
    match (op, place) {
        (BvAtOp::Extract, 0) => {
            out.push_str("(bv-extract ")?;
            out.push_str(buffer.format(first))?;
            out.push_str(" ")?;
            out.push_str(buffer.format(second))?;
            out.push_str(" ")
        }
        (BvAtOp::Extract, _) => out.push_str(")"),
        (_, 0) => {
            out.push_str("(")?;
            out.push_str(at_word(op))?;
            out.push_str(" ")
        }
        (_, _) => {
            out.push_str(" ")?;
            out.push_str(buffer.format(first))?;
            out.push_str(")")
        }
    }
}

fn op_word(op: BvOp) -> &'static str
    ensures { result.now ≡ op_word op }
{
    match op {
        BvOp::Add => "bv-add",
        BvOp::Sub => "bv-sub",
        BvOp::Mul => "bv-mul",
        BvOp::Neg => "bv-neg",
        BvOp::Div => "bv-div",
        BvOp::Rem => "bv-rem",
        BvOp::Sdiv => "bv-sdiv",
        BvOp::Srem => "bv-srem",
        BvOp::Smod => "bv-smod",
        BvOp::Not => "bv-not",
        BvOp::And => "bv-and",
        BvOp::Or => "bv-or",
        BvOp::Xor => "bv-xor",
        BvOp::Shl => "bv-shl",
        BvOp::Lshr => "bv-lshr",
        BvOp::Ashr => "bv-ashr",
        BvOp::Concat => "bv-concat",
        BvOp::Ge => "bv-ge",
        BvOp::Gt => "bv-gt",
        BvOp::Le => "bv-le",
        BvOp::Lt => "bv-lt",
        BvOp::Sge => "bv-sge",
        BvOp::Sgt => "bv-sgt",
        BvOp::Sle => "bv-sle",
        BvOp::Slt => "bv-slt",
    }
}

fn at_word(op: BvAtOp) -> &'static str
    ensures { result.now ≡ at_word op }
{
    match op {
        BvAtOp::ShiftLeft0 => "bv-shift-left0",
        BvAtOp::ShiftRight0 => "bv-shift-right0",
        BvAtOp::Extract => "bv-extract",
        BvAtOp::SignExtend => "bv-sign-extend",
        BvAtOp::ZeroExtend => "bv-zero-extend",
    }
}
