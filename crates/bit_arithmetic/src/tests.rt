//! Operators over words by tables. The expected values are those of SMT-LIB 2's definitions, computed apart from this
//! code: divisions by zero, signs at widths 1 to 3, shifts by the width and more, and the edges of 128 bits.
ghost use Rattle.std.specs.Prelude.{◌≡◌};

use crate::words::{Outcome, Word};
use crate::{apply, apply_at};
use std::process::Abort;
use std::test::Fail;
use y_tree::{BvAtOp, BvOp};

/// What an operator gives: a number of the operands' width, or a truth value.
#[derive(Clone, Copy, Debug, PartialEq, Eq)]
enum Gives {
    Number(u128),
    Truth(bool),
}

/// An operator, a width, two numbers, and what the operator gives.
type Row = (BvOp, u32, u128, u128, Gives);

const ROWS: [Row; 50] = [
    (BvOp::Add, 3, 7, 1, Gives::Number(0)),
    (
        BvOp::Add,
        128,
        0xffffffffffffffffffffffffffffffff,
        1,
        Gives::Number(0),
    ),
    (BvOp::Sub, 1, 0, 1, Gives::Number(1)),
    (
        BvOp::Sub,
        128,
        0,
        1,
        Gives::Number(0xffffffffffffffffffffffffffffffff),
    ),
    (BvOp::Mul, 3, 5, 7, Gives::Number(3)),
    (
        BvOp::Mul,
        128,
        0xffffffffffffffffffffffffffffffff,
        0xffffffffffffffffffffffffffffffff,
        Gives::Number(1),
    ),
    (
        BvOp::Mul,
        128,
        0x10000000000000000,
        0x10000000000000000,
        Gives::Number(0),
    ),
    (BvOp::Div, 3, 5, 0, Gives::Number(7)),
    (
        BvOp::Div,
        128,
        7,
        0,
        Gives::Number(0xffffffffffffffffffffffffffffffff),
    ),
    (
        BvOp::Div,
        128,
        0xffffffffffffffffffffffffffffffff,
        2,
        Gives::Number(0x7fffffffffffffffffffffffffffffff),
    ),
    (BvOp::Rem, 3, 5, 0, Gives::Number(5)),
    (
        BvOp::Rem,
        128,
        0xffffffffffffffffffffffffffffffff,
        10,
        Gives::Number(5),
    ),
    (BvOp::Sdiv, 1, 1, 1, Gives::Number(1)),
    (BvOp::Sdiv, 3, 4, 7, Gives::Number(4)),
    (BvOp::Sdiv, 3, 5, 0, Gives::Number(1)),
    (BvOp::Sdiv, 3, 3, 0, Gives::Number(7)),
    (BvOp::Sdiv, 3, 5, 2, Gives::Number(7)),
    (
        BvOp::Sdiv,
        128,
        0x80000000000000000000000000000000,
        0xffffffffffffffffffffffffffffffff,
        Gives::Number(0x80000000000000000000000000000000),
    ),
    (BvOp::Srem, 2, 3, 2, Gives::Number(3)),
    (BvOp::Srem, 3, 5, 2, Gives::Number(7)),
    (BvOp::Srem, 3, 5, 0, Gives::Number(5)),
    (
        BvOp::Srem,
        128,
        0x80000000000000000000000000000000,
        3,
        Gives::Number(0xfffffffffffffffffffffffffffffffe),
    ),
    (BvOp::Smod, 2, 3, 1, Gives::Number(0)),
    (BvOp::Smod, 3, 5, 2, Gives::Number(1)),
    (BvOp::Smod, 3, 3, 6, Gives::Number(7)),
    (BvOp::Smod, 3, 5, 0, Gives::Number(5)),
    (BvOp::Smod, 3, 6, 2, Gives::Number(0)),
    (
        BvOp::Smod,
        128,
        0x80000000000000000000000000000000,
        3,
        Gives::Number(1),
    ),
    (BvOp::And, 3, 6, 3, Gives::Number(2)),
    (BvOp::Or, 3, 4, 1, Gives::Number(5)),
    (BvOp::Xor, 3, 6, 3, Gives::Number(5)),
    (BvOp::Shl, 3, 3, 2, Gives::Number(4)),
    (BvOp::Shl, 3, 1, 3, Gives::Number(0)),
    (
        BvOp::Shl,
        128,
        3,
        127,
        Gives::Number(0x80000000000000000000000000000000),
    ),
    (BvOp::Shl, 128, 1, 0x10000000000000000, Gives::Number(0)),
    (BvOp::Lshr, 3, 6, 1, Gives::Number(3)),
    (
        BvOp::Lshr,
        128,
        0xffffffffffffffffffffffffffffffff,
        128,
        Gives::Number(0),
    ),
    (BvOp::Ashr, 3, 4, 1, Gives::Number(6)),
    (BvOp::Ashr, 3, 4, 7, Gives::Number(7)),
    (BvOp::Ashr, 3, 3, 7, Gives::Number(0)),
    (
        BvOp::Ashr,
        128,
        0x80000000000000000000000000000000,
        127,
        Gives::Number(0xffffffffffffffffffffffffffffffff),
    ),
    (BvOp::Ge, 3, 4, 3, Gives::Truth(true)),
    (BvOp::Gt, 3, 3, 3, Gives::Truth(false)),
    (BvOp::Le, 3, 4, 3, Gives::Truth(false)),
    (
        BvOp::Lt,
        128,
        0,
        0xffffffffffffffffffffffffffffffff,
        Gives::Truth(true),
    ),
    (BvOp::Sge, 3, 4, 3, Gives::Truth(false)),
    (BvOp::Sgt, 1, 0, 1, Gives::Truth(true)),
    (BvOp::Sle, 2, 2, 1, Gives::Truth(true)),
    (
        BvOp::Slt,
        128,
        0x80000000000000000000000000000000,
        0,
        Gives::Truth(true),
    ),
    (
        BvOp::Slt,
        128,
        0,
        0x80000000000000000000000000000000,
        Gives::Truth(false),
    ),
];

/// What an operator that takes two words of one width gives over two; none for other operators.
fn over_words(op: BvOp, first: Word, second: Word) -> Option<Gives>
    requires { first.width ≡ second.width }
{
    match op {
        BvOp::Neg => None,
        BvOp::Not => None,
        BvOp::Concat => None,
        _ => Some(seen(apply(op, &[first, second]))),
    }
}

/// An outcome as a row has it.
fn seen(outcome: Outcome) -> Gives {
    match outcome {
        Outcome::Bits(word) => Gives::Number(word.bits()),
        Outcome::Truth(holds) => Gives::Truth(holds),
    }
}

/// The same over two numbers; none where they are no words of that width.
fn over_numbers(op: BvOp, width: u32, left: u128, right: u128) -> Option<Gives> {
    let Some(first) = Word::new(width, left) else {
        return None;
    };
    let Some(second) = Word::new(width, right) else {
        return None;
    };
    if first.width != second.width {
        return None;
    }
    over_words(op, first, second)
}

fn check_rows(rt: &impl Abort, rows: &[Row]) {
    for (op, width, left, right, wanted) in rows {
        assert!(rt; over_numbers(*op, *width, *left, *right) == Some(*wanted));
    }
}

#[test]
fn two_words(rt: HostRuntime) -> Result<(), Fail> {
    check_rows(&rt, &ROWS);
    Ok(())
}

/// Whether a word has that width and number.
fn is_word(word: Word, width: u32, bits: u128) -> bool {
    word.width() == width && word.bits() == bits
}

#[test]
fn parts_and_extensions(rt: HostRuntime) -> Result<(), Fail> {
    let word = Word { width: 5, bits: 22 };
    assert!(rt; is_word(apply_at(BvAtOp::Extract, 3, 1, word), 3, 3));
    assert!(rt; is_word(apply_at(BvAtOp::SignExtend, 3, 0, word), 8, 246));
    assert!(rt; is_word(apply_at(BvAtOp::ZeroExtend, 3, 0, word), 8, 22));
    assert!(rt; is_word(apply_at(BvAtOp::ShiftLeft0, 2, 0, word), 5, 24));
    assert!(rt; is_word(apply_at(BvAtOp::ShiftRight0, 5, 0, word), 5, 0));
    Ok(())
}

#[test]
fn one_word_and_many(rt: HostRuntime) -> Result<(), Fail> {
    let five = Word { width: 3, bits: 5 };
    let six = Word { width: 3, bits: 6 };
    let three = Word { width: 2, bits: 3 };
    assert!(rt; seen(apply(BvOp::Neg, &[five])) == Gives::Number(3));
    assert!(rt; seen(apply(BvOp::Not, &[five])) == Gives::Number(2));
    assert!(rt; seen(apply(BvOp::Concat, &[five, three, six])) == Gives::Number(190));
    assert!(rt; seen(apply(BvOp::Add, &[five, six, five])) == Gives::Number(0));
    assert!(rt; seen(apply(BvOp::Mul, &[five, six, five])) == Gives::Number(6));
    assert!(rt; seen(apply(BvOp::Xor, &[five, six, six, five])) == Gives::Number(0));
    Ok(())
}
