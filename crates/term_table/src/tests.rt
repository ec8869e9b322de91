// The answers of `check_shape` in a small table, worked out by hand from what each operator takes.
use super::*;
use fraction128::Frac;
use std::alloc::{AllocError, Global};
use std::process::Abort;
use std::test::Fail;
use y_tree::{BvAtOp, BvOp};

// The types of the table: bit-vectors by their widths, and functions from truth values and 4 bits to reals.
const BOOL: TypeId = TypeId { slot: 0, stamp: 0 };

const REAL: TypeId = TypeId { slot: 1, stamp: 0 };

const BV3: TypeId = TypeId { slot: 4, stamp: 0 };

const BV4: TypeId = TypeId { slot: 5, stamp: 0 };

const BV8: TypeId = TypeId { slot: 9, stamp: 0 };

const BV12: TypeId = TypeId { slot: 13, stamp: 0 };

const BV128: TypeId = TypeId {
    slot: 129,
    stamp: 0,
};

const FUN: TypeId = TypeId {
    slot: 130,
    stamp: 0,
};

// Its terms: a truth value, a real, 4 and 8 bits, a function, and a handle that was never given.
const P: Term = Term { slot: 2, stamp: 0 };

const X: Term = Term { slot: 3, stamp: 0 };

const V: Term = Term { slot: 4, stamp: 0 };

const W: Term = Term { slot: 5, stamp: 0 };

const F: Term = Term { slot: 6, stamp: 0 };

const D: Term = Term { slot: 7, stamp: 0 };

/// An operator with its numbers.
#[derive(Clone, Copy, Drop)]
enum Op {
    True,
    False,
    Const,
    Var,
    Number,
    Bits(u32, u128),
    Not,
    And,
    Or,
    Xor,
    Ite,
    Eq,
    Distinct,
    App,
    Update,
    Sum,
    NonNeg,
    Bv(BvOp),
    BvAt(BvAtOp, u32, u32),
}

/// What is told of a shape: its type, or what is wrong.
#[derive(Clone, Copy, Drop)]
enum Is {
    Of(TypeId),
    Atom,
    Dead(usize),
    Arity(usize),
    Wrong(usize, Wanted, TypeId),
    Widths(usize, u32, u32),
    Width(u128),
    Range,
}

const ROWS: [(Op, &[Term], Is); 83] = [
    (Op::True, &[], Is::Of(BOOL)),
    (Op::False, &[], Is::Of(BOOL)),
    (Op::Const, &[], Is::Atom),
    (Op::Var, &[], Is::Atom),
    (Op::Not, &[P], Is::Of(BOOL)),
    (Op::Not, &[X], Is::Wrong(1, Wanted::Bool, REAL)),
    (Op::Not, &[D], Is::Dead(1)),
    (Op::And, &[], Is::Arity(0)),
    (Op::And, &[P], Is::Of(BOOL)),
    (Op::And, &[P, P], Is::Of(BOOL)),
    (Op::And, &[P, X], Is::Wrong(2, Wanted::Bool, REAL)),
    (Op::And, &[X, P, V], Is::Wrong(1, Wanted::Bool, REAL)),
    (Op::And, &[P, D], Is::Dead(2)),
    (Op::And, &[X, D, D], Is::Dead(2)),
    (Op::Or, &[P, P], Is::Of(BOOL)),
    (Op::Or, &[X, V], Is::Wrong(1, Wanted::Bool, REAL)),
    (Op::Or, &[], Is::Arity(0)),
    (Op::Xor, &[P, P, P], Is::Of(BOOL)),
    (Op::Xor, &[], Is::Arity(0)),
    (Op::Ite, &[P, X, X], Is::Of(REAL)),
    (Op::Ite, &[P, P, P], Is::Of(BOOL)),
    (Op::Ite, &[P, F, F], Is::Of(FUN)),
    (Op::Ite, &[X, X, X], Is::Wrong(1, Wanted::Bool, REAL)),
    (Op::Ite, &[P, X, V], Is::Wrong(3, Wanted::Same(REAL), BV4)),
    (Op::Ite, &[P, V, W], Is::Wrong(3, Wanted::Same(BV4), BV8)),
    (Op::Ite, &[X, D, P], Is::Dead(2)),
    (Op::Eq, &[X, X], Is::Of(BOOL)),
    (Op::Eq, &[F, F], Is::Of(BOOL)),
    (Op::Eq, &[V, W], Is::Wrong(2, Wanted::Same(BV4), BV8)),
    (Op::Eq, &[D, D], Is::Dead(1)),
    (Op::Distinct, &[X], Is::Of(BOOL)),
    (Op::Distinct, &[X, X], Is::Of(BOOL)),
    (Op::Distinct, &[], Is::Arity(0)),
    (
        Op::Distinct,
        &[X, X, P],
        Is::Wrong(3, Wanted::Same(REAL), BOOL),
    ),
    (Op::App, &[F, P, V], Is::Of(REAL)),
    (Op::App, &[F, P], Is::Arity(2)),
    (Op::App, &[F, P, V, X], Is::Arity(4)),
    (Op::App, &[F], Is::Arity(1)),
    (Op::App, &[F, X, V], Is::Wrong(2, Wanted::Same(BOOL), REAL)),
    (Op::App, &[F, P, W], Is::Wrong(3, Wanted::Same(BV4), BV8)),
    (Op::App, &[P, P], Is::Wrong(1, Wanted::AnyFun, BOOL)),
    (Op::App, &[P], Is::Wrong(1, Wanted::AnyFun, BOOL)),
    (Op::App, &[D, P], Is::Dead(1)),
    (Op::App, &[F, P, D], Is::Dead(3)),
    (Op::Update, &[F, P, V, X], Is::Of(FUN)),
    (
        Op::Update,
        &[F, P, V, P],
        Is::Wrong(4, Wanted::Same(REAL), BOOL),
    ),
    (Op::Update, &[F, P, X], Is::Arity(3)),
    (
        Op::Update,
        &[F, X, V, X],
        Is::Wrong(2, Wanted::Same(BOOL), REAL),
    ),
    (Op::Update, &[X, P, X], Is::Wrong(1, Wanted::AnyFun, REAL)),
    (Op::Update, &[F, P, V, D], Is::Dead(4)),
    (Op::Number, &[], Is::Of(REAL)),
    (Op::Sum, &[], Is::Of(REAL)),
    (Op::Sum, &[X, X], Is::Of(REAL)),
    (Op::Sum, &[X, P], Is::Wrong(2, Wanted::Real, BOOL)),
    (Op::NonNeg, &[X], Is::Of(BOOL)),
    (Op::NonNeg, &[V], Is::Wrong(1, Wanted::Real, BV4)),
    (Op::Bits(0, 0), &[], Is::Width(0)),
    (Op::Bits(129, 0), &[], Is::Width(129)),
    (Op::Bits(4, 16), &[], Is::Range),
    (Op::Bits(4, 15), &[], Is::Of(BV4)),
    (Op::Bits(128, u128::MAX), &[], Is::Of(BV128)),
    (Op::Bv(BvOp::Add), &[V, V], Is::Of(BV4)),
    (Op::Bv(BvOp::Add), &[], Is::Arity(0)),
    (Op::Bv(BvOp::Sub), &[V], Is::Arity(1)),
    (Op::Bv(BvOp::Sub), &[V, W], Is::Widths(2, 4, 8)),
    (
        Op::Bv(BvOp::Add),
        &[V, W, P],
        Is::Wrong(3, Wanted::AnyBv, BOOL),
    ),
    (Op::Bv(BvOp::Neg), &[V], Is::Of(BV4)),
    (Op::Bv(BvOp::Neg), &[V, V], Is::Arity(2)),
    (Op::Bv(BvOp::Ge), &[V, V], Is::Of(BOOL)),
    (Op::Bv(BvOp::Slt), &[V, W], Is::Widths(2, 4, 8)),
    (Op::Bv(BvOp::Concat), &[V, W], Is::Of(BV12)),
    (Op::Bv(BvOp::Concat), &[W; 17], Is::Width(136)),
    (Op::Bv(BvOp::Not), &[X], Is::Wrong(1, Wanted::AnyBv, REAL)),
    (Op::BvAt(BvAtOp::Extract, 3, 0), &[V], Is::Of(BV4)),
    (Op::BvAt(BvAtOp::Extract, 3, 1), &[W], Is::Of(BV3)),
    (Op::BvAt(BvAtOp::Extract, 4, 0), &[V], Is::Range),
    (Op::BvAt(BvAtOp::Extract, 1, 2), &[V], Is::Range),
    (Op::BvAt(BvAtOp::ShiftLeft0, 4, 0), &[V], Is::Of(BV4)),
    (Op::BvAt(BvAtOp::ShiftRight0, 5, 0), &[V], Is::Range),
    (Op::BvAt(BvAtOp::SignExtend, 4, 0), &[V], Is::Of(BV8)),
    (Op::BvAt(BvAtOp::ZeroExtend, 125, 0), &[V], Is::Width(129)),
    (Op::BvAt(BvAtOp::ZeroExtend, 124, 0), &[V], Is::Of(BV128)),
    (Op::BvAt(BvAtOp::SignExtend, 0, 0), &[D], Is::Dead(1)),
];

fn at(on: &[Term], place: usize) -> Term {
    on.get(place).copied().unwrap_or(D)
}

/// The terms from that place on, and before that other one.
fn args(alloc: Global, on: &[Term], from: usize, to: usize) -> Result<Args, AllocError> {
    let mut args = Args::new(alloc);
    for place in from..to {
        args.push(at(on, place))?;
    }
    Ok(args)
}

fn monomials(alloc: Global, on: &[Term]) -> Result<Monomials, AllocError> {
    let mut monomials = Monomials::new(alloc);
    for t in on {
        let factor = Frac::one();
        monomials.push(Monomial { factor, of: *t })?;
    }
    Ok(monomials)
}

/// The shape of an operator over terms.
fn shape_of(alloc: Global, op: Op, on: &[Term]) -> Result<Shape, AllocError> {
    let (first, second, third) = (at(on, 0), at(on, 1), at(on, 2));
    let number = 9;
    let last = on.len().saturating_sub(1);
    Ok(match op {
        Op::True => Shape::True,
        Op::False => Shape::False,
        Op::Const => Shape::Const { number, of: FUN },
        Op::Var => Shape::Var { number, of: REAL },
        Op::Number => Shape::Number(Frac::one()),
        Op::Bits(width, bits) => Shape::Bits { width, bits },
        Op::Not => Shape::Not(first),
        Op::And => Shape::And(args(alloc, on, 0, on.len())?),
        Op::Or => Shape::Or(args(alloc, on, 0, on.len())?),
        Op::Xor => Shape::Xor(args(alloc, on, 0, on.len())?),
        Op::Ite => Shape::Ite(first, second, third),
        Op::Eq => Shape::Eq(first, second),
        Op::Distinct => Shape::Distinct(args(alloc, on, 0, on.len())?),
        Op::App => Shape::App(first, args(alloc, on, 1, on.len())?),
        Op::Update => Shape::Update(first, args(alloc, on, 1, last)?, at(on, last)),
        Op::Sum => Shape::Sum(monomials(alloc, on)?, Frac::zero()),
        Op::NonNeg => Shape::NonNeg(first),
        Op::Bv(op) => Shape::Bv(op, args(alloc, on, 0, on.len())?),
        Op::BvAt(op, i, j) => Shape::BvAt(op, i, j, first),
    })
}

fn answer(told: Is) -> Result<TypeId, ShapeError> {
    Err(match told {
        Is::Of(of) => return Ok(of),
        Is::Atom => ShapeError::Atom,
        Is::Dead(place) => ShapeError::DeadTerm(place),
        Is::Arity(number) => ShapeError::BadArity(number),
        Is::Wrong(place, wanted, found) => ShapeError::WrongType {
            place,
            wanted,
            found,
        },
        Is::Widths(place, left, right) => ShapeError::WidthsDiffer { place, left, right },
        Is::Width(width) => ShapeError::BadWidth(width),
        Is::Range => ShapeError::BadRange,
    })
}

fn check_rows(
    rt: &impl Abort,
    alloc: Global,
    table: &Table,
    rows: &[(Op, &[Term], Is)],
) -> Result<(), AllocError> {
    for row in rows {
        let shape = shape_of(alloc, row.0, row.1)?;
        assert_eq!(rt; table.check_shape(&shape), answer(row.2));
    }
    Ok(())
}

#[test]
fn each_shape_is_checked(rt: HostRuntime) -> Result<(), Fail> {
    let alloc: Global = rt.alloc();
    let mut table = Table::new(alloc)?;
    assert_eq!(rt; table.function_type(&[BOOL, BV4], REAL), Ok(FUN));
    assert_eq!(rt; table.new_constant(BOOL), Ok(P));
    assert_eq!(rt; table.new_constant(REAL), Ok(X));
    assert_eq!(rt; table.new_variable(BV4), Ok(V));
    assert_eq!(rt; table.new_constant(BV8), Ok(W));
    assert_eq!(rt; table.new_constant(FUN), Ok(F));
    check_rows(&rt, alloc, &table, &ROWS)?;
    Ok(())
}
