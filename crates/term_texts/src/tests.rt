// The texts of types and terms in a small table, worked out by hand from the description of the printed forms.
use super::*;
use fraction128::Frac;
use std::alloc::{AllocError, Global};
use std::process::Abort;
use std::test::Fail;
use term_table::{Args, Monomial, Monomials, Shape, Table, TableError, Term, TypeId};
use y_tree::{BvAtOp, BvOp};

// The types of the table: permanent ones, uninterpreted ones without and with a name, and types of functions.
const BOOL: TypeId = TypeId { slot: 0, stamp: 0 };

const REAL: TypeId = TypeId { slot: 1, stamp: 0 };

const BV1: TypeId = TypeId { slot: 2, stamp: 0 };

const BV4: TypeId = TypeId { slot: 5, stamp: 0 };

const BV8: TypeId = TypeId { slot: 9, stamp: 0 };

const BV128: TypeId = TypeId {
    slot: 129,
    stamp: 0,
};

const PLAIN: TypeId = TypeId {
    slot: 130,
    stamp: 0,
};

const NAMED: TypeId = TypeId {
    slot: 131,
    stamp: 0,
};

const ONE: TypeId = TypeId {
    slot: 132,
    stamp: 0,
};

const TWO: TypeId = TypeId {
    slot: 133,
    stamp: 0,
};

const MANY: TypeId = TypeId {
    slot: 134,
    stamp: 0,
};

/// The types of functions: of the arguments, of the value, and the handle that each gets.
const FUNCTIONS: [(&[TypeId], TypeId, TypeId); 3] = [
    (&[BOOL], BOOL, ONE),
    (&[BOOL, BOOL], BOOL, TWO),
    (&[PLAIN, BV8, REAL], NAMED, MANY),
];

/// Types with their texts.
const TYPES: [(TypeId, &str); 10] = [
    (BOOL, "bool"),
    (REAL, "real"),
    (BV1, "(bitvector 1)"),
    (BV8, "(bitvector 8)"),
    (BV128, "(bitvector 128)"),
    (PLAIN, "t!0"),
    (NAMED, "T"),
    (ONE, "(-> bool bool)"),
    (TWO, "(-> bool bool bool)"),
    (MANY, "(-> t!0 (bitvector 8) real T)"),
];

// Its constants, variables and the terms that stand in others.
const P: Term = Term { slot: 2, stamp: 0 };

const Q: Term = Term { slot: 3, stamp: 0 };

const X: Term = Term { slot: 4, stamp: 0 };

const Y: Term = Term { slot: 5, stamp: 0 };

const A: Term = Term { slot: 6, stamp: 0 };

const B: Term = Term { slot: 7, stamp: 0 };

const F: Term = Term { slot: 8, stamp: 0 };

const G: Term = Term { slot: 9, stamp: 0 };

const H: Term = Term { slot: 10, stamp: 0 };

const E: Term = Term { slot: 11, stamp: 0 };

const C: Term = Term { slot: 12, stamp: 0 };

const V: Term = Term { slot: 13, stamp: 0 };

const W: Term = Term { slot: 14, stamp: 0 };

const BOTH: Term = Term { slot: 15, stamp: 0 };

const APPLIED: Term = Term { slot: 16, stamp: 0 };

const CHANGED: Term = Term { slot: 17, stamp: 0 };

const FIVE: Term = Term { slot: 18, stamp: 0 };

const HALF_MORE: Term = Term { slot: 19, stamp: 0 };

const TWICE: Term = Term { slot: 20, stamp: 0 };

/// Whether the atom is a variable, its type, its name, the handle that it gets, and its text.
const ATOMS: [(bool, TypeId, Option<&str>, Term, &str); 13] = [
    (false, BOOL, Some("p"), P, "p"),
    (false, BOOL, None, Q, "c!1"),
    (false, REAL, Some("x"), X, "x"),
    (false, REAL, None, Y, "c!3"),
    (false, BV4, Some("a"), A, "a"),
    (false, BV4, None, B, "c!5"),
    (false, ONE, Some("f"), F, "f"),
    (false, TWO, None, G, "c!7"),
    (false, MANY, Some("h"), H, "h"),
    (false, PLAIN, Some("e"), E, "e"),
    (false, BV8, Some("c"), C, "c"),
    (true, BOOL, None, V, "v!0"),
    (true, BOOL, Some("w"), W, "w"),
];

/// An operator with its numbers, where a fraction is a numerator and a denominator. A sum has the factors of its first term
/// and of the others, and its constant.
#[derive(Clone, Copy, Drop)]
enum Op {
    True,
    False,
    Number(i128, i128),
    Bits(u32, u128),
    Not,
    And,
    Or,
    Xor,
    Ite,
    Eq,
    Distinct,
    App,
    Update,
    Sum((i128, i128), (i128, i128), (i128, i128)),
    NonNeg,
    Bv(BvOp),
    BvAt(BvAtOp, u32, u32),
}

/// The terms that stand in others, with the handles that they get.
const PARTS: [(Op, &[Term], Term); 6] = [
    (Op::And, &[P, Q], BOTH),
    (Op::App, &[F, P], APPLIED),
    (Op::Update, &[F, P, Q], CHANGED),
    (Op::Bits(4, 5), &[], FIVE),
    (Op::Sum((1, 1), (1, 1), (1, 2)), &[X], HALF_MORE),
    (Op::Sum((2, 1), (1, 1), (0, 1)), &[X], TWICE),
];

/// Truth values, choices and equalities with their texts.
const TRUTHS: [(Op, &[Term], &str); 22] = [
    (Op::True, &[], "true"),
    (Op::False, &[], "false"),
    (Op::Not, &[P], "(not p)"),
    (Op::Not, &[BOTH], "(not (and p c!1))"),
    (Op::And, &[P], "(and p)"),
    (Op::And, &[P, Q], "(and p c!1)"),
    (Op::And, &[P, V, P, W], "(and p v!0 p w)"),
    (Op::And, &[BOTH, BOTH], "(and (and p c!1) (and p c!1))"),
    (Op::Or, &[P], "(or p)"),
    (Op::Or, &[Q, BOTH, P], "(or c!1 (and p c!1) p)"),
    (Op::Xor, &[P], "(xor p)"),
    (Op::Xor, &[P, V, Q], "(xor p v!0 c!1)"),
    (Op::Ite, &[BOTH, Q, P], "(ite (and p c!1) c!1 p)"),
    (Op::Ite, &[P, X, Y], "(ite p x c!3)"),
    (Op::Ite, &[P, F, CHANGED], "(ite p f (update f (p) c!1))"),
    (Op::Eq, &[P, BOTH], "(= p (and p c!1))"),
    (Op::Eq, &[X, Y], "(= x c!3)"),
    (Op::Eq, &[A, FIVE], "(= a 0b0101)"),
    (Op::Eq, &[F, F], "(= f f)"),
    (Op::Eq, &[E, E], "(= e e)"),
    (Op::Distinct, &[E], "(distinct e)"),
    (Op::Distinct, &[X, Y, TWICE], "(distinct x c!3 (* 2 x))"),
];

/// Applications and updates with their texts.
const CALLS: [(Op, &[Term], &str); 8] = [
    (Op::App, &[F, P], "(f p)"),
    (Op::App, &[F, APPLIED], "(f (f p))"),
    (Op::App, &[G, P, Q], "(c!7 p c!1)"),
    (Op::App, &[H, E, C, X], "(h e c x)"),
    (Op::App, &[CHANGED, Q], "((update f (p) c!1) c!1)"),
    (Op::Update, &[F, P, Q], "(update f (p) c!1)"),
    (Op::Update, &[G, Q, P, P], "(update c!7 (c!1 p) p)"),
    (
        Op::Update,
        &[CHANGED, APPLIED, BOTH],
        "(update (update f (p) c!1) ((f p)) (and p c!1))",
    ),
];

/// Numbers, sums and comparisons with their texts.
const NUMBERS: [(Op, &[Term], &str); 22] = [
    (Op::Number(0, 1), &[], "0"),
    (Op::Number(7, 1), &[], "7"),
    (Op::Number(-7, 1), &[], "-7"),
    (Op::Number(1, 2), &[], "1/2"),
    (Op::Number(6, -4), &[], "-3/2"),
    (
        Op::Number(i128::MAX, 1),
        &[],
        "170141183460469231731687303715884105727",
    ),
    (Op::Sum((1, 1), (1, 1), (0, 1)), &[], "0"),
    (Op::Sum((1, 1), (1, 1), (-3, 1)), &[], "-3"),
    (Op::Sum((1, 1), (1, 1), (5, 2)), &[], "5/2"),
    (Op::Sum((1, 1), (1, 1), (0, 1)), &[X], "x"),
    (Op::Sum((1, 2), (1, 1), (0, 1)), &[X], "(* 1/2 x)"),
    (Op::Sum((-1, 1), (1, 1), (0, 1)), &[X], "(* -1 x)"),
    (Op::Sum((0, 1), (1, 1), (0, 1)), &[X], "(* 0 x)"),
    (Op::Sum((1, 1), (1, 1), (1, 2)), &[X], "(+ x 1/2)"),
    (
        Op::Sum((-2, 3), (1, 1), (-1, 1)),
        &[Y],
        "(+ (* -2/3 c!3) -1)",
    ),
    (
        Op::Sum((-3, 1), (1, 1), (0, 1)),
        &[X, Y],
        "(+ (* -3 x) c!3)",
    ),
    (
        Op::Sum((1, 1), (1, 2), (1, 1)),
        &[X, Y],
        "(+ x (* 1/2 c!3) 1)",
    ),
    (
        Op::Sum((1, 1), (4, 1), (0, 1)),
        &[X, Y, HALF_MORE],
        "(+ x (* 4 c!3) (* 4 (+ x 1/2)))",
    ),
    (
        Op::Sum((2, 1), (1, 1), (0, 1)),
        &[Y, HALF_MORE, X],
        "(+ (* 2 c!3) (+ x 1/2) x)",
    ),
    (Op::NonNeg, &[X], "(>= x 0)"),
    (Op::NonNeg, &[TWICE], "(>= (* 2 x) 0)"),
    (Op::NonNeg, &[HALF_MORE], "(>= (+ x 1/2) 0)"),
];

/// Operators on bit-vectors with their texts.
const OPERATORS: [(Op, &[Term], &str); 26] = [
    (Op::Bv(BvOp::Add), &[A, FIVE], "(bv-add a 0b0101)"),
    (Op::Bv(BvOp::Add), &[A], "(bv-add a)"),
    (Op::Bv(BvOp::Sub), &[A, B], "(bv-sub a c!5)"),
    (Op::Bv(BvOp::Mul), &[A, B, A], "(bv-mul a c!5 a)"),
    (Op::Bv(BvOp::Neg), &[A], "(bv-neg a)"),
    (Op::Bv(BvOp::Div), &[A, B], "(bv-div a c!5)"),
    (Op::Bv(BvOp::Rem), &[A, B], "(bv-rem a c!5)"),
    (Op::Bv(BvOp::Sdiv), &[A, B], "(bv-sdiv a c!5)"),
    (Op::Bv(BvOp::Srem), &[A, B], "(bv-srem a c!5)"),
    (Op::Bv(BvOp::Smod), &[A, B], "(bv-smod a c!5)"),
    (Op::Bv(BvOp::Not), &[A], "(bv-not a)"),
    (Op::Bv(BvOp::And), &[A, B], "(bv-and a c!5)"),
    (Op::Bv(BvOp::Or), &[A, B], "(bv-or a c!5)"),
    (Op::Bv(BvOp::Xor), &[A, B], "(bv-xor a c!5)"),
    (Op::Bv(BvOp::Shl), &[A, B], "(bv-shl a c!5)"),
    (Op::Bv(BvOp::Lshr), &[A, B], "(bv-lshr a c!5)"),
    (Op::Bv(BvOp::Ashr), &[A, B], "(bv-ashr a c!5)"),
    (Op::Bv(BvOp::Concat), &[A, C, B], "(bv-concat a c c!5)"),
    (Op::Bv(BvOp::Ge), &[A, B], "(bv-ge a c!5)"),
    (Op::Bv(BvOp::Gt), &[A, B], "(bv-gt a c!5)"),
    (Op::Bv(BvOp::Le), &[A, B], "(bv-le a c!5)"),
    (Op::Bv(BvOp::Lt), &[A, B], "(bv-lt a c!5)"),
    (Op::Bv(BvOp::Sge), &[A, B], "(bv-sge a c!5)"),
    (Op::Bv(BvOp::Sgt), &[A, B], "(bv-sgt a c!5)"),
    (Op::Bv(BvOp::Sle), &[A, B], "(bv-sle a c!5)"),
    (Op::Bv(BvOp::Slt), &[A, B], "(bv-slt a c!5)"),
];

/// Bit-vectors and operators with numbers with their texts.
const BITS: [(Op, &[Term], &str); 10] = [
    (Op::Bits(1, 0), &[], "0b0"),
    (Op::Bits(4, 5), &[], "0b0101"),
    (Op::Bits(8, 255), &[], "0b11111111"),
    (Op::Bits(8, 1), &[], "0b00000001"),
    (Op::BvAt(BvAtOp::Extract, 2, 1), &[A], "(bv-extract 2 1 a)"),
    (
        Op::BvAt(BvAtOp::Extract, 0, 0),
        &[FIVE],
        "(bv-extract 0 0 0b0101)",
    ),
    (
        Op::BvAt(BvAtOp::ShiftLeft0, 3, 0),
        &[A],
        "(bv-shift-left0 a 3)",
    ),
    (
        Op::BvAt(BvAtOp::ShiftRight0, 4, 0),
        &[A],
        "(bv-shift-right0 a 4)",
    ),
    (
        Op::BvAt(BvAtOp::SignExtend, 0, 0),
        &[A],
        "(bv-sign-extend a 0)",
    ),
    (
        Op::BvAt(BvAtOp::ZeroExtend, 12, 0),
        &[A],
        "(bv-zero-extend a 12)",
    ),
];

fn at(on: &[Term], place: usize) -> Term {
    on.get(place).copied().unwrap_or(P)
}

fn fraction(parts: (i128, i128)) -> Frac {
    Frac::new(parts.0, parts.1).unwrap_or(Frac::zero())
}

/// The terms from that place on, and before that other one.
fn args(alloc: Global, on: &[Term], from: usize, to: usize) -> Result<Args, AllocError> {
    let mut args = Args::new(alloc);
    for place in from..to {
        args.push(at(on, place))?;
    }
    Ok(args)
}

fn monomials(
    alloc: Global,
    on: &[Term],
    first: Frac,
    others: Frac,
) -> Result<Monomials, AllocError> {
    let mut monomials = Monomials::new(alloc);
    let mut factor = first;
    for t in on {
        monomials.push(Monomial { factor, of: *t })?;
        factor = others;
    }
    Ok(monomials)
}

/// The shape of an operator over terms.
fn shape_of(alloc: Global, op: Op, on: &[Term]) -> Result<Shape, AllocError> {
    let (first, second, third) = (at(on, 0), at(on, 1), at(on, 2));
    let last = on.len().saturating_sub(1);
    Ok(match op {
        Op::True => Shape::True,
        Op::False => Shape::False,
        Op::Number(num, den) => Shape::Number(fraction((num, den))),
        Op::Bits(width, bits) => Shape::Bits { width, bits },
        Op::Not => Shape::Not(first),
        Op::And => Shape::And(args(alloc, on, 0, on.len())?),
        Op::Or => Shape::Or(args(alloc, on, 0, on.len())?),
        Op::Xor => Shape::Xor(args(alloc, on, 0, on.len())?),
        Op::Ite => Shape::Ite(first, second, third),
        Op::Eq => Shape::Eq(first, second),
        Op::Distinct => Shape::Distinct(args(alloc, on, 0, on.len())?),
        Op::App => Shape::App(first, args(alloc, on, 1, on.len())?),
        Op::Update => Shape::Update(first, args(alloc, on, 1, last)?, at(on, last)),
        Op::Sum(one, others, constant) => Shape::Sum(
            monomials(alloc, on, fraction(one), fraction(others))?,
            fraction(constant),
        ),
        Op::NonNeg => Shape::NonNeg(first),
        Op::Bv(op) => Shape::Bv(op, args(alloc, on, 0, on.len())?),
        Op::BvAt(op, i, j) => Shape::BvAt(op, i, j, first),
    })
}

/// The term of a shape that has a type.
fn add(table: &mut Table, shape: Shape) -> Result<Term, TableError> {
    match table.check_shape(&shape) {
        Ok(_) => table.add(shape),
        Err(_) => Err(TableError::DeadTerm),
    }
}

fn check_text(rt: &impl Abort, alloc: Global, table: &Table, t: Term, text: &str) {
    let written = write_term(alloc, table, t).expect(rt, "a text");
    assert_eq!(rt; written.as_str(), text);
}

fn check_types(rt: &impl Abort, alloc: Global, table: &Table, rows: &[(TypeId, &str)]) {
    for (of, text) in rows {
        let written = write_type(alloc, table, *of).expect(rt, "a text");
        assert_eq!(rt; written.as_str(), *text);
    }
}

fn make_atoms(
    rt: &impl Abort,
    alloc: Global,
    table: &mut Table,
    rows: &[(bool, TypeId, Option<&str>, Term, &str)],
) {
    for (is_variable, of, name, t, text) in rows {
        let made = if *is_variable {
            table.new_variable(*of)
        } else {
            table.new_constant(*of)
        };
        assert_eq!(rt; made, Ok(*t));
        if let Some(name) = name {
            assert_eq!(rt; table.set_name(name, *t), Ok(()));
        }
        check_text(rt, alloc, table, *t, text);
    }
}

fn make_parts(
    rt: &impl Abort,
    alloc: Global,
    table: &mut Table,
    rows: &[(Op, &[Term], Term)],
) -> Result<(), AllocError> {
    for row in rows {
        let shape = shape_of(alloc, row.0, row.1)?;
        assert_eq!(rt; add(table, shape), Ok(row.2));
    }
    Ok(())
}

fn check_terms(
    rt: &impl Abort,
    alloc: Global,
    table: &mut Table,
    rows: &[(Op, &[Term], &str)],
) -> Result<(), AllocError> {
    for row in rows {
        let shape = shape_of(alloc, row.0, row.1)?;
        let t = add(table, shape).expect(rt, "a term");
        check_text(rt, alloc, table, t, row.2);
    }
    Ok(())
}

/// Names of terms that are no constants, of types that aren't uninterpreted, and second names.
fn give_more_names(rt: &impl Abort, table: &mut Table) {
    assert_eq!(rt; table.set_name("both", BOTH), Ok(()));
    assert_eq!(rt; table.set_name("again", P), Ok(()));
    assert_eq!(rt; table.set_type_name("truth", BOOL), Ok(()));
    assert_eq!(rt; table.set_type_name("U", NAMED), Ok(()));
}

fn make_types(rt: &impl Abort, table: &mut Table) {
    assert_eq!(rt; table.new_type(), Ok(PLAIN));
    assert_eq!(rt; table.new_type(), Ok(NAMED));
    assert_eq!(rt; table.set_type_name("T", NAMED), Ok(()));
}

fn make_functions(rt: &impl Abort, table: &mut Table, rows: &[(&[TypeId], TypeId, TypeId)]) {
    for row in rows {
        assert_eq!(rt; table.function_type(row.0, row.1), Ok(row.2));
    }
}

/// These types and atoms, and the terms that stand in others.
fn fill(rt: &impl Abort, alloc: Global, table: &mut Table) -> Result<(), AllocError> {
    make_types(rt, table);
    make_functions(rt, table, &FUNCTIONS);
    make_atoms(rt, alloc, table, &ATOMS);
    make_parts(rt, alloc, table, &PARTS)?;
    give_more_names(rt, table);
    Ok(())
}

fn check_truths(rt: &impl Abort, alloc: Global, table: &mut Table) -> Result<(), AllocError> {
    check_terms(rt, alloc, table, &TRUTHS)
}

fn check_calls(rt: &impl Abort, alloc: Global, table: &mut Table) -> Result<(), AllocError> {
    check_terms(rt, alloc, table, &CALLS)
}

fn check_numbers(rt: &impl Abort, alloc: Global, table: &mut Table) -> Result<(), AllocError> {
    check_terms(rt, alloc, table, &NUMBERS)
}

fn check_operators(rt: &impl Abort, alloc: Global, table: &mut Table) -> Result<(), AllocError> {
    check_terms(rt, alloc, table, &OPERATORS)
}

fn check_bits(rt: &impl Abort, alloc: Global, table: &mut Table) -> Result<(), AllocError> {
    check_terms(rt, alloc, table, &BITS)
}

fn check_all(rt: &impl Abort, alloc: Global, table: &mut Table) -> Result<(), AllocError> {
    check_types(rt, alloc, table, &TYPES);
    check_truths(rt, alloc, table)?;
    check_calls(rt, alloc, table)?;
    check_numbers(rt, alloc, table)?;
    check_operators(rt, alloc, table)?;
    check_bits(rt, alloc, table)
}

#[test]
fn each_shape_has_its_text(rt: HostRuntime) -> Result<(), Fail> {
    let alloc: Global = rt.alloc();
    let mut table = Table::new(alloc)?;
    fill(&rt, alloc, &mut table)?;
    check_all(&rt, alloc, &mut table)?;
    Ok(())
}
