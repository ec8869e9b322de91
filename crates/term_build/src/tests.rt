// The answers of constructors in a small table, worked out by hand from the rules; each row stands on the rows before it.
use super::*;
use std::alloc::{AllocError, Global};
use std::process::Abort;
use std::test::Fail;
use term_table::{Args, Shape, Table, Term, TypeId, Wanted};

// The types of the table.
const BOOL: TypeId = TypeId { slot: 0, stamp: 0 };

const REAL: TypeId = TypeId { slot: 1, stamp: 0 };

// Its terms: the truth values, three constants of truth values, three real ones, and a handle that was never given.
const T: Term = Term { slot: 0, stamp: 0 };

const F: Term = Term { slot: 1, stamp: 0 };

const P: Term = Term { slot: 2, stamp: 0 };

const Q: Term = Term { slot: 3, stamp: 0 };

const R: Term = Term { slot: 4, stamp: 0 };

const X: Term = Term { slot: 5, stamp: 0 };

const Y: Term = Term { slot: 6, stamp: 0 };

const Z: Term = Term { slot: 7, stamp: 0 };

const D: Term = Term {
    slot: 900,
    stamp: 0,
};

// What the rows make, in their order: not p; p and q; not p or q; p = q; p xor q xor r; x = y; not x = y.
const NOT_P: Term = Term { slot: 8, stamp: 0 };

const P_AND_Q: Term = Term { slot: 9, stamp: 0 };

const P_IMPLIES_Q: Term = Term { slot: 10, stamp: 0 };

const P_IS_Q: Term = Term { slot: 11, stamp: 0 };

const ODD: Term = Term { slot: 13, stamp: 0 };

const X_IS_Y: Term = Term { slot: 15, stamp: 0 };

const X_IS_NOT_Y: Term = Term { slot: 16, stamp: 0 };

/// What a call answers: the term itself, a term of that shape over the listed ones, or a refusal.
#[derive(Clone, Copy, Drop)]
enum Is {
    It,
    Not,
    And,
    Or,
    Xor,
    Ite,
    Eq,
    Distinct,
    Dead(usize),
    Arity(usize),
    Wrong(usize, Wanted, TypeId),
}

/// A call, and its answer over the listed terms.
type Row<'a> = (Operator, &'a [Term], Is, &'a [Term]);

const ROWS: [(Operator, &[Term], Is, &[Term]); 40] = [
    (Operator::Not, &[P], Is::Not, &[P]),
    (Operator::Not, &[NOT_P], Is::It, &[P]),
    (Operator::Not, &[T], Is::It, &[F]),
    (Operator::Not, &[F], Is::It, &[T]),
    (Operator::And, &[], Is::It, &[T]),
    (Operator::Or, &[], Is::It, &[F]),
    (Operator::Xor, &[], Is::It, &[F]),
    (Operator::And, &[Q, P, Q], Is::And, &[P, Q]),
    (Operator::And, &[P, T], Is::It, &[P]),
    (Operator::And, &[NOT_P, Q, P], Is::It, &[F]),
    (Operator::Or, &[P, NOT_P], Is::It, &[T]),
    (Operator::Or, &[Q, F, NOT_P], Is::Or, &[NOT_P, Q]),
    (Operator::Xor, &[P, Q, P], Is::It, &[Q]),
    (Operator::Iff, &[Q, P], Is::Eq, &[P, Q]),
    (Operator::Xor, &[P, Q], Is::Not, &[P_IS_Q]),
    (Operator::Xor, &[R, Q, P], Is::Xor, &[P, Q, R]),
    (Operator::Xor, &[NOT_P, Q, R], Is::Not, &[ODD]),
    (Operator::Implies, &[P, P], Is::It, &[T]),
    (Operator::Implies, &[P, Q], Is::It, &[P_IMPLIES_Q]),
    (Operator::Iff, &[P, NOT_P], Is::It, &[F]),
    (Operator::Eq, &[Y, X], Is::Eq, &[X, Y]),
    (Operator::Neq, &[X, Y], Is::Not, &[X_IS_Y]),
    (Operator::Neq, &[X, X], Is::It, &[F]),
    (Operator::Ite, &[NOT_P, X, Y], Is::Ite, &[P, Y, X]),
    (Operator::Ite, &[P, X, X], Is::It, &[X]),
    (Operator::Ite, &[P, Q, F], Is::It, &[P_AND_Q]),
    (Operator::Ite, &[P, Q, T], Is::It, &[P_IMPLIES_Q]),
    (Operator::Ite, &[F, X, Y], Is::It, &[Y]),
    (Operator::Distinct, &[X], Is::It, &[T]),
    (Operator::Distinct, &[Y, X], Is::It, &[X_IS_NOT_Y]),
    (Operator::Distinct, &[Z, X, Y], Is::Distinct, &[X, Y, Z]),
    (Operator::Distinct, &[X, Y, X], Is::It, &[F]),
    (Operator::Distinct, &[P, Q, R], Is::It, &[F]),
    (Operator::Distinct, &[], Is::Arity(0), &[]),
    (Operator::Iff, &[P], Is::Arity(1), &[]),
    (
        Operator::And,
        &[P, X],
        Is::Wrong(2, Wanted::Bool, REAL),
        &[],
    ),
    (
        Operator::Ite,
        &[P, X, Q],
        Is::Wrong(3, Wanted::Same(REAL), BOOL),
        &[],
    ),
    (Operator::And, &[X, D, D], Is::Dead(2), &[]),
    (Operator::Implies, &[D], Is::Dead(1), &[]),
    (Operator::And, &[Q, P], Is::It, &[P_AND_Q]),
];

fn at(on: &[Term], place: usize) -> Term {
    on.get(place).copied().unwrap_or(D)
}

fn args(alloc: Global, on: &[Term]) -> Result<Args, AllocError> {
    let mut args = Args::new(alloc);
    for t in on {
        args.push(*t)?;
    }
    Ok(args)
}

/// The shape over the listed terms; truth where there is none.
fn shape_of(alloc: Global, is: Is, on: &[Term]) -> Result<Shape, AllocError> {
    let (first, second, third) = (at(on, 0), at(on, 1), at(on, 2));
    Ok(match is {
        Is::Not => Shape::Not(first),
        Is::And => Shape::And(args(alloc, on)?),
        Is::Or => Shape::Or(args(alloc, on)?),
        Is::Xor => Shape::Xor(args(alloc, on)?),
        Is::Ite => Shape::Ite(first, second, third),
        Is::Eq => Shape::Eq(first, second),
        Is::Distinct => Shape::Distinct(args(alloc, on)?),
        _ => Shape::True,
    })
}

/// The refusal that is told.
fn refusal(is: Is) -> Option<BuildError> {
    match is {
        Is::Dead(place) => Some(BuildError::DeadTerm(place)),
        Is::Arity(number) => Some(BuildError::BadArity(number)),
        Is::Wrong(place, wanted, found) => {
            Some(BuildError::WrongType {
                place,
                wanted,
                found,
            })
        }
        _ => None,
    }
}

/// Whether the term is the listed one, or has that shape over the listed ones.
fn stands_for(
    alloc: Global,
    table: &Table,
    t: Term,
    is: Is,
    on: &[Term],
) -> Result<bool, AllocError> {
    if let Is::It = is {
        return Ok(t == at(on, 0));
    }
    let wanted = shape_of(alloc, is, on)?;
    match table.shape(t) {
        Some(shape) => Ok(*shape == wanted),
        None => Ok(false),
    }
}

/// Whether the call has its answer.
fn has_answer(alloc: Global, table: &mut Table, row: &Row) -> Result<bool, AllocError> {
    match build(alloc, table, row.0, row.1) {
        Ok(t) => stands_for(alloc, table, t, row.2, row.3),
        Err(e) => Ok(refusal(row.2) == Some(e)),
    }
}

fn check_rows(
    rt: &impl Abort,
    alloc: Global,
    table: &mut Table,
    rows: &[Row],
) -> Result<(), AllocError> {
    for (i, row) in rows.iter().enumerate() {
        let holds = has_answer(alloc, table, row)?;
        assert!(rt; holds, "at row {i}");
    }
    Ok(())
}

fn small_table(rt: &impl Abort, alloc: Global) -> Result<Table, Fail> {
    let mut table = Table::new(alloc)?;
    assert_eq!(rt; table.new_constant(BOOL), Ok(P));
    assert_eq!(rt; table.new_constant(BOOL), Ok(Q));
    assert_eq!(rt; table.new_constant(BOOL), Ok(R));
    assert_eq!(rt; table.new_constant(REAL), Ok(X));
    assert_eq!(rt; table.new_constant(REAL), Ok(Y));
    assert_eq!(rt; table.new_constant(REAL), Ok(Z));
    Ok(table)
}

#[test]
fn each_constructor_simplifies(rt: HostRuntime) -> Result<(), Fail> {
    let alloc: Global = rt.alloc();
    let mut table = small_table(&rt, alloc)?;
    check_rows(&rt, alloc, &mut table, &ROWS)?;
    Ok(())
}

#[test]
fn each_call_is_its_constructor(rt: HostRuntime) -> Result<(), Fail> {
    let alloc: Global = rt.alloc();
    let mut made = small_table(&rt, alloc)?;
    let table = &mut made;
    assert_eq!(rt; not(alloc, table, T), Ok(F));
    assert_eq!(rt; and(alloc, table, &[T, P]), Ok(P));
    assert_eq!(rt; or(alloc, table, &[F, P]), Ok(P));
    assert_eq!(rt; xor(alloc, table, &[P, Q, P]), Ok(Q));
    assert_eq!(rt; implies(alloc, table, T, P), Ok(P));
    assert_eq!(rt; iff(alloc, table, T, P), Ok(P));
    assert_eq!(rt; ite(alloc, table, F, X, Y), Ok(Y));
    assert_eq!(rt; eq(alloc, table, X, X), Ok(T));
    assert_eq!(rt; neq(alloc, table, X, X), Ok(F));
    assert_eq!(rt; distinct(alloc, table, &[X, Y, X]), Ok(F));
    Ok(())
}
