// Values at the edges of 127 bits, worked out with whole numbers of any size.
use super::*;
use std::alloc::Global;
use std::cmp::Ordering;
use std::process::Abort;
use std::test::Fail;

// A numerator and a denominator.
type Parts = (i128, i128);

// The parts of a number and of its infinitesimal part.
type DeltaParts = (Parts, Parts);

fn parts(f: Frac) -> Parts {
    (f.numer(), f.denom())
}

fn fraction(parts: Parts) -> Result<Frac, FracError> {
    Frac::new(parts.0, parts.1)
}

fn delta(parts: DeltaParts) -> Result<Delta, FracError> {
    let real = fraction(parts.0)?;
    let inf = fraction(parts.1)?;
    Ok(Delta { real, inf })
}

fn run(op: Op, left: Frac, right: Frac) -> Option<Result<Frac, Wide>> {
    match op {
        Op::Add => Some(left.add(right)),
        Op::Sub => Some(left.sub(right)),
        Op::Mul => Some(left.mul(right)),
        Op::Div if right.is_zero() => None,
        Op::Div => Some(left.div(right)),
    }
}

// The product is that by the right operand's `real`.
fn run_delta(op: Op, left: Delta, right: Delta) -> Result<Delta, Wide> {
    match op {
        Op::Add => left.add(right),
        Op::Sub => left.sub(right),
        _ => left.scale(right.real),
    }
}

fn check_wide(rt: &impl Abort, wide: Wide, op: Op, left: Parts, right: Parts) {
    assert_eq!(rt; wide.op, op);
    assert_eq!(rt; parts(wide.left), left);
    assert_eq!(rt; parts(wide.right), right);
}

fn check_new(rt: &impl Abort, rows: &[(Parts, Result<Parts, FracError>)]) {
    for (given, expected) in rows {
        assert_eq!(rt; Frac::new(given.0, given.1).map(parts), *expected);
    }
}

fn check_operations(
    rt: &impl Abort,
    rows: &[(Op, Parts, Parts, Option<Parts>)],
) -> Result<(), FracError> {
    for (op, left, right, expected) in rows {
        match (run(*op, fraction(*left)?, fraction(*right)?), *expected) {
            (Some(Ok(result)), Some(value)) => assert_eq!(rt; parts(result), value),
            (Some(Err(wide)), None) => check_wide(rt, wide, *op, *left, *right),
            _ => assert!(rt; false, "the other answer"),
        }
    }
    Ok(())
}

fn check_order(rt: &impl Abort, rows: &[(Parts, Parts, Ordering)]) -> Result<(), FracError> {
    for (left, right, expected) in rows {
        let left = fraction(*left)?;
        let right = fraction(*right)?;
        assert_eq!(rt; left.cmp(right), *expected);
        assert_eq!(rt; right.cmp(left), expected.reverse());
        assert_eq!(rt; left == right, *expected == Ordering::Equal);
        assert_eq!(rt; left < right, *expected == Ordering::Less);
    }
    Ok(())
}

// An `Err` has the operands of the part that is wide.
fn check_deltas(
    rt: &impl Abort,
    rows: &[(
        Op,
        DeltaParts,
        DeltaParts,
        Result<DeltaParts, (Parts, Parts)>,
    )],
) -> Result<(), FracError> {
    for (op, left, right, expected) in rows {
        match (run_delta(*op, delta(*left)?, delta(*right)?), *expected) {
            (Ok(result), Ok(value)) => {
                assert_eq!(rt; (parts(result.real), parts(result.inf)), value);
            }
            (Err(wide), Err(operands)) => check_wide(rt, wide, *op, operands.0, operands.1),
            _ => assert!(rt; false, "the other answer"),
        }
    }
    Ok(())
}

#[test]
fn edges_of_127_bits(rt: HostRuntime) -> Result<(), Fail> {
    check_new(&rt, NEW.as_slice());
    check_operations(&rt, OPERATIONS.as_slice())?;
    check_order(&rt, ORDER.as_slice())?;
    check_deltas(&rt, DELTAS.as_slice())?;
    Ok(())
}

fn order(left: DeltaParts, right: DeltaParts) -> Result<Ordering, FracError> {
    Ok(delta(left)?.cmp(delta(right)?))
}

#[test]
fn infinitesimals_order_by_real_first(rt: HostRuntime) -> Result<(), Fail> {
    let half = (1, 2);
    let one = (1, 1);
    assert_eq!(rt; order((half, half), (half, one))?, Ordering::Less);
    assert_eq!(rt; order((one, half), (half, one))?, Ordering::Greater);
    assert_eq!(rt; order((half, one), (half, one))?, Ordering::Equal);
    Ok(())
}

#[test]
fn units(rt: HostRuntime) -> Result<(), Fail> {
    assert_eq!(rt; parts(Frac::zero()), (0, 1));
    assert_eq!(rt; parts(Frac::one()), (1, 1));
    assert!(rt; Frac::zero().is_zero());
    assert!(rt; !Frac::one().is_zero());
    assert_eq!(rt; parts(fraction((-i128::MAX, 2))?.neg()), (i128::MAX, 2));
    Ok(())
}

#[test]
fn text_shows_a_denominator_above_one(rt: HostRuntime) -> Result<(), Fail> {
    let alloc: Global = rt.alloc();
    let least = fraction((-i128::MAX, 2))?;
    assert_eq!(rt;
        format!(in alloc; "{least}")?.as_str(),
        "-170141183460469231731687303715884105727/2"
    );
    assert_eq!(rt; format!(in alloc; "{}", Frac::one())?.as_str(), "1");
    Ok(())
}

const DELTAS: [(
    Op,
    DeltaParts,
    DeltaParts,
    Result<DeltaParts, (Parts, Parts)>,
); 9] = [
    (
        Op::Add,
        ((1, 2), (-1, 3)),
        ((-1, 3), (1, 2)),
        Ok(((1, 6), (1, 6))),
    ),
    (
        Op::Sub,
        ((1, 2), (-1, 3)),
        ((-1, 3), (1, 2)),
        Ok(((5, 6), (-5, 6))),
    ),
    (
        Op::Mul,
        ((1, 2), (-1, 3)),
        ((-1, 3), (0, 1)),
        Ok(((-1, 6), (1, 9))),
    ),
    (
        Op::Add,
        ((i128::MAX, 1), (i128::MAX, 1)),
        ((1, 1), (1, 2)),
        Err(((i128::MAX, 1), (1, 1))),
    ),
    (
        Op::Add,
        ((0, 1), (i128::MAX, 1)),
        ((1, 1), (1, 2)),
        Err(((i128::MAX, 1), (1, 2))),
    ),
    (
        Op::Sub,
        ((-i128::MAX, 1), (i128::MAX, 1)),
        ((1, 1), (1, 2)),
        Err(((-i128::MAX, 1), (1, 1))),
    ),
    (
        Op::Sub,
        ((i128::MAX, 1), (0, 1)),
        ((1, 1), (i128::MAX, 1)),
        Ok(((i128::MAX - 1, 1), (-i128::MAX, 1))),
    ),
    (
        Op::Mul,
        ((i128::MAX, 1), (i128::MAX, 2)),
        ((2, 1), (0, 1)),
        Err(((i128::MAX, 1), (2, 1))),
    ),
    (
        Op::Mul,
        ((1, 2), (i128::MAX, 1)),
        ((2, 1), (0, 1)),
        Err(((i128::MAX, 1), (2, 1))),
    ),
];

const NEW: [(Parts, Result<Parts, FracError>); 33] = [
    ((6, -4), Ok((-3, 2))),
    ((i128::MIN, 1), Err(FracError::Wide)),
    ((i128::MIN, 2), Ok((i128::MIN / 2, 1))),
    ((5, 0), Err(FracError::ZeroDen)),
    ((0, 0), Err(FracError::ZeroDen)),
    ((i128::MIN, 0), Err(FracError::ZeroDen)),
    ((0, i128::MIN), Ok((0, 1))),
    ((0, -7), Ok((0, 1))),
    ((i128::MIN, i128::MIN), Ok((1, 1))),
    ((i128::MIN, -1), Err(FracError::Wide)),
    ((-1, i128::MIN), Err(FracError::Wide)),
    ((1, i128::MIN), Err(FracError::Wide)),
    ((2, i128::MIN), Ok((-1, 1 << 126))),
    ((6, i128::MIN), Ok((-3, 1 << 126))),
    ((i128::MIN, 3), Err(FracError::Wide)),
    ((i128::MIN, -6), Ok((1 << 126, 3))),
    ((i128::MAX, i128::MIN), Err(FracError::Wide)),
    ((i128::MIN, i128::MAX), Err(FracError::Wide)),
    ((i128::MAX, i128::MAX), Ok((1, 1))),
    ((i128::MAX, -i128::MAX), Ok((-1, 1))),
    ((-i128::MAX, -1), Ok((i128::MAX, 1))),
    ((i128::MAX - 1, 2), Ok(((1 << 126) - 1, 1))),
    ((i128::MAX, 2), Ok((i128::MAX, 2))),
    ((1, i128::MAX), Ok((1, i128::MAX))),
    ((-1, -i128::MAX), Ok((1, i128::MAX))),
    ((1, -i128::MAX), Ok((-1, i128::MAX))),
    ((i128::MIN, 4), Ok((i128::MIN / 4, 1))),
    ((i128::MIN, 1 << 126), Ok((-2, 1))),
    ((-4, -6), Ok((2, 3))),
    ((1 << 62, 1 << 63), Ok((1, 2))),
    ((i128::MAX, 3), Ok((i128::MAX, 3))),
    ((i128::MIN, -2), Ok((1 << 126, 1))),
    ((1 << 126, i128::MIN), Ok((-1, 2))),
];

const OPERATIONS: [(Op, Parts, Parts, Option<Parts>); 60] = [
    (Op::Add, (1, i128::MAX), (1, 2), None),
    (Op::Add, (1, 2), (1, i128::MAX), None),
    (Op::Add, (i128::MAX, 1), (1, 1), None),
    (Op::Add, (i128::MAX, 1), (-1, 1), Some((i128::MAX - 1, 1))),
    (Op::Add, (-i128::MAX, 1), (-1, 1), None),
    (Op::Add, (i128::MAX, 1), (-i128::MAX, 1), Some((0, 1))),
    (Op::Add, (1, 2), (1, 2), Some((1, 1))),
    (Op::Add, (1, 6), (1, 10), Some((4, 15))),
    (Op::Add, (-3, 4), (1, 6), Some((-7, 12))),
    (Op::Add, (i128::MAX, 2), (-i128::MAX, 2), Some((0, 1))),
    (Op::Add, (i128::MAX, 2), (1, 2), None),
    (Op::Add, (i128::MAX - 1, 1), (1, 1), Some((i128::MAX, 1))),
    (Op::Add, (1 << 126, 1), (1 << 126, 1), None),
    (
        Op::Add,
        (1 << 126, 1),
        ((1 << 126) - 1, 1),
        Some((i128::MAX, 1)),
    ),
    (Op::Add, (1, 1 << 126), (1, 1 << 126), Some((1, 1 << 125))),
    (Op::Add, (1, 1 << 126), (1, 3), None),
    (
        Op::Add,
        (1, 1 << 126),
        (1, 2),
        Some(((1 << 125) + 1, 1 << 126)),
    ),
    (Op::Add, (i128::MAX, 3), (1, 6), None),
    (Op::Add, (1 << 125, 3), (1 << 125, 3), Some((1 << 126, 3))),
    (
        Op::Add,
        (1, 1 << 63),
        (1, (1 << 63) + 1),
        Some(((1 << 64) + 1, 85070591730234615875067023894796828672)),
    ),
    (Op::Add, (1, (1 << 64) + 1), (1, 1 << 63), None),
    (
        Op::Add,
        ((1 << 62) - 1, (1 << 62) - 3),
        ((1 << 62) - 1, 4611686018427387899),
        Some((
            42535295865117307886804965744697147400,
            21267647932558653929567424817066409999,
        )),
    ),
    (
        Op::Add,
        (1, (1 << 62) - 1),
        (-1, (1 << 62) - 3),
        Some((-2, 21267647932558653948014168890775961603)),
    ),
    (Op::Add, (5, 12), (7, 12), Some((1, 1))),
    (
        Op::Add,
        (1, 1 << 63),
        (1, 2),
        Some(((1 << 62) + 1, 1 << 63)),
    ),
    (Op::Sub, (-i128::MAX, 1), (1, 1), None),
    (Op::Sub, (i128::MAX, 1), (i128::MAX, 1), Some((0, 1))),
    (Op::Sub, (0, 1), (-i128::MAX, 1), Some((i128::MAX, 1))),
    (Op::Sub, (1 << 126, 1), (i128::MIN / 2, 1), None),
    (Op::Sub, (1, 2), (1, i128::MAX), None),
    (Op::Sub, (1, i128::MAX), (1, i128::MAX), Some((0, 1))),
    (Op::Sub, (-i128::MAX + 1, 1), (1, 1), Some((-i128::MAX, 1))),
    (Op::Sub, (2, 3), (1, 6), Some((1, 2))),
    (Op::Mul, (i128::MAX, 1), (1, i128::MAX), Some((1, 1))),
    (Op::Mul, (i128::MAX, 1), (2, 1), None),
    (Op::Mul, (1 << 126, 1), (2, 1), None),
    (Op::Mul, (1 << 126, 1), (-2, 1), None),
    (Op::Mul, (1, 1 << 126), (1, 2), None),
    (Op::Mul, (1, 1 << 63), (1, 1 << 63), Some((1, 1 << 126))),
    (Op::Mul, (1, 1 << 64), (1, 1 << 63), None),
    (Op::Mul, (1 << 63, 1), (1 << 63, 1), Some((1 << 126, 1))),
    (Op::Mul, (1 << 64, 1), (1 << 63, 1), None),
    (Op::Mul, (i128::MAX, 2), (2, i128::MAX), Some((1, 1))),
    (Op::Mul, (0, 1), (i128::MAX, 1), Some((0, 1))),
    (Op::Mul, (-i128::MAX, 3), (3, i128::MAX), Some((-1, 1))),
    (Op::Mul, (-2, 3), (9, 4), Some((-3, 2))),
    (
        Op::Mul,
        ((1 << 62) - 1, 1 << 62),
        (1 << 62, (1 << 62) - 1),
        Some((1, 1)),
    ),
    (
        Op::Mul,
        (28356863910078205288614550619314017621, 1),
        (2, 1),
        Some((56713727820156410577229101238628035242, 1)),
    ),
    (Op::Div, (1, 1), (i128::MAX, 1), Some((1, i128::MAX))),
    (Op::Div, (1, 1), (-i128::MAX, 1), Some((-1, i128::MAX))),
    (Op::Div, (i128::MAX, 1), (1, 2), None),
    (Op::Div, (1, 2), (i128::MAX, 1), None),
    (Op::Div, (i128::MAX, 1), (i128::MAX, 1), Some((1, 1))),
    (Op::Div, (1 << 126, 1), (-1, 2), None),
    (Op::Div, (0, 1), (-i128::MAX, 1), Some((0, 1))),
    (Op::Div, (-3, 4), (-9, 8), Some((2, 3))),
    (Op::Div, (i128::MAX, 2), (i128::MAX, 2), Some((1, 1))),
    (Op::Div, (1, 1 << 126), (1 << 126, 1), None),
    (Op::Div, (1, 1 << 126), (1, 1 << 126), Some((1, 1))),
    (
        Op::Div,
        ((1 << 62) - 1, 1),
        (1 << 62, 1),
        Some(((1 << 62) - 1, 1 << 62)),
    ),
];

const ORDER: [(Parts, Parts, Ordering); 15] = [
    ((1, 3), (1, 2), Ordering::Less),
    ((1, i128::MAX), (1, i128::MAX - 1), Ordering::Less),
    (
        (i128::MAX, i128::MAX - 1),
        (i128::MAX - 1, i128::MAX - 2),
        Ordering::Less,
    ),
    (
        (i128::MAX - 1, i128::MAX),
        (i128::MAX - 2, i128::MAX - 1),
        Ordering::Greater,
    ),
    ((-1, i128::MAX), (-1, i128::MAX - 1), Ordering::Greater),
    ((-i128::MAX, 1), (i128::MAX, 1), Ordering::Less),
    ((i128::MAX, 1), (i128::MAX, 1), Ordering::Equal),
    ((0, 1), (-1, i128::MAX), Ordering::Greater),
    ((0, 1), (1, i128::MAX), Ordering::Less),
    (
        ((1 << 64) + 1, 1 << 64),
        (1 << 64, (1 << 64) - 1),
        Ordering::Less,
    ),
    ((i128::MAX, 2), ((1 << 126) - 1, 1), Ordering::Greater),
    ((-i128::MAX, 2), (i128::MAX, 3), Ordering::Less),
    (
        (1 << 62, (1 << 62) - 1),
        ((1 << 62) - 1, (1 << 62) - 2),
        Ordering::Less,
    ),
    ((5, 7), (5, 7), Ordering::Equal),
    ((1 << 100, 3), ((1 << 100) + 1, 3), Ordering::Less),
];
