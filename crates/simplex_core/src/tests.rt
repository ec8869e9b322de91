// Small systems with known answers.
use super::*;
use fraction128::{Delta, Frac, Op};
use std::alloc::Global;
use std::process::Abort;
use std::test::Fail;

fn fraction(num: i128, den: i128) -> Result<Frac, Fail> {
    Ok(Frac::new(num, den)?)
}

// The variable that is the sum of the terms, each a variable times a whole number.
fn row(
    rt: &impl Abort,
    alloc: Global,
    simplex: &mut Simplex,
    terms: &[(usize, i128)],
) -> Result<usize, Fail> {
    let mut row = Vec::new(alloc);
    for (variable, num) in terms {
        row.push((*variable, fraction(*num, 1)?))?;
    }
    assert!(rt; simplex.knows(&row));
    let made = simplex.add_row(&row).ok().ok_or("no row")?;
    Ok(made)
}

// A bound by a fraction with so many infinitesimals, whose tag is its variable, plus 100 for an upper bound.
fn bound(
    rt: &impl Abort,
    simplex: &mut Simplex,
    variable: usize,
    upper: bool,
    at: (i128, i128, i128),
) -> Result<(), Fail> {
    let value = Delta {
        real: fraction(at.0, at.1)?,
        inf: fraction(at.2, 1)?,
    };
    assert!(rt; variable < simplex.vars());
    if upper {
        simplex.upper(variable, value, variable.saturating_add(100))?;
    } else {
        simplex.lower(variable, value, variable)?;
    }
    Ok(())
}

fn word(outcome: &Outcome) -> &'static str {
    match outcome {
        Outcome::Feasible => "feasible",
        Outcome::Infeasible(_) => "infeasible",
        Outcome::Wide(_) => "wide",
        Outcome::NoMemory => "no memory",
    }
}

// 0 < x < 1/1000; then x >= 1/1000 as well, taken back again.
#[test]
fn strictly_between(rt: HostRuntime) -> Result<(), Fail> {
    let mut simplex = Simplex::new(rt.alloc());
    let x = simplex.new_var()?;
    bound(&rt, &mut simplex, x, false, (0, 1, 1))?;
    bound(&rt, &mut simplex, x, true, (1, 1000, -1))?;
    simplex.mark()?;
    bound(&rt, &mut simplex, x, false, (1, 1000, 0))?;
    match simplex.check() {
        Outcome::Infeasible(multipliers) => {
            assert_eq!(rt; multipliers.as_slice().len(), 2);
            for (tag, by) in multipliers.as_slice() {
                assert!(rt; *tag == 0 || *tag == 100);
                assert_eq!(rt; (by.numer(), by.denom()), (1, 1));
            }
        }
        _ => assert!(rt; false),
    }
    assert!(rt; simplex.marks() > 0);
    simplex.back();
    assert_eq!(rt; word(&simplex.check()), "feasible");
    Ok(())
}

// The terms of each row of a system.
type Rows = &'static [&'static [(usize, i128)]];

const NOTHING: Rows = &[&[]];

const ZERO: Rows = &[&[(0, 0)]];

const TWICE: Rows = &[&[(0, 1), (0, 1)]];

const SUM: Rows = &[&[(0, 1), (1, 1)]];

const BOTH: Rows = &[&[(0, 1), (1, 1)], &[(0, 1), (1, -1)]];

const NESTED: Rows = &[&[(0, 2), (1, 3)], &[(2, 5), (0, -10)]];

// Bounds: the variable, whether it is an upper bound, thousandths and infinitesimals of the number. Rows are numbered after
// the variables.
type Limits = &'static [(usize, bool, i128, i128)];

const EQUAL: Limits = &[
    (2, false, 2000, 0),
    (2, true, 2000, 0),
    (3, false, 0, 0),
    (3, true, 0, 0),
    (0, true, 1000, 0),
];

const UNEQUAL: Limits = &[
    (2, false, 2000, 0),
    (2, true, 2000, 0),
    (3, false, 0, 0),
    (3, true, 0, 0),
    (0, true, 1000, -1),
];

// Systems: how many variables there are, the rows, the bounds, and whether some values meet them.
const SYSTEMS: [(usize, Rows, Limits, bool); 20] = [
    (0, &[], &[], true),
    (1, &[], &[], true),
    (1, &[], &[(0, false, 1000, 0), (0, true, 1000, 0)], true),
    (1, &[], &[(0, false, 2000, 0), (0, true, 1000, 0)], false),
    (1, &[], &[(0, false, 0, 1), (0, true, 1, -1)], true),
    (1, &[], &[(0, false, 1, 1), (0, true, 1, 0)], false),
    (1, &[], &[(0, false, 1, 0), (0, true, 1, 0)], true),
    (1, NOTHING, &[(1, false, 0, 0)], true),
    (1, NOTHING, &[(1, false, 0, 1)], false),
    (1, TWICE, &[(0, true, 1000, 0), (1, false, 2000, 0)], true),
    (1, TWICE, &[(0, true, 1000, 0), (1, false, 3000, 0)], false),
    (1, ZERO, &[(0, false, 5000, 0), (1, true, -1, 0)], false),
    (
        2,
        SUM,
        &[(0, true, 1, 0), (1, true, 1, 0), (2, false, 2, 0)],
        true,
    ),
    (
        2,
        SUM,
        &[(0, true, 1, -1), (1, true, 1, 0), (2, false, 2, 0)],
        false,
    ),
    (
        2,
        SUM,
        &[(0, false, 0, 1), (1, false, 0, 1), (2, true, 1, -1)],
        true,
    ),
    (
        2,
        SUM,
        &[(0, false, 0, 0), (1, false, 0, 0), (2, true, 0, -1)],
        false,
    ),
    (2, BOTH, EQUAL, true),
    (2, BOTH, UNEQUAL, false),
    (2, NESTED, &[(3, false, 15000, 0), (1, true, 1000, 0)], true),
    (
        2,
        NESTED,
        &[(3, false, 15000, 1), (1, true, 1000, 0)],
        false,
    ),
];

const BEALE: Rows = &[
    &[(0, 25), (1, -6000), (2, -4), (3, 900)],
    &[(0, 50), (1, -9000), (2, -2), (3, 300)],
    &[(0, 75), (1, -15000), (2, 2), (3, -600)],
];

const CHVATAL: Rows = &[
    &[(0, 1), (1, -11), (2, -5), (3, 18)],
    &[(0, 1), (1, -3), (2, -1), (3, 2)],
    &[(0, 10), (1, -57), (2, -9), (3, -24)],
];

const KUHN: Rows = &[
    &[(0, -2), (1, -9), (2, 1), (3, 9)],
    &[(0, 1), (1, 3), (2, -1), (3, -6)],
    &[(0, 2), (1, 3), (2, -1), (3, -12)],
];

const MARSHALL_SUURBALLE: Rows = &[
    &[(0, 3), (1, -32), (2, 24)],
    &[(0, 1), (1, -9), (2, 3)],
    &[(0, 2), (1, -8), (2, 1)],
    &[(0, 2), (1, 2), (2, -9)],
];

// Systems that cycle under the rule of the largest coefficient: how many variables there are, all at least 0; the rows, all
// but the last at most 0; what else has an upper bound; and the largest value of the last row.
const CYCLING: [(usize, Rows, (usize, i128), i128); 4] = [
    (4, BEALE, (2, 1), 5),
    (4, CHVATAL, (0, 1), 1),
    (4, KUHN, (6, 2), 2),
    (3, MARSHALL_SUURBALLE, (1, 1), 10),
];

// A system over so many variables.
fn system(
    rt: &impl Abort,
    alloc: Global,
    count: usize,
    rows: &[&[(usize, i128)]],
    limits: &[(usize, bool, i128, i128)],
) -> Result<Simplex, Fail> {
    let mut simplex = Simplex::new(alloc);
    for _made in 0..count {
        simplex.new_var()?;
    }
    for terms in rows {
        row(rt, alloc, &mut simplex, terms)?;
    }
    for (variable, upper, thousandths, inf) in limits {
        bound(
            rt,
            &mut simplex,
            *variable,
            *upper,
            (*thousandths, 1000, *inf),
        )?;
    }
    Ok(simplex)
}

// Where some values meet a system, there are fractions for all variables too.
#[test]
fn systems_have_their_answers(rt: HostRuntime) -> Result<(), Fail> {
    for (count, rows, limits, is_met) in SYSTEMS {
        let mut simplex = system(&rt, rt.alloc(), count, rows, limits)?;
        let said = simplex.check();
        assert_eq!(rt; word(&said), if is_met { "feasible" } else { "infeasible" });
        if let Outcome::Feasible = said {
            let found = simplex.concrete(rt.alloc()).ok().ok_or("no fractions")?;
            assert_eq!(rt; found.as_slice().len(), simplex.vars());
        }
    }
    Ok(())
}

#[test]
fn no_cycle(rt: HostRuntime) -> Result<(), Fail> {
    for (count, rows, (capped, cap), largest) in CYCLING {
        let mut simplex = system(&rt, rt.alloc(), count, rows, &[])?;
        let last = simplex.vars().saturating_sub(1);
        for variable in 0..count {
            bound(&rt, &mut simplex, variable, false, (0, 1, 0))?;
        }
        for variable in count..last {
            bound(&rt, &mut simplex, variable, true, (0, 1, 0))?;
        }
        bound(&rt, &mut simplex, capped, true, (cap, 1, 0))?;
        bound(&rt, &mut simplex, last, false, (largest, 1, 0))?;
        assert_eq!(rt; word(&simplex.check()), "feasible");
        bound(&rt, &mut simplex, last, false, (largest, 1, 1))?;
        assert_eq!(rt; word(&simplex.check()), "infeasible");
    }
    Ok(())
}

// Each sum of three of eight variables, with each choice of signs, is at most 1.
fn bound_triple(
    rt: &impl Abort,
    alloc: Global,
    simplex: &mut Simplex,
    of: (usize, usize, usize),
) -> Result<(), Fail> {
    for signs in 0..8usize {
        let sign = |bit: usize| if signs / bit % 2 == 0 { 1 } else { -1 };
        let terms = [(of.0, sign(1)), (of.1, sign(2)), (of.2, sign(4))];
        let sum = row(rt, alloc, simplex, &terms)?;
        bound(rt, simplex, sum, true, (1, 1, 0))?;
    }
    Ok(())
}

fn bound_triples(
    rt: &impl Abort,
    alloc: Global,
    simplex: &mut Simplex,
    last: usize,
) -> Result<(), Fail> {
    for middle in 0..last {
        for first in 0..middle {
            bound_triple(rt, alloc, simplex, (first, middle, last))?;
        }
    }
    Ok(())
}

// Then the sum of all eight is at most 8/3.
#[test]
fn signed_triples(rt: HostRuntime) -> Result<(), Fail> {
    let alloc = rt.alloc();
    let mut simplex = Simplex::new(alloc);
    for _made in 0..8usize {
        simplex.new_var()?;
    }
    for last in 0..8usize {
        bound_triples(&rt, alloc, &mut simplex, last)?;
    }
    let terms = [
        (0, 1),
        (1, 1),
        (2, 1),
        (3, 1),
        (4, 1),
        (5, 1),
        (6, 1),
        (7, 1),
    ];
    let total = row(&rt, alloc, &mut simplex, &terms)?;
    for (at, want) in [
        ((1, 2, 0), "feasible"),
        ((8, 3, 0), "feasible"),
        ((8, 3, 1), "infeasible"),
        ((3, 1, 0), "infeasible"),
    ] {
        simplex.mark()?;
        bound(&rt, &mut simplex, total, false, at)?;
        assert_eq!(rt; word(&simplex.check()), want);
        assert!(rt; simplex.marks() > 0);
        simplex.back();
    }
    Ok(())
}

// Three marks, each with a bound more, taken back one after another.
#[test]
fn marks_are_undone_in_order(rt: HostRuntime) -> Result<(), Fail> {
    let mut simplex = Simplex::new(rt.alloc());
    let x = simplex.new_var()?;
    bound(&rt, &mut simplex, x, false, (1, 1, 0))?;
    for (upper, at, want) in [
        (true, (2, 1, 0), "feasible"),
        (false, (2, 1, 1), "infeasible"),
        (true, (0, 1, 0), "infeasible"),
    ] {
        simplex.mark()?;
        bound(&rt, &mut simplex, x, upper, at)?;
        assert_eq!(rt; word(&simplex.check()), want);
    }
    for want in ["infeasible", "feasible", "feasible"] {
        assert!(rt; simplex.marks() > 0);
        simplex.back();
        assert_eq!(rt; word(&simplex.check()), want);
    }
    Ok(())
}

// The product of the two coefficients is 2^140; the call leaves the variables.
#[test]
fn row_too_wide(rt: HostRuntime) -> Result<(), Fail> {
    let mut simplex = Simplex::new(rt.alloc());
    let large = fraction(1 << 70, 1)?;
    let x = simplex.new_var()?;
    assert!(rt; simplex.knows(&[(x, large)]));
    let s = simplex.add_row(&[(x, large)]).ok().ok_or("no row")?;
    assert!(rt; simplex.knows(&[(s, large)]));
    match simplex.add_row(&[(s, large)]) {
        Err(Stop::Wide(at)) => {
            assert_eq!(rt; at.wide.op, Op::Mul);
            assert_eq!(rt;
                (at.wide.left.numer(), at.wide.right.numer()),
                (1 << 70, 1 << 70)
            );
            assert_eq!(rt; at.basis.as_slice(), [x].as_slice());
        }
        _ => assert!(rt; false),
    }
    assert_eq!(rt; simplex.vars(), 2);
    Ok(())
}
