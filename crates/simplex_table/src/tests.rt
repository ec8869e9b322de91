// Small tableaux with known rows and values.
use super::*;
use fraction128::Op;
use std::process::Abort;
use std::test::Fail;

// A numerator and a denominator.
type Parts = (i128, i128);

fn fraction(parts: Parts) -> Result<Frac, Fail> {
    Ok(Frac::new(parts.0, parts.1)?)
}

fn check_row(rt: &impl Abort, tableau: &Tableau, variable: usize, expected: &[Parts]) {
    assert!(rt; variable < tableau.len());
    let row = tableau.row(variable);
    assert_eq!(rt; row.len(), expected.len());
    for (entry, parts) in row.iter().zip(expected) {
        assert_eq!(rt; (entry.numer(), entry.denom()), *parts);
    }
}

// Brings a basic variable into a column.
fn exchange(
    rt: &impl Abort,
    tableau: &mut Tableau,
    variable: usize,
    column: usize,
) -> Result<(), TableauError> {
    assert!(rt; variable < tableau.len());
    assert!(rt; column < tableau.columns().len());
    assert!(rt; !tableau.columns().contains(&variable));
    assert!(rt; !tableau.row(variable)[column].is_zero());
    tableau.pivot(variable, column)
}

// s = x + 2 y and t = 3 x - y, and then x = 1/7 s + 2/7 t and y = 3/7 s - 1/7 t.
#[test]
fn two_pivots(rt: HostRuntime) -> Result<(), Fail> {
    let mut tableau = Tableau::new(rt.alloc());
    let x = tableau.new_var()?;
    let y = tableau.new_var()?;
    let s = tableau.add_row(&[(x, fraction((1, 1))?), (y, fraction((2, 1))?)])?;
    let t = tableau.add_row(&[(x, fraction((3, 1))?), (y, fraction((-1, 1))?)])?;
    check_row(&rt, &tableau, s, &[(1, 1), (2, 1)]);
    check_row(&rt, &tableau, t, &[(3, 1), (-1, 1)]);
    exchange(&rt, &mut tableau, s, 0)?;
    assert_eq!(rt; tableau.columns(), [y, s].as_slice());
    check_row(&rt, &tableau, x, &[(-2, 1), (1, 1)]);
    check_row(&rt, &tableau, t, &[(-7, 1), (3, 1)]);
    exchange(&rt, &mut tableau, t, 0)?;
    assert_eq!(rt; tableau.columns(), [s, t].as_slice());
    check_row(&rt, &tableau, x, &[(1, 7), (2, 7)]);
    check_row(&rt, &tableau, y, &[(3, 7), (-1, 7)]);
    Ok(())
}

// At x = 1/2 and y = 2 less an infinitesimal.
#[test]
fn values_of_a_sum(rt: HostRuntime) -> Result<(), Fail> {
    let alloc = rt.alloc();
    let mut tableau = Tableau::new(alloc);
    let x = tableau.new_var()?;
    let y = tableau.new_var()?;
    let s = tableau.add_row(&[(x, fraction((4, 1))?), (y, fraction((-1, 3))?)])?;
    let zero = Frac::zero();
    let at_x = Delta {
        real: fraction((1, 2))?,
        inf: zero,
    };
    let at_y = Delta {
        real: fraction((2, 1))?,
        inf: fraction((-1, 1))?,
    };
    assert_eq!(rt; tableau.columns().len(), 2);
    let values = tableau.values(alloc, &[at_x, at_y])?;
    let sum = values.get(s).ok_or("no value")?;
    assert_eq!(rt; (sum.real.numer(), sum.real.denom()), (4, 3));
    assert_eq!(rt; (sum.inf.numer(), sum.inf.denom()), (1, 3));
    Ok(())
}

// The product of the two coefficients is 2^140.
#[test]
fn product_too_wide(rt: HostRuntime) -> Result<(), Fail> {
    let mut tableau = Tableau::new(rt.alloc());
    let large = fraction((1 << 70, 1))?;
    let x = tableau.new_var()?;
    let s = tableau.add_row(&[(x, large)])?;
    match tableau.add_row(&[(s, large)]) {
        Err(TableauError::Wide(wide)) => {
            assert_eq!(rt; wide.op, Op::Mul);
            assert_eq!(rt; (wide.left.numer(), wide.right.numer()), (1 << 70, 1 << 70));
        }
        _ => assert!(rt; false),
    }
    assert_eq!(rt; tableau.len(), 2);
    Ok(())
}
