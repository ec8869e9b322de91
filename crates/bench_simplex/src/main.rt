//! Makes a system of rows and bounds, checks it and prints the answers. The words are the kind, the size and the seed:
//! `random N SEED` makes N rows of four terms over N variables with bounds that a random point meets, and `triples N SEED`
//! bounds each sum of three of N variables, with each choice of signs, by 1: then half for the first three is possible,
//! and a total above a third of N is not.
#![tactic(auto)]

use anyhow::{Context, Result, bail};
use fraction128::{Delta, Frac};
use simplex_core::{Outcome, Simplex};
use std::alloc::{AllocError, Global};
use std::env;

/// The next number of a linear congruential generator.
fn next(seed: u64) -> u64 {
    seed.wrapping_mul(6_364_136_223_846_793_005)
        .wrapping_add(1_442_695_040_888_963_407)
}

/// A number below another, by the seed.
fn draw(seed: u64, count: usize) -> usize {
    ((seed / 8_589_934_592) as usize)
        .checked_rem(count)
        .unwrap_or(0)
}

/// A fraction; 0 where the denominator is 0.
fn fraction(num: i128, den: i128) -> Frac {
    match Frac::new(num, den) {
        Ok(number) => number,
        Err(_) => Frac::zero(),
    }
}

/// The sum of two fractions, or the first where the sum is too wide.
fn sum(a: Frac, b: Frac) -> Frac {
    match a.add(b) {
        Ok(number) => number,
        Err(_) => a,
    }
}

/// The product of two fractions, or the first where the product is too wide.
fn product(a: Frac, b: Frac) -> Frac {
    match a.mul(b) {
        Ok(number) => number,
        Err(_) => a,
    }
}

/// A number without infinitesimal part.
fn plain(real: Frac) -> Delta {
    Delta {
        real,
        inf: Frac::zero(),
    }
}

/// A simplex, how many bounds were given, and how many rows were refused.
#[derive(Drop)]
struct Problem {
    simplex: Simplex,
    bounds: usize,
    refused: usize,
}

/// Makes the variable of a row, if there is one.
fn add(problem: &mut Problem, row: &[(usize, Frac)]) -> Option<usize> {
    if problem.simplex.knows(row) {
        if let Ok(variable) = problem.simplex.add_row(row) {
            return Some(variable);
        }
    }
    problem.refused = problem.refused.saturating_add(1);
    None
}

/// Gives a bound, if the variable is there.
fn give(
    problem: &mut Problem,
    variable: usize,
    upper: bool,
    value: Frac,
) -> Result<(), AllocError> {
    let tag = problem.bounds;
    if variable < problem.simplex.vars() {
        if upper {
            problem.simplex.upper(variable, plain(value), tag)?;
        } else {
            problem.simplex.lower(variable, plain(value), tag)?;
        }
        problem.bounds = tag.saturating_add(1);
    }
    Ok(())
}

/// The answer of a check in one word.
fn answer(problem: &mut Problem) -> &'static str {
    match problem.simplex.check() {
        Outcome::Feasible => "feasible",
        Outcome::Infeasible(_) => "infeasible",
        Outcome::Wide(_) => "wide",
        Outcome::NoMemory => "no memory",
    }
}

/// So many variables.
fn make_vars(problem: &mut Problem, count: usize) -> Result<(), AllocError> {
    for _made in 0..count {
        problem.simplex.new_var()?;
    }
    Ok(())
}

/// A number from -3 to 3 but 0.
fn small(seed: u64) -> Frac {
    let size = (draw(seed, 3) as i128).saturating_add(1);
    if draw(next(seed), 2) == 0 {
        fraction(size, 1)
    } else {
        fraction(-size, 1)
    }
}

/// The coordinate of the point that the system is made for.
fn coordinate(variable: usize) -> Frac {
    fraction(((variable % 7) as i128).saturating_sub(3), 2)
}

/// Makes a row of four terms, and bounds it by its value at the point.
fn make_row(
    problem: &mut Problem,
    alloc: Global,
    count: usize,
    start: u64,
) -> Result<(), AllocError> {
    let mut seed = start;
    let mut row = Vec::new(alloc);
    let mut value = Frac::zero();
    for k in 0..4usize {
        let variable = draw(seed, count / 4).saturating_mul(4).saturating_add(k);
        let by = small(next(seed));
        value = sum(value, product(by, coordinate(variable)));
        row.push((variable, by))?;
        seed = next(next(next(seed)));
    }
    if let Some(variable) = add(problem, &row) {
        give(problem, variable, draw(seed, 2) == 0, value)?;
    }
    Ok(())
}

/// Bounds each variable by numbers on both sides of its coordinate.
fn bound_all(problem: &mut Problem, count: usize) -> Result<(), AllocError> {
    for v in 0..count {
        give(problem, v, false, sum(coordinate(v), fraction(-1, 1)))?;
        give(problem, v, true, sum(coordinate(v), fraction(1, 1)))?;
    }
    Ok(())
}

/// A random system that a point meets.
fn make_random(
    problem: &mut Problem,
    alloc: Global,
    count: usize,
    start: u64,
) -> Result<(), AllocError> {
    make_vars(problem, count)?;
    bound_all(problem, count)?;
    let mut seed = next(next(start));
    for _made in 0..count {
        make_row(problem, alloc, count, seed)?;
        seed = next(next(next(seed)));
    }
    Ok(())
}

/// 1 or -1.
fn signed(positive: bool) -> Frac {
    if positive {
        Frac::one()
    } else {
        Frac::one().neg()
    }
}

/// The sums of three variables, with each choice of signs, are at most 1.
fn bound_triple(problem: &mut Problem, i: usize, j: usize, k: usize) -> Result<(), AllocError> {
    for signs in 0..8u8 {
        let row = [
            (i, signed(signs % 2 == 0)),
            (j, signed(signs / 2 % 2 == 0)),
            (k, signed(signs / 4 % 2 == 0)),
        ];
        if let Some(variable) = add(problem, &row) {
            give(problem, variable, true, Frac::one())?;
        }
    }
    Ok(())
}

/// All triples whose last variable is k.
fn bound_triples(problem: &mut Problem, k: usize) -> Result<(), AllocError> {
    for j in 0..k {
        for i in 0..j {
            bound_triple(problem, i, j, k)?;
        }
    }
    Ok(())
}

/// The sum of the first variables.
fn total(problem: &mut Problem, alloc: Global, count: usize) -> Result<Option<usize>, AllocError> {
    let mut row = Vec::new(alloc);
    for v in 0..count {
        row.push((v, Frac::one()))?;
    }
    Ok(add(problem, &row))
}

/// Each sum of three signed variables is at most 1.
fn make_triples(problem: &mut Problem, count: usize) -> Result<(), AllocError> {
    make_vars(problem, count)?;
    for k in 0..count {
        bound_triples(problem, k)?;
    }
    Ok(())
}

/// The answer where the sum of the first variables has a lower bound.
fn ask(
    problem: &mut Problem,
    alloc: Global,
    count: usize,
    at_least: Frac,
) -> Result<&'static str, AllocError> {
    let Some(variable) = total(problem, alloc, count)? else {
        return Ok("refused");
    };
    give(problem, variable, false, at_least)?;
    Ok(answer(problem))
}

fn main(rt: HostRuntime) -> Result<()> {
    let alloc = rt.alloc();
    let words = env::args(&rt)?.collect::<Vec<String>>(alloc)?;
    if words.len() != 4 {
        bail!("the words are: random or triples, the size, the seed");
    }
    let size = words[2].parse::<usize>().context("the size")?;
    let seed = words[3].parse::<u64>().context("the seed")?;
    let mut problem = Problem {
        simplex: Simplex::new(alloc),
        bounds: 0,
        refused: 0,
    };
    if words[1].as_str() == "triples" {
        make_triples(&mut problem, size)?;
        let half = ask(&mut problem, alloc, 3, fraction(1, 2))?;
        let above = ask(
            &mut problem,
            alloc,
            size,
            fraction((size as i128).saturating_add(1), 3),
        )?;
        println!(rt; "{half} {above}")?;
    } else {
        make_random(&mut problem, alloc, size, seed)?;
        let said = answer(&mut problem);
        println!(rt; "{said}")?;
    }
    let vars = problem.simplex.vars();
    let bounds = problem.bounds;
    let refused = problem.refused;
    println!(rt; "{vars} variables {bounds} bounds {refused} refused")?;
    Ok(())
}
