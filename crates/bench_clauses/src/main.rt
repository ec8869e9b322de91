//! Makes a problem of clauses and searches it. The words are the kind, the size and the seed:
//! `pigeons N SEED` puts N + 1 pigeons into N holes, and `random N SEED` makes clauses of three
//! literals over N variables, 4.26 times as many as variables. It prints the answer, and how many
//! clauses and variables there are.
#![tactic(auto)]

ghost use Rattle.std.specs.Prelude.{◌≡◌, ◌<◌, ◌≤◌, ◌+◌, ℕ};

use anyhow::{Context, Result, bail};
use clause_search::{Answer, Lit, Search, Turns, Unchecked};
use std::alloc::{AllocError, Global};
use std::env;

/// The next number of a linear congruential generator.
fn next(seed: u64) -> u64 {
    seed.wrapping_mul(6_364_136_223_846_793_005)
        .wrapping_add(1_442_695_040_888_963_407)
}

/// A variable below a number, by the seed.
fn draw(seed: u64, vars: usize) -> usize {
    ((seed / 8_589_934_592) as usize)
        .checked_rem(vars)
        .unwrap_or(0)
}

/// A search, and how many clauses were added to it.
#[derive(Drop)]
struct Problem {
    search: Search,
    clauses: u64,
}

/// Adds a clause, if its variables are there.
fn add(problem: &mut Problem, lits: &[Lit]) -> Result<(), AllocError> {
    if problem.search.knows(lits) {
        problem.search.add_clause(lits)?;
        problem.clauses = problem.clauses.saturating_add(1);
    }
    Ok(())
}

/// So many variables.
fn make_vars(problem: &mut Problem, count: usize) -> Result<(), AllocError> {
    for made in 0..count {
        problem.search.new_var()?;
    }
    Ok(())
}

/// The variable that pigeon p is in hole h.
fn place_of(p: usize, h: usize, holes: usize) -> usize {
    p.saturating_mul(holes).saturating_add(h)
}

/// Each pigeon is in some hole.
fn each_placed(problem: &mut Problem, alloc: Global, holes: usize) -> Result<(), AllocError> {
    for p in 0..holes.saturating_add(1) {
        let mut lits = Vec::new(alloc);
        for h in 0..holes {
            lits.push(Lit {
                var: place_of(p, h, holes),
                positive: true,
            })?;
        }
        add(problem, &lits)?;
    }
    Ok(())
}

/// No two pigeons are in one hole.
fn none_shared(problem: &mut Problem, h: usize, holes: usize) -> Result<(), AllocError> {
    for p in 0..holes.saturating_add(1) {
        for q in 0..p {
            let first = Lit {
                var: place_of(p, h, holes),
                positive: false,
            };
            let second = Lit {
                var: place_of(q, h, holes),
                positive: false,
            };
            add(problem, &[first, second])?;
        }
    }
    Ok(())
}

/// One pigeon more than there are holes.
fn make_pigeons(problem: &mut Problem, alloc: Global, holes: usize) -> Result<(), AllocError> {
    make_vars(problem, holes.saturating_add(1).saturating_mul(holes))?;
    each_placed(problem, alloc, holes)?;
    for h in 0..holes {
        none_shared(problem, h, holes)?;
    }
    Ok(())
}

/// Three different variables below a number, by the seed.
fn three(seed: u64, vars: usize) -> (usize, usize, usize) {
    let a = draw(seed, vars);
    let mut b = draw(next(seed), vars);
    let mut c = draw(next(next(seed)), vars);
    if b == a {
        b = draw(next(next(next(seed))), vars);
    }
    if c == a || c == b {
        c = draw(next(next(next(next(seed)))), vars);
    }
    (a, b, c)
}

/// Random clauses of three literals, 426 for each 100 variables.
fn make_random(problem: &mut Problem, vars: usize, start: u64) -> Result<(), AllocError> {
    make_vars(problem, vars)?;
    let mut seed = next(next(start));
    for made in 0..vars.saturating_mul(426) / 100 {
        let (a, b, c) = three(seed, vars);
        let signs = seed / 1_048_576;
        add(
            problem,
            &[
                Lit {
                    var: a,
                    positive: signs % 2 == 0,
                },
                Lit {
                    var: b,
                    positive: signs / 2 % 2 == 0,
                },
                Lit {
                    var: c,
                    positive: signs / 4 % 2 == 0,
                },
            ],
        )?;
        seed = next(next(next(next(next(seed)))));
    }
    Ok(())
}

/// The answer in one word.
fn word<S>(answer: &Answer<S>) -> &'static str {
    match answer {
        Answer::Sat(_) => "sat",
        Answer::Unsat(_) => "unsat",
        Answer::Unknown(_) => "unknown",
        Answer::Stopped(_) => "stopped",
        Answer::NoMemory => "no memory",
    }
}

fn main(rt: HostRuntime) -> Result<()> {
    let alloc = rt.alloc();
    let words = env::args(&rt)?.collect::<Vec<String>>(alloc)?;
    if words.len() != 4 {
        bail!("the words are: pigeons or random, the size, the seed");
    }
    let size = words[2].parse::<usize>().context("the size")?;
    let seed = words[3].parse::<u64>().context("the seed")?;
    let mut problem = Problem {
        search: Search::new(alloc),
        clauses: 0,
    };
    if words[1].as_str() == "pigeons" {
        make_pigeons(&mut problem, alloc, size)?;
    } else {
        make_random(&mut problem, size, seed)?;
    }
    let Problem {
        mut search,
        clauses,
    } = problem;
    let vars = search.vars();
    let mut checker = Unchecked::new();
    let answer = search.solve(&[], Turns::Whole, &mut checker);
    let said = word(&answer);
    println!(rt; "{said} {clauses} clauses {vars} variables")?;
    Ok(())
}
