// A run of 2,000 calls: terms are made, counted, named, forgotten and collected, and freed slots used again.
use crate::plain::*;
use std::alloc::{AllocError, Global};
use std::process::Abort;
use std::test::Fail;
use term_collect::{Collected, DeadRoot, collect};
use term_table::{Args, Shape, ShapeError, Table, TableError, Term, TypeId};

const NAMES: [&str; 4] = ["a", "b", "c", "d"];

const BOOL: TypeId = TypeId { slot: 0, stamp: 0 };

/// The kind of a constant, beside negations, conjunctions and equalities.
const CONSTANT: u64 = 9;

/// The next number that looks random, below 2^31.
fn next(seed: &mut u64) -> u64 {
    let x = *seed ^ (*seed >> 12);
    let x = x ^ (x << 25);
    *seed = x ^ (x >> 27);
    (*seed).wrapping_mul(0x2545_F491_4F6C_DD1D) >> 33
}

/// One of the newest terms.
fn pick(plain: &Plain, seed: &mut u64) -> usize {
    let back = (next(seed) % 24) as usize;
    plain.known.len().saturating_sub(back + 1)
}

fn name_at(name: usize) -> &'static str {
    NAMES.get(name).copied().unwrap_or("a")
}

fn shape_of(alloc: Global, kind: u64, left: Term, right: Term) -> Result<Shape, AllocError> {
    Ok(match kind {
        0 => Shape::Not(left),
        1 => {
            let mut all = Args::new(alloc);
            all.push(left)?;
            all.push(right)?;
            Shape::And(all)
        }
        _ => Shape::Eq(left, right),
    })
}

fn answer(plain: &Plain, kind: u64, left: usize, right: usize) -> Result<TypeId, ShapeError> {
    if !is_live(plain, left) {
        return Err(ShapeError::DeadTerm(1));
    }
    if kind != 0 && !is_live(plain, right) {
        return Err(ShapeError::DeadTerm(2));
    }
    Ok(BOOL)
}

fn put(table: &mut Table, shape: Shape) -> Option<Term> {
    match table.check_shape(&shape) {
        Ok(_) => table.add(shape).ok(),
        Err(_) => None,
    }
}

fn note(
    rt: &impl Abort,
    plain: &mut Plain,
    kind: u64,
    left: usize,
    right: usize,
    term: Term,
) -> Result<(), AllocError> {
    if let Some(old) = found(plain, kind, left, right) {
        assert_eq!(rt; term, term_at(plain, old));
        return Ok(());
    }
    assert!(rt; is_new(plain, term));
    plain.known.push(Known {
        kind,
        left,
        right,
        term,
        count: 0,
        live: true,
    })?;
    Ok(())
}

fn make_constant(rt: &impl Abort, table: &mut Table, plain: &mut Plain) -> Result<(), AllocError> {
    let term = table.new_constant(BOOL).expect(rt, "a constant");
    let place = plain.known.len();
    note(rt, plain, CONSTANT, place, place, term)
}

fn add(
    rt: &impl Abort,
    alloc: Global,
    table: &mut Table,
    plain: &mut Plain,
    seed: &mut u64,
) -> Result<(), AllocError> {
    let kind = next(seed) % 3;
    let left = pick(plain, seed);
    let other = pick(plain, seed);
    let right = if kind == 0 { left } else { other };
    let shape = shape_of(alloc, kind, term_at(plain, left), term_at(plain, right))?;
    let told = answer(plain, kind, left, right);
    assert_eq!(rt; table.check_shape(&shape), told);
    let added = put(table, shape);
    assert_eq!(rt; added.is_some(), told.is_ok());
    match added {
        Some(term) => note(rt, plain, kind, left, right, term),
        None => Ok(()),
    }
}

fn count(rt: &impl Abort, table: &mut Table, plain: &mut Plain, place: usize, up: bool) {
    let (term, count) = (term_at(plain, place), count_at(plain, place));
    let live = is_live(plain, place);
    let told = if !live {
        Err(TableError::DeadTerm)
    } else if !up && count == 0 {
        Err(TableError::CountZero)
    } else {
        Ok(())
    };
    if up {
        assert_eq!(rt; table.incref(term), told);
    } else {
        assert_eq!(rt; table.decref(term), told);
    }
    if told.is_ok() && up {
        set_count(plain, place, count.saturating_add(1));
    } else if told.is_ok() {
        set_count(plain, place, count.saturating_sub(1));
    }
}

fn set_name(
    rt: &impl Abort,
    table: &mut Table,
    plain: &mut Plain,
    name: usize,
    place: usize,
) -> Result<(), AllocError> {
    let told = if is_live(plain, place) {
        Ok(())
    } else {
        Err(TableError::DeadTerm)
    };
    assert_eq!(rt; table.set_name(name_at(name), term_at(plain, place)), told);
    if told.is_ok() {
        plain.names.push(Meaning { name, place })?;
    }
    Ok(())
}

fn remove_name(rt: &impl Abort, table: &mut Table, plain: &mut Plain, name: usize) {
    let there = forget(plain, name);
    assert_eq!(rt; table.remove_name(name_at(name)), there);
}

fn look(rt: &impl Abort, table: &Table, plain: &Plain, name: usize, place: usize) {
    assert_eq!(rt; table.by_name(name_at(name)), meant(plain, name));
    let told = match name_of(plain, place) {
        Some(known) => Some(name_at(known)),
        None => None,
    };
    assert_eq!(rt; table.name_of(term_at(plain, place)), told);
}

fn collect_all(
    rt: &impl Abort,
    alloc: Global,
    table: &mut Table,
    plain: &mut Plain,
    seed: &mut u64,
) -> Result<(), AllocError> {
    let keep_named = next(seed) % 2 == 0;
    let root = pick(plain, seed);
    let freed = collect(table, &[term_at(plain, root)], &[], keep_named);
    if !is_live(plain, root) {
        assert_eq!(rt; freed, Err(DeadRoot::Term(1)));
        return Ok(());
    }
    let kept = reached(alloc, plain, root, keep_named)?;
    let terms = free(plain, &kept);
    plain.names = live_names(alloc, plain)?;
    assert_eq!(rt; freed, Ok(Collected { terms, types: 0 }));
    check_all(rt, table, plain);
    Ok(())
}

fn check_all(rt: &impl Abort, table: &Table, plain: &Plain) {
    for entry in &plain.known {
        assert_eq!(rt; table.is_live(entry.term), entry.live);
    }
}

fn step(
    rt: &impl Abort,
    alloc: Global,
    table: &mut Table,
    plain: &mut Plain,
    seed: &mut u64,
) -> Result<(), AllocError> {
    let place = pick(plain, seed);
    let name = (next(seed) % 4) as usize;
    match next(seed) % 32 {
        0 => make_constant(rt, table, plain)?,
        1 => collect_all(rt, alloc, table, plain, seed)?,
        2 | 3 | 4 => count(rt, table, plain, place, true),
        5 | 6 | 7 => count(rt, table, plain, place, false),
        8 | 9 | 10 => set_name(rt, table, plain, name, place)?,
        11 | 12 => remove_name(rt, table, plain, name),
        13 | 14 | 15 => look(rt, table, plain, name, place),
        _ => add(rt, alloc, table, plain, seed)?,
    }
    assert_eq!(rt; table.count_terms().checked_sub(2), Some(count_live(plain)));
    Ok(())
}

#[test]
fn a_random_run_goes_like_a_plain_list(rt: HostRuntime) -> Result<(), Fail> {
    let alloc: Global = rt.alloc();
    let mut table = Table::new(alloc)?;
    let mut plain = Plain {
        known: Vec::new(alloc),
        names: Vec::new(alloc),
    };
    let mut seed = 20_261_201;
    make_constant(&rt, &mut table, &mut plain)?;
    for _ in 0..2000 {
        step(&rt, alloc, &mut table, &mut plain, &mut seed)?;
    }
    assert!(rt; count_live(&plain) < plain.known.len());
    assert!(rt; is_reused(&plain));
    Ok(())
}
