// Verdicts, cores and values of small problems, worked out by hand.
use super::*;
use std::alloc::{AllocError, Global};
use std::process::Abort;
use std::test::Fail;
use term_table::{Args, Shape, Table, Term};

/// How a term is made of the terms that were made before it, by their numbers.
#[derive(Clone, Copy, Drop)]
enum Step {
    True,
    False,
    Bool,
    Real,
    Not(usize),
    And(usize, usize),
    Or(usize, usize),
    Xor(usize, usize),
    Eq(usize, usize),
    Distinct(usize, usize),
    Ite(usize, usize, usize),
}

/// What the check answers: the values of the constants in order, a core by the terms' numbers, or no verdict.
#[derive(Clone, Copy, Drop)]
enum Wanted<'a> {
    Values(&'a [bool]),
    Core(&'a [usize]),
    Unknown,
    NotBuilt,
}

const PQ: [Step; 8] = [
    Step::Bool,
    Step::Bool,
    Step::Not(0),
    Step::Xor(0, 1),
    Step::Eq(0, 1),
    Step::Distinct(0, 1),
    Step::Ite(0, 1, 2),
    Step::And(0, 1),
];

const REALS: [Step; 6] = [
    Step::Bool,
    Step::Real,
    Step::Real,
    Step::Eq(1, 2),
    Step::Distinct(1, 2),
    Step::Or(0, 3),
];

// Three pigeons in two holes: each in one, no two in one.
const PIGEONS: [Step; 21] = [
    Step::Bool,
    Step::Bool,
    Step::Bool,
    Step::Bool,
    Step::Bool,
    Step::Bool,
    Step::Or(0, 1),
    Step::Or(2, 3),
    Step::Or(4, 5),
    Step::And(0, 2),
    Step::And(0, 4),
    Step::And(2, 4),
    Step::And(1, 3),
    Step::And(1, 5),
    Step::And(3, 5),
    Step::Not(9),
    Step::Not(10),
    Step::Not(11),
    Step::Not(12),
    Step::Not(13),
    Step::Not(14),
];

const HELD: [usize; 9] = [6, 7, 8, 15, 16, 17, 18, 19, 20];

const ROWS: [(&[Step], &[usize], &[usize], Turns, Wanted); 16] = [
    (&[], &[], &[], Turns::Whole, Wanted::Values(&[])),
    (
        &[Step::True],
        &[0],
        &[],
        Turns::Counted(0),
        Wanted::Values(&[]),
    ),
    (
        &[Step::False],
        &[0],
        &[],
        Turns::Counted(0),
        Wanted::Core(&[]),
    ),
    (
        &[Step::Bool],
        &[0],
        &[],
        Turns::Whole,
        Wanted::Values(&[true]),
    ),
    (&PQ, &[2], &[1, 0, 1, 0], Turns::Whole, Wanted::Core(&[0])),
    (&PQ, &[], &[1, 2, 0, 2], Turns::Whole, Wanted::Core(&[2, 0])),
    (
        &PQ,
        &[3],
        &[0],
        Turns::Whole,
        Wanted::Values(&[true, false]),
    ),
    (
        &PQ,
        &[4, 0],
        &[],
        Turns::Whole,
        Wanted::Values(&[true, true]),
    ),
    (&PQ, &[5], &[0, 1], Turns::Whole, Wanted::Core(&[0, 1])),
    (
        &PQ,
        &[6, 2],
        &[1],
        Turns::Whole,
        Wanted::Values(&[false, true]),
    ),
    (&PQ, &[7, 5], &[0], Turns::Whole, Wanted::Core(&[])),
    (&REALS, &[3], &[], Turns::Whole, Wanted::NotBuilt),
    (&REALS, &[0], &[5], Turns::Whole, Wanted::NotBuilt),
    (&REALS, &[0], &[0], Turns::Whole, Wanted::Values(&[true])),
    (&PIGEONS, &HELD, &[], Turns::Counted(0), Wanted::Unknown),
    (&PIGEONS, &HELD, &[], Turns::Whole, Wanted::Core(&[])),
];

fn made_at(made: &[Term], number: usize) -> Term {
    match made.get(number) {
        Some(t) => *t,
        None => Term::default(),
    }
}

fn two(alloc: Global, made: &[Term], a: usize, b: usize) -> Result<Args, AllocError> {
    let mut args = Args::new(alloc);
    args.push(made_at(made, a))?;
    args.push(made_at(made, b))?;
    Ok(args)
}

/// The shape of a step that makes no constant.
fn shape_of(alloc: Global, made: &[Term], step: Step) -> Result<Shape, AllocError> {
    match step {
        Step::True => Ok(Shape::True),
        Step::False | Step::Bool | Step::Real => Ok(Shape::False),
        Step::Not(a) => Ok(Shape::Not(made_at(made, a))),
        Step::And(a, b) => Ok(Shape::And(two(alloc, made, a, b)?)),
        Step::Or(a, b) => Ok(Shape::Or(two(alloc, made, a, b)?)),
        Step::Xor(a, b) => Ok(Shape::Xor(two(alloc, made, a, b)?)),
        Step::Eq(a, b) => Ok(Shape::Eq(made_at(made, a), made_at(made, b))),
        Step::Distinct(a, b) => Ok(Shape::Distinct(two(alloc, made, a, b)?)),
        Step::Ite(a, b, c) => Ok(Shape::Ite(made_at(made, a), made_at(made, b), made_at(made, c))),
    }
}

fn made_by(
    rt: &impl Abort,
    alloc: Global,
    table: &mut Table,
    made: &[Term],
    step: Step,
) -> Result<Term, AllocError> {
    match step {
        Step::Bool => {
            let of = table.bool_type();
            Ok(table.new_constant(of).expect(rt, "a constant"))
        }
        Step::Real => {
            let of = table.real_type();
            Ok(table.new_constant(of).expect(rt, "a constant"))
        }
        _ => {
            let shape = shape_of(alloc, made, step)?;
            match table.check_shape(&shape) {
                Ok(_) => Ok(table.add(shape).expect(rt, "a slot")),
                Err(_) => Ok(Term::default()),
            }
        }
    }
}

fn made_of(
    rt: &impl Abort,
    alloc: Global,
    table: &mut Table,
    steps: &[Step],
) -> Result<Vec<Term>, AllocError> {
    let mut made = Vec::new(alloc);
    for step in steps {
        let t = made_by(rt, alloc, table, made.as_slice(), *step)?;
        made.push(t)?;
    }
    Ok(made)
}

fn chosen(alloc: Global, made: &[Term], numbers: &[usize]) -> Result<Vec<Term>, AllocError> {
    let mut terms = Vec::new(alloc);
    for number in numbers {
        terms.push(made_at(made, *number))?;
    }
    Ok(terms)
}

/// Whether the values are these, in order.
fn are_values(found: &[(Term, bool)], wanted: &[bool]) -> bool {
    if found.len() != wanted.len() {
        return false;
    }
    for i in 0..found.len() {
        if found[i].1 != wanted[i] {
            return false;
        }
    }
    true
}

/// Whether the check answers what is wanted.
fn answers(
    alloc: Global,
    table: &Table,
    made: &[Term],
    formulas: &[Term],
    assumed: &[Term],
    turns: Turns,
    wanted: Wanted,
) -> Result<bool, AllocError> {
    if !are_formulas(alloc, table, formulas)? {
        return Ok(false);
    }
    if !are_formulas(alloc, table, assumed)? {
        return Ok(false);
    }
    match (check_terms(alloc, table, formulas, assumed, turns), wanted) {
        (Ok(TermVerdict::Sat(values)), Wanted::Values(expected)) => {
            Ok(are_values(values.as_slice(), expected))
        }
        (Ok(TermVerdict::Unsat(core)), Wanted::Core(numbers)) => {
            Ok(core.as_slice() == chosen(alloc, made, numbers)?.as_slice())
        }
        (Ok(TermVerdict::Unknown(learned)), Wanted::Unknown) => Ok(learned.clauses.len() == 1),
        (Err(CheckError::NotBuilt), Wanted::NotBuilt) => Ok(true),
        _ => Ok(false),
    }
}

fn run(
    rt: &impl Abort,
    alloc: Global,
    rows: &[(&[Step], &[usize], &[usize], Turns, Wanted)],
) -> Result<(), Fail> {
    for (steps, formulas, assumed, turns, wanted) in rows {
        let mut table = Table::new(alloc)?;
        let made = made_of(rt, alloc, &mut table, steps)?;
        let front = chosen(alloc, made.as_slice(), formulas)?;
        let back = chosen(alloc, made.as_slice(), assumed)?;
        assert!(rt;
            answers(
                alloc,
                &table,
                made.as_slice(),
                front.as_slice(),
                back.as_slice(),
                *turns,
                *wanted
            )?
        );
    }
    Ok(())
}

#[test]
fn verdicts_of_small_problems(rt: HostRuntime) -> Result<(), Fail> {
    let alloc: Global = rt.alloc();
    run(&rt, alloc, &ROWS)
}
