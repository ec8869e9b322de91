// A context driven by a table of calls, with the answers worked out by hand.
ghost use Rattle.std.specs.Prelude.{◌≡◌, IfOk, IsTrue};
ghost use Rattle.term_checks.specs.Formulas.{AreFormulas};
ghost use Rattle.context_stack.specs.Levels.{formulas};

use super::*;
use std::alloc::{AllocError, Global};
use std::process::Abort;
use std::test::Fail;
use term_checks::are_formulas;
use term_table::{Args, Shape, Table, Term};

/// A call, with terms by their numbers.
#[derive(Clone, Copy, Drop)]
enum Call<'a> {
    Assert(usize),
    Push,
    Pop,
    Reset,
    Check(Turns),
    Assume(&'a [usize], Turns),
}

/// What a call answers, with terms by their numbers.
#[derive(Clone, Copy, Debug, PartialEq, Eq, Drop)]
enum Seen {
    Done,
    Sat,
    Unsat,
    Unknown,
    NotBuilt,
    DeadTerm(usize),
    NotBool(usize),
    HasVariable(usize),
    TooDeep,
    BottomLevel,
    NoMemory,
}

// The terms by their numbers.
const P: usize = 0;

const Q: usize = 1;

const NOT_P: usize = 2;

const SAME: usize = 3;

const DIFFERENT: usize = 4;

const X: usize = 5;

const NOT_X: usize = 6;

const REAL: usize = 7;

const DEAD: usize = 8;

const REAL_SAME: usize = 9;

/// A call, its answer, and then the number of levels, the status, and the core.
type Row<'a> = (Call<'a>, Seen, usize, Status, Option<&'a [usize]>);

const ROWS: [Row; 35] = [
    (Call::Pop, Seen::BottomLevel, 0, Status::Idle, None),
    (Call::Check(Turns::Whole), Seen::Sat, 0, Status::Sat, None),
    (Call::Assert(P), Seen::Done, 0, Status::Idle, None),
    (
        Call::Check(Turns::Counted(0)),
        Seen::Sat,
        0,
        Status::Sat,
        None,
    ),
    (Call::Assert(X), Seen::HasVariable(X), 0, Status::Sat, None),
    (Call::Assert(REAL), Seen::NotBool(1), 0, Status::Sat, None),
    (Call::Assert(DEAD), Seen::DeadTerm(1), 0, Status::Sat, None),
    (
        Call::Assume(&[Q, NOT_P, Q], Turns::Whole),
        Seen::Unsat,
        0,
        Status::Unsat,
        Some(&[NOT_P]),
    ),
    (
        Call::Assume(&[P, DEAD], Turns::Whole),
        Seen::DeadTerm(2),
        0,
        Status::Unsat,
        Some(&[NOT_P]),
    ),
    (
        Call::Assume(&[REAL, DEAD], Turns::Whole),
        Seen::DeadTerm(2),
        0,
        Status::Unsat,
        Some(&[NOT_P]),
    ),
    (
        Call::Assume(&[REAL, X], Turns::Whole),
        Seen::NotBool(1),
        0,
        Status::Unsat,
        Some(&[NOT_P]),
    ),
    (
        Call::Assume(&[X, REAL], Turns::Whole),
        Seen::NotBool(2),
        0,
        Status::Unsat,
        Some(&[NOT_P]),
    ),
    (
        Call::Assume(&[P, NOT_X], Turns::Whole),
        Seen::HasVariable(X),
        0,
        Status::Unsat,
        Some(&[NOT_P]),
    ),
    (
        Call::Assume(&[Q], Turns::Whole),
        Seen::Sat,
        0,
        Status::Sat,
        None,
    ),
    (Call::Push, Seen::Done, 1, Status::Idle, None),
    (Call::Assert(NOT_P), Seen::Done, 1, Status::Idle, None),
    (
        Call::Check(Turns::Whole),
        Seen::Unsat,
        1,
        Status::Unsat,
        None,
    ),
    (Call::Pop, Seen::Done, 0, Status::Idle, None),
    (Call::Check(Turns::Whole), Seen::Sat, 0, Status::Sat, None),
    (
        Call::Assume(&[NOT_P], Turns::Whole),
        Seen::Unsat,
        0,
        Status::Unsat,
        Some(&[NOT_P]),
    ),
    (Call::Check(Turns::Whole), Seen::Sat, 0, Status::Sat, None),
    (
        Call::Assume(&[NOT_P], Turns::Whole),
        Seen::Unsat,
        0,
        Status::Unsat,
        Some(&[NOT_P]),
    ),
    (Call::Assert(SAME), Seen::Done, 0, Status::Idle, None),
    (
        Call::Assume(&[NOT_P], Turns::Whole),
        Seen::Unsat,
        0,
        Status::Unsat,
        Some(&[NOT_P]),
    ),
    (Call::Push, Seen::Done, 1, Status::Idle, None),
    (
        Call::Assume(&[NOT_P], Turns::Counted(0)),
        Seen::Unsat,
        1,
        Status::Unsat,
        Some(&[NOT_P]),
    ),
    (Call::Pop, Seen::Done, 0, Status::Idle, None),
    (
        Call::Assume(&[REAL_SAME], Turns::Whole),
        Seen::NotBuilt,
        0,
        Status::Idle,
        None,
    ),
    (
        Call::Assume(&[NOT_P], Turns::Whole),
        Seen::Unsat,
        0,
        Status::Unsat,
        Some(&[NOT_P]),
    ),
    (Call::Reset, Seen::Done, 0, Status::Idle, None),
    (Call::Assert(SAME), Seen::Done, 0, Status::Idle, None),
    (Call::Assert(DIFFERENT), Seen::Done, 0, Status::Idle, None),
    (
        Call::Check(Turns::Counted(0)),
        Seen::Unknown,
        0,
        Status::Unknown,
        None,
    ),
    (
        Call::Check(Turns::Whole),
        Seen::Unsat,
        0,
        Status::Unsat,
        None,
    ),
    (Call::Pop, Seen::BottomLevel, 0, Status::Unsat, None),
];

fn term_at(terms: &[Term], number: usize) -> Term {
    match terms.get(number) {
        Some(t) => *t,
        None => Term::default(),
    }
}

fn terms_at(alloc: Global, terms: &[Term], numbers: &[usize]) -> Result<Vec<Term>, AllocError> {
    let mut found = Vec::new(alloc);
    for number in numbers {
        found.push(term_at(terms, *number))?;
    }
    Ok(found)
}

/// The number of a term, or that of no term.
fn number_of(terms: &[Term], t: Term) -> usize {
    for i in 0..terms.len() {
        if terms[i] == t {
            return i;
        }
    }
    terms.len()
}

fn refused(terms: &[Term], e: ContextError) -> Seen {
    match e {
        ContextError::DeadTerm(place) => Seen::DeadTerm(place),
        ContextError::NotBool(place) => Seen::NotBool(place),
        ContextError::HasVariable(v) => Seen::HasVariable(number_of(terms, v)),
        ContextError::TooDeep => Seen::TooDeep,
        ContextError::BottomLevel => Seen::BottomLevel,
        ContextError::NoMemory => Seen::NoMemory,
    }
}

fn done(terms: &[Term], answer: Result<(), ContextError>) -> Seen {
    match answer {
        Ok(()) => Seen::Done,
        Err(e) => refused(terms, e),
    }
}

fn found(answer: Checked) -> Seen {
    match answer {
        Checked::Sat(_) => Seen::Sat,
        Checked::Unsat => Seen::Unsat,
        Checked::Unknown(_) => Seen::Unknown,
        Checked::NotBuilt => Seen::NotBuilt,
        Checked::NoMemory => Seen::NoMemory,
    }
}

/// Whether the formulas of all levels are ones.
fn hold_formulas(alloc: Global, table: &Table, context: &Context) -> Result<bool, AllocError>
    ensures { IfOk result (λ b. IsTrue b → AreFormulas table.now (formulas context.now.levels)) }
{
    let newest = context.levels();
    for level in 0..newest {
        if !are_formulas(alloc, table, context.roots(level))? {
            return Ok(false);
        }
    }
    let all = are_formulas(alloc, table, context.roots(newest))?;
    Ok(all)
}

/// The answer of a check, where the formulas are ones.
fn check(
    alloc: Global,
    table: &Table,
    context: &mut Context,
    turns: Turns,
) -> Result<Seen, AllocError> {
    if !hold_formulas(alloc, table, context)? {
        return Ok(Seen::NoMemory);
    }
    Ok(found(context.check(table, turns)))
}

/// The answer of a check with assumptions, where the formulas are ones.
fn assume(
    alloc: Global,
    table: &Table,
    terms: &[Term],
    context: &mut Context,
    numbers: &[usize],
    turns: Turns,
) -> Result<Seen, AllocError> {
    let assumed = terms_at(alloc, terms, numbers)?;
    if !hold_formulas(alloc, table, context)? {
        return Ok(Seen::NoMemory);
    }
    match context.check_assuming(table, assumed.as_slice(), turns) {
        Ok(answer) => Ok(found(answer)),
        Err(e) => Ok(refused(terms, e)),
    }
}

fn answer(
    alloc: Global,
    table: &Table,
    terms: &[Term],
    context: &mut Context,
    call: Call,
) -> Result<Seen, AllocError> {
    match call {
        Call::Assert(number) => Ok(done(terms, context.assert(table, term_at(terms, number)))),
        Call::Push => Ok(done(terms, context.push())),
        Call::Pop => Ok(done(terms, context.pop())),
        Call::Reset => {
            context.reset();
            Ok(Seen::Done)
        }
        Call::Check(turns) => check(alloc, table, context, turns),
        Call::Assume(numbers, turns) => assume(alloc, table, terms, context, numbers, turns),
    }
}

/// Whether the core has the terms with these numbers.
fn is_core(
    alloc: Global,
    terms: &[Term],
    core: Option<&[Term]>,
    wanted: Option<&[usize]>,
) -> Result<bool, AllocError> {
    match (core, wanted) {
        (None, None) => Ok(true),
        (Some(found), Some(numbers)) => Ok(found == terms_at(alloc, terms, numbers)?.as_slice()),
        _ => Ok(false),
    }
}

fn run(
    rt: &impl Abort,
    alloc: Global,
    table: &Table,
    terms: &[Term],
    rows: &[Row],
) -> Result<(), Fail> {
    let mut context = Context::new(alloc)?;
    for (call, wanted, levels, status, core) in rows {
        assert_eq!(rt; answer(alloc, table, terms, &mut context, *call)?, *wanted);
        assert_eq!(rt; context.levels(), *levels);
        assert_eq!(rt; context.status(), *status);
        assert!(rt; is_core(alloc, terms, context.core(), *core)?);
    }
    Ok(())
}

/// Adds a term that is well typed.
fn added(rt: &impl Abort, table: &mut Table, shape: Shape) -> Term {
    match table.check_shape(&shape) {
        Ok(_) => table.add(shape).expect(rt, "a slot"),
        Err(_) => Term::default(),
    }
}

/// The parity of two terms.
fn parity(
    rt: &impl Abort,
    alloc: Global,
    table: &mut Table,
    a: Term,
    b: Term,
) -> Result<Term, AllocError> {
    let mut args = Args::new(alloc);
    args.push(a)?;
    args.push(b)?;
    Ok(added(rt, table, Shape::Xor(args)))
}

#[test]
fn calls_of_a_context(rt: HostRuntime) -> Result<(), Fail> {
    let alloc: Global = rt.alloc();
    let mut table = Table::new(alloc)?;
    let bool_type = table.bool_type();
    let real_type = table.real_type();
    let p = table.new_constant(bool_type).expect(&rt, "a constant");
    let q = table.new_constant(bool_type).expect(&rt, "a constant");
    let not_p = added(&rt, &mut table, Shape::Not(p));
    let same = added(&rt, &mut table, Shape::Eq(p, q));
    let different = parity(&rt, alloc, &mut table, p, q)?;
    let x = table.new_variable(bool_type).expect(&rt, "a variable");
    let not_x = added(&rt, &mut table, Shape::Not(x));
    let real = table.new_constant(real_type).expect(&rt, "a constant");
    let other = table.new_constant(real_type).expect(&rt, "a constant");
    let real_same = added(&rt, &mut table, Shape::Eq(real, other));
    let dead = Term { slot: 99, stamp: 0 };
    let terms = [
        p, q, not_p, same, different, x, not_x, real, dead, real_same,
    ];
    run(&rt, alloc, &table, &terms, &ROWS)
}
