// Runs of calls with their replies, worked out by hand from what each call does.
use super::*;
use std::alloc::{AllocError, Global};
use std::process::Abort;
use std::test::Fail;
use term_sketches::Operator;

// The permanent types of truth values and of reals.
const BOOL_TYPE: TypeId = TypeId { slot: 0, stamp: 0 };

const REAL_TYPE: TypeId = TypeId { slot: 1, stamp: 0 };

// In the place of a row: the type of reals, which no call gives, and a handle that was never given.
const REAL: usize = 900;

const DEAD: usize = 901;

// A call, without its handles and its name; whether a collection keeps what is named.
#[derive(Clone, Copy, Drop)]
enum Word {
    BoolType,
    True,
    False,
    Constant,
    Variable,
    Build(Operator),
    TypeOf,
    Print,
    Incref,
    Decref,
    IncrefType,
    DecrefType,
    NumTerms,
    NumTypes,
    Collect(bool),
    SetTermName,
    SetTypeName,
    TermByName,
    TypeByName,
    TermName,
    TypeName,
    RemoveTermName,
    RemoveTypeName,
    NewContext,
    FreeContext,
    Reset,
    Push,
    Pop,
    Status,
    Assert,
    Check,
    Assume,
    Core,
}

// A reply: a handle that no earlier row has, the reply of that row, or what is told.
#[derive(Clone, Copy, Drop)]
enum Want {
    New,
    As(usize),
    Terms(&'static [usize]),
    Done,
    Nothing,
    Status(Status),
    Flag(bool),
    Number(usize),
    Text(&'static str),
    Wrong(usize, Wanted, TypeId),
    HasVariable(usize),
    Refused(CallError),
}

// A call, the rows whose replies are its handles, its name, and its reply.
type Row = (Word, &'static [usize], &'static str, Want);

const CONSTRUCTORS: [Row; 42] = [
    (Word::BoolType, &[], "", Want::New),
    (Word::True, &[], "", Want::New),
    (Word::False, &[], "", Want::New),
    (Word::BoolType, &[], "", Want::As(0)),
    (Word::Constant, &[0], "", Want::New),
    (Word::Constant, &[0], "", Want::New),
    (Word::Variable, &[0], "", Want::New),
    (Word::Constant, &[REAL], "", Want::New),
    (
        Word::Constant,
        &[DEAD],
        "",
        Want::Refused(CallError::DeadType(1)),
    ),
    (
        Word::Variable,
        &[DEAD],
        "",
        Want::Refused(CallError::DeadType(1)),
    ),
    (Word::NumTerms, &[], "", Want::Number(6)),
    (Word::NumTypes, &[], "", Want::Number(130)),
    // Simplified.
    (Word::Build(Operator::Not), &[4], "", Want::New),
    (Word::Build(Operator::Not), &[12], "", Want::As(4)),
    (Word::Build(Operator::And), &[5, 4, 1], "", Want::New),
    (Word::Build(Operator::And), &[4, 5], "", Want::As(14)),
    (Word::Build(Operator::And), &[], "", Want::As(1)),
    (Word::Build(Operator::Or), &[], "", Want::As(2)),
    (Word::Build(Operator::Or), &[4, 12], "", Want::As(1)),
    (Word::Build(Operator::Xor), &[4, 5], "", Want::New),
    (Word::Build(Operator::Iff), &[4, 5], "", Want::New),
    (Word::Build(Operator::Not), &[20], "", Want::As(19)),
    (Word::Build(Operator::Neq), &[4, 5], "", Want::As(19)),
    (Word::Build(Operator::Distinct), &[4, 5], "", Want::As(19)),
    (Word::Build(Operator::Implies), &[4, 5], "", Want::New),
    (Word::Build(Operator::Or), &[5, 12], "", Want::As(24)),
    (Word::Build(Operator::Ite), &[4, 5, 6], "", Want::New),
    (Word::Build(Operator::Ite), &[1, 4, 5], "", Want::As(4)),
    (Word::Build(Operator::Eq), &[7, 7], "", Want::As(1)),
    (Word::Build(Operator::Distinct), &[4, 5, 6], "", Want::As(2)),
    (Word::NumTerms, &[], "", Want::Number(12)),
    // Refused: dead arguments come before types.
    (
        Word::Build(Operator::And),
        &[4, DEAD, DEAD],
        "",
        Want::Refused(CallError::DeadTerm(2)),
    ),
    (
        Word::Build(Operator::And),
        &[7, DEAD],
        "",
        Want::Refused(CallError::DeadTerm(2)),
    ),
    (
        Word::Build(Operator::And),
        &[4, 7],
        "",
        Want::Wrong(2, Wanted::Bool, REAL_TYPE),
    ),
    (
        Word::Build(Operator::Ite),
        &[7, 4, 5],
        "",
        Want::Wrong(1, Wanted::Bool, REAL_TYPE),
    ),
    (
        Word::Build(Operator::Eq),
        &[4, 7],
        "",
        Want::Wrong(2, Wanted::Same(BOOL_TYPE), REAL_TYPE),
    ),
    (
        Word::Build(Operator::Distinct),
        &[],
        "",
        Want::Refused(CallError::BadArity(0)),
    ),
    // Types and texts.
    (Word::TypeOf, &[14], "", Want::As(0)),
    (
        Word::TypeOf,
        &[DEAD],
        "",
        Want::Refused(CallError::DeadTerm(1)),
    ),
    (Word::Print, &[24], "", Want::Text("(or (not c!0) c!1)")),
    (Word::Print, &[26], "", Want::Text("(ite c!0 c!1 v!0)")),
    (
        Word::Print,
        &[DEAD],
        "",
        Want::Refused(CallError::DeadTerm(1)),
    ),
];

const NAMES_AND_COUNTS: [Row; 33] = [
    (Word::BoolType, &[], "", Want::New),
    (Word::Constant, &[0], "", Want::New),
    (Word::Constant, &[0], "", Want::New),
    (Word::Build(Operator::And), &[1, 2], "", Want::New),
    (Word::SetTermName, &[1], "p", Want::Done),
    (Word::SetTermName, &[2], "p", Want::Done),
    (Word::TermByName, &[], "p", Want::As(2)),
    (Word::TermName, &[1], "", Want::Text("p")),
    (Word::RemoveTermName, &[], "p", Want::Flag(true)),
    (Word::TermByName, &[], "p", Want::As(1)),
    (Word::TermName, &[2], "", Want::Nothing),
    (Word::Print, &[3], "", Want::Text("(and p c!1)")),
    (Word::RemoveTermName, &[], "p", Want::Flag(true)),
    (Word::RemoveTermName, &[], "p", Want::Flag(false)),
    (Word::TermByName, &[], "p", Want::Nothing),
    (
        Word::SetTermName,
        &[DEAD],
        "p",
        Want::Refused(CallError::DeadTerm(2)),
    ),
    (
        Word::TermName,
        &[DEAD],
        "",
        Want::Refused(CallError::DeadTerm(1)),
    ),
    (Word::SetTypeName, &[0], "b", Want::Done),
    (Word::TypeByName, &[], "b", Want::As(0)),
    (Word::TypeName, &[0], "", Want::Text("b")),
    (Word::RemoveTypeName, &[], "b", Want::Flag(true)),
    (Word::TypeName, &[0], "", Want::Nothing),
    (Word::TypeByName, &[], "b", Want::Nothing),
    (
        Word::SetTypeName,
        &[DEAD],
        "b",
        Want::Refused(CallError::DeadType(2)),
    ),
    (
        Word::TypeName,
        &[DEAD],
        "",
        Want::Refused(CallError::DeadType(1)),
    ),
    // Counts.
    (Word::Incref, &[3], "", Want::Done),
    (Word::Decref, &[3], "", Want::Done),
    (Word::Decref, &[3], "", Want::Refused(CallError::CountZero)),
    (
        Word::Incref,
        &[DEAD],
        "",
        Want::Refused(CallError::DeadTerm(1)),
    ),
    (Word::IncrefType, &[0], "", Want::Done),
    (Word::DecrefType, &[0], "", Want::Done),
    (
        Word::DecrefType,
        &[0],
        "",
        Want::Refused(CallError::CountZero),
    ),
    (
        Word::IncrefType,
        &[DEAD],
        "",
        Want::Refused(CallError::DeadType(1)),
    ),
];

const CONTEXTS_AND_COLLECTIONS: [Row; 40] = [
    (Word::BoolType, &[], "", Want::New),
    (Word::Constant, &[0], "", Want::New),
    (Word::Constant, &[0], "", Want::New),
    (Word::Variable, &[0], "", Want::New),
    (Word::Constant, &[REAL], "", Want::New),
    (Word::Build(Operator::And), &[1, 2], "", Want::New),
    (Word::Build(Operator::Implies), &[1, 2], "", Want::New),
    (Word::Build(Operator::Ite), &[1, 2, 3], "", Want::New),
    // The place of what is no truth value counts formulas alone.
    (Word::NewContext, &[], "", Want::New),
    (Word::NewContext, &[], "", Want::New),
    (Word::Push, &[8], "", Want::Done),
    (Word::Assert, &[8, 5], "", Want::Done),
    (Word::Assert, &[9, 6], "", Want::Done),
    (Word::Assert, &[8, 7], "", Want::HasVariable(3)),
    (
        Word::Assert,
        &[8, 4],
        "",
        Want::Refused(CallError::NotBool(1)),
    ),
    (
        Word::Assert,
        &[8, DEAD],
        "",
        Want::Refused(CallError::DeadTerm(2)),
    ),
    (
        Word::Assert,
        &[DEAD, DEAD],
        "",
        Want::Refused(CallError::DeadContext(1)),
    ),
    (Word::Status, &[8], "", Want::Status(Status::Idle)),
    // Formulas stay, then listed handles, then names where they count.
    (Word::Collect(false), &[], "", Want::Done),
    (Word::NumTerms, &[], "", Want::Number(7)),
    (
        Word::TypeOf,
        &[7],
        "",
        Want::Refused(CallError::DeadTerm(1)),
    ),
    (Word::Pop, &[8], "", Want::Done),
    (Word::Pop, &[8], "", Want::Refused(CallError::BottomLevel)),
    (Word::Reset, &[9], "", Want::Done),
    (Word::Collect(false), &[2, 0], "", Want::Done),
    (Word::NumTerms, &[], "", Want::Number(3)),
    (
        Word::Collect(false),
        &[0, 2, 5, DEAD],
        "",
        Want::Refused(CallError::DeadTerm(4)),
    ),
    (Word::SetTermName, &[2], "q", Want::Done),
    (Word::Collect(true), &[], "", Want::Done),
    (Word::TermByName, &[], "q", Want::As(2)),
    (Word::Collect(false), &[], "", Want::Done),
    (Word::TermByName, &[], "q", Want::Nothing),
    (
        Word::Build(Operator::Not),
        &[2],
        "",
        Want::Refused(CallError::DeadTerm(1)),
    ),
    // A new context has the key of a freed one, and another handle.
    (Word::FreeContext, &[8], "", Want::Done),
    (
        Word::FreeContext,
        &[8],
        "",
        Want::Refused(CallError::DeadContext(1)),
    ),
    (
        Word::Status,
        &[8],
        "",
        Want::Refused(CallError::DeadContext(1)),
    ),
    (Word::NewContext, &[], "", Want::New),
    (
        Word::Reset,
        &[8],
        "",
        Want::Refused(CallError::DeadContext(1)),
    ),
    (Word::Reset, &[9], "", Want::Done),
    (Word::Constant, &[0], "", Want::New),
];

const CHECKS: [Row; 52] = [
    (Word::BoolType, &[], "", Want::New),
    (Word::Constant, &[0], "", Want::New),
    (Word::Constant, &[0], "", Want::New),
    (Word::Build(Operator::Or), &[1, 2], "", Want::New),
    (Word::Build(Operator::Not), &[1], "", Want::New),
    (Word::Build(Operator::Not), &[2], "", Want::New),
    (Word::Variable, &[0], "", Want::New),
    (Word::NewContext, &[], "", Want::New),
    (Word::NewContext, &[], "", Want::New),
    (Word::NewContext, &[], "", Want::New),
    // No formula at all can be true, and one that is asserted makes the status unknown again.
    (Word::Check, &[7], "", Want::Status(Status::Sat)),
    (Word::Assert, &[7, 3], "", Want::Done),
    (Word::Status, &[7], "", Want::Status(Status::Idle)),
    // The assumptions to blame, each once.
    (Word::Assume, &[7, 4, 5, 4], "", Want::Status(Status::Unsat)),
    (Word::Status, &[7], "", Want::Status(Status::Unsat)),
    (Word::Core, &[7], "", Want::Terms(&[4, 5])),
    // A collection keeps the formula and the core, and frees the variable.
    (Word::Collect(false), &[], "", Want::Done),
    (Word::NumTerms, &[], "", Want::Number(7)),
    (Word::Core, &[7], "", Want::Terms(&[4, 5])),
    (Word::Assume, &[7, 4], "", Want::Status(Status::Sat)),
    (Word::Core, &[7], "", Want::Refused(CallError::NoCore)),
    // Now nothing keeps the negations. Dead handles are told before all else, with the limit as a place.
    (Word::Collect(false), &[], "", Want::Done),
    (Word::NumTerms, &[], "", Want::Number(5)),
    (
        Word::Assume,
        &[7, 1, 4],
        "",
        Want::Refused(CallError::DeadTerm(4)),
    ),
    (
        Word::Assume,
        &[DEAD, 4],
        "",
        Want::Refused(CallError::DeadContext(1)),
    ),
    (
        Word::Check,
        &[DEAD],
        "",
        Want::Refused(CallError::DeadContext(1)),
    ),
    (
        Word::Core,
        &[DEAD],
        "",
        Want::Refused(CallError::DeadContext(1)),
    ),
    // Assumptions that are no formulas, and the status stays.
    (Word::Variable, &[0], "", Want::New),
    (Word::Constant, &[REAL], "", Want::New),
    (Word::Constant, &[REAL], "", Want::New),
    (
        Word::Assume,
        &[7, 28, 27],
        "",
        Want::Refused(CallError::NotBool(1)),
    ),
    (Word::Assume, &[7, 1, 27], "", Want::HasVariable(27)),
    (Word::Status, &[7], "", Want::Status(Status::Sat)),
    // Of formulas on a level that can't be true, a check without assumptions keeps no core.
    (Word::Build(Operator::Not), &[3], "", Want::New),
    (Word::Push, &[7], "", Want::Done),
    (Word::Assert, &[7, 33], "", Want::Done),
    (Word::Check, &[7], "", Want::Status(Status::Unsat)),
    (Word::Core, &[7], "", Want::Refused(CallError::NoCore)),
    // They are the core of no assumptions; another context knows nothing of them.
    (Word::Assume, &[7, 1], "", Want::Status(Status::Unsat)),
    (Word::Core, &[7], "", Want::Terms(&[])),
    (Word::Assume, &[8, 33], "", Want::Status(Status::Sat)),
    (Word::Status, &[7], "", Want::Status(Status::Unsat)),
    (Word::Status, &[9], "", Want::Status(Status::Idle)),
    // A popped level doesn't count, also where a collection freed its formula.
    (Word::Pop, &[7], "", Want::Done),
    (Word::Status, &[7], "", Want::Status(Status::Idle)),
    (Word::Build(Operator::Eq), &[28, 29], "", Want::New),
    (Word::Assert, &[9, 45], "", Want::Done),
    (Word::Collect(false), &[], "", Want::Done),
    (Word::Check, &[7], "", Want::Status(Status::Sat)),
    (
        Word::Build(Operator::And),
        &[1, 33],
        "",
        Want::Refused(CallError::DeadTerm(2)),
    ),
    // Values other than truth values aren't decided yet.
    (Word::Check, &[9], "", Want::Refused(CallError::NotBuilt)),
    (Word::Status, &[9], "", Want::Status(Status::Idle)),
];

// The row of the handle at that place, from 0 on.
fn row_at(rows: &[usize], place: usize) -> usize {
    match rows.get(place) {
        Some(row) => *row,
        None => DEAD,
    }
}

fn term(replies: &[Reply], row: usize) -> Term {
    match replies.get(row) {
        Some(Reply::Term(t)) => *t,
        _ => {
            Term {
                slot: 900,
                stamp: 0,
            }
        }
    }
}

fn type_id(replies: &[Reply], row: usize) -> TypeId {
    match replies.get(row) {
        Some(Reply::TypeId(t)) => *t,
        _ => {
            TypeId {
                slot: if row == REAL { 1 } else { 900 },
                stamp: 0,
            }
        }
    }
}

fn context(replies: &[Reply], row: usize) -> ContextId {
    match replies.get(row) {
        Some(Reply::Context(id)) => *id,
        _ => ContextId { key: 9, stamp: 900 },
    }
}

fn terms(alloc: Global, replies: &[Reply], rows: &[usize]) -> Result<Terms, AllocError> {
    let mut list = Terms::new(alloc);
    for row in rows {
        list.push(term(replies, *row))?;
    }
    Ok(list)
}

// The terms of the rows behind the first.
fn others(alloc: Global, replies: &[Reply], rows: &[usize]) -> Result<Terms, AllocError> {
    let mut list = Terms::new(alloc);
    for (at, row) in rows.iter().enumerate() {
        if at > 0 {
            list.push(term(replies, *row))?;
        }
    }
    Ok(list)
}

fn marked(replies: &[Reply], row: usize) -> Marked {
    match replies.get(row) {
        Some(Reply::TypeId(t)) => Marked::TypeId(*t),
        _ => Marked::Term(term(replies, row)),
    }
}

fn roots(alloc: Global, replies: &[Reply], rows: &[usize]) -> Result<MarkedList, AllocError> {
    let mut list = MarkedList::new(alloc);
    for row in rows {
        list.push(marked(replies, *row))?;
    }
    Ok(list)
}

fn constructor(
    alloc: Global,
    replies: &[Reply],
    operator: Operator,
    rows: &[usize],
) -> Result<Call, AllocError> {
    let a = term(replies, row_at(rows, 0));
    let b = term(replies, row_at(rows, 1));
    Ok(match operator {
        Operator::Not => Call::Not(a),
        Operator::And => Call::And(terms(alloc, replies, rows)?),
        Operator::Or => Call::Or(terms(alloc, replies, rows)?),
        Operator::Xor => Call::Xor(terms(alloc, replies, rows)?),
        Operator::Implies => Call::Implies(a, b),
        Operator::Iff => Call::Iff(a, b),
        Operator::Ite => Call::Ite(a, b, term(replies, row_at(rows, 2))),
        Operator::Eq => Call::Eq(a, b),
        Operator::Neq => Call::Neq(a, b),
        Operator::Distinct => Call::Distinct(terms(alloc, replies, rows)?),
    })
}

fn call_of(
    alloc: Global,
    replies: &[Reply],
    word: Word,
    rows: &[usize],
    name: &str,
) -> Result<Call, AllocError> {
    let first = row_at(rows, 0);
    let t = term(replies, first);
    let of = type_id(replies, first);
    let id = context(replies, first);
    Ok(match word {
        Word::BoolType => Call::BoolType,
        Word::True => Call::True,
        Word::False => Call::False,
        Word::Constant => Call::NewUninterpretedTerm(of),
        Word::Variable => Call::NewVariable(of),
        Word::Build(operator) => constructor(alloc, replies, operator, rows)?,
        Word::TypeOf => Call::TypeOfTerm(t),
        Word::Print => Call::PpTerm(t),
        Word::Incref => Call::IncrefTerm(t),
        Word::Decref => Call::DecrefTerm(t),
        Word::IncrefType => Call::IncrefType(of),
        Word::DecrefType => Call::DecrefType(of),
        Word::NumTerms => Call::NumTerms,
        Word::NumTypes => Call::NumTypes,
        Word::Collect(named) => Call::GarbageCollect(named, roots(alloc, replies, rows)?),
        Word::SetTermName => Call::SetTermName(Text::new(alloc, name)?, t),
        Word::SetTypeName => Call::SetTypeName(Text::new(alloc, name)?, of),
        Word::TermByName => Call::GetTermByName(Text::new(alloc, name)?),
        Word::TypeByName => Call::GetTypeByName(Text::new(alloc, name)?),
        Word::TermName => Call::GetTermName(t),
        Word::TypeName => Call::GetTypeName(of),
        Word::RemoveTermName => Call::RemoveTermName(Text::new(alloc, name)?),
        Word::RemoveTypeName => Call::RemoveTypeName(Text::new(alloc, name)?),
        Word::NewContext => Call::NewContext,
        Word::FreeContext => Call::FreeContext(id),
        Word::Reset => Call::ResetContext(id),
        Word::Push => Call::Push(id),
        Word::Pop => Call::Pop(id),
        Word::Status => Call::ContextStatus(id),
        Word::Assert => Call::AssertFormula(id, term(replies, row_at(rows, 1))),
        Word::Check => Call::CheckContext(id, Turns::Whole),
        Word::Assume => {
            Call::CheckContextWithAssumptions(id, Turns::Whole, others(alloc, replies, rows)?)
        }
        Word::Core => Call::GetUnsatCore(id),
    })
}

fn is_handle(reply: &Reply) -> bool {
    match reply {
        Reply::TypeId(_) | Reply::Term(_) | Reply::Context(_) => true,
        _ => false,
    }
}

fn is_same_handle(a: &Reply, b: &Reply) -> bool {
    match a {
        Reply::TypeId(t) => {
            match b {
                Reply::TypeId(u) => *t == *u,
                _ => false,
            }
        }
        Reply::Term(t) => {
            match b {
                Reply::Term(u) => *t == *u,
                _ => false,
            }
        }
        Reply::Context(c) => {
            match b {
                Reply::Context(d) => *c == *d,
                _ => false,
            }
        }
        _ => false,
    }
}

fn has(replies: &[Reply], reply: &Reply) -> bool {
    for earlier in replies {
        if is_same_handle(earlier, reply) {
            return true;
        }
    }
    false
}

fn are_terms_of(replies: &[Reply], rows: &[usize], found: &[Term]) -> bool {
    if rows.len() != found.len() {
        return false;
    }
    for (at, row) in rows.iter().enumerate() {
        if found[at] != term(replies, *row) {
            return false;
        }
    }
    true
}

// Whether the call was refused, and so.
fn is_refused(reply: &Reply, why: CallError) -> bool {
    match reply {
        Reply::Refused(e) => *e == why,
        _ => false,
    }
}

// Whether that was told, where it is no handle and no refusal.
fn is_told(reply: &Reply, want: Want) -> bool {
    match want {
        Want::Done => matches!(reply, Reply::Done),
        Want::Nothing => matches!(reply, Reply::Nothing),
        Want::Status(status) => {
            match reply {
                Reply::Status(found) => status == *found,
                _ => false,
            }
        }
        Want::Flag(flag) => {
            match reply {
                Reply::Flag(found) => flag == *found,
                _ => false,
            }
        }
        Want::Number(number) => {
            match reply {
                Reply::Number(found) => number == *found,
                _ => false,
            }
        }
        Want::Text(wanted) => {
            match reply {
                Reply::Text(text) => text.as_str() == wanted,
                _ => false,
            }
        }
        _ => false,
    }
}

fn is_wanted(replies: &[Reply], reply: &Reply, want: Want) -> bool {
    match want {
        Want::New => is_handle(reply) && !has(replies, reply),
        Want::As(row) => {
            match replies.get(row) {
                Some(earlier) => is_same_handle(earlier, reply),
                None => false,
            }
        }
        Want::Terms(rows) => {
            match reply {
                Reply::Terms(found) => are_terms_of(replies, rows, found.as_slice()),
                _ => false,
            }
        }
        Want::Wrong(place, wanted, found) => {
            is_refused(
                reply,
                CallError::WrongType {
                    place,
                    wanted,
                    found,
                },
            )
        }
        Want::HasVariable(row) => is_refused(reply, CallError::HasVariable(term(replies, row))),
        Want::Refused(e) => is_refused(reply, e),
        _ => is_told(reply, want),
    }
}

fn answer(alloc: Global, env: &mut Env, replies: &[Reply], row: &Row) -> Result<Reply, AllocError> {
    let (word, rows, name, _) = *row;
    let call = call_of(alloc, replies, word, rows, name)?;
    Ok(step(env, &call))
}

fn run<R: Abort + AllocGlobal>(rt: &R, rows: &[Row]) -> Result<(), Fail> {
    let alloc: Global = rt.alloc();
    let mut env = Env::new(alloc)?;
    let mut replies: Vec<Reply> = Vec::new(alloc);
    for (at, row) in rows.iter().enumerate() {
        let reply = answer(alloc, &mut env, replies.as_slice(), row)?;
        assert!(rt; is_wanted(replies.as_slice(), &reply, row.3), "row {at}");
        replies.push(reply)?;
    }
    Ok(())
}

#[test]
fn constructors(rt: HostRuntime) -> Result<(), Fail> {
    run(&rt, &CONSTRUCTORS)
}

#[test]
fn names_and_counts(rt: HostRuntime) -> Result<(), Fail> {
    run(&rt, &NAMES_AND_COUNTS)
}

#[test]
fn contexts_and_collections(rt: HostRuntime) -> Result<(), Fail> {
    run(&rt, &CONTEXTS_AND_COLLECTIONS)
}

#[test]
fn checks(rt: HostRuntime) -> Result<(), Fail> {
    run(&rt, &CHECKS)
}
