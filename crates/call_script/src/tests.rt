// What lines say, worked out by hand from the manual's rules.
use super::*;
use std::alloc::Global;
use std::process::Abort;
use std::test::Fail;

/// How the line ends, in one word.
const N: LineEnd = LineEnd::Newline;

const T: LineEnd = LineEnd::TextEnd;

const O: LineEnd = LineEnd::Open;

/// What is told of a line: a call by its word, its column and the number of its arguments.
#[derive(Clone, Copy, Debug, PartialEq, Eq, Drop)]
enum Told {
    Nothing,
    GoesOn,
    Call(CallWord, usize, usize),
    Bad(usize),
    Unexpected(usize),
    End(usize),
    Later(usize),
    Memory,
}

const ROWS: [(&str, LineEnd, Told); 98] = [
    ("", N, Told::Nothing),
    (" \t", N, Told::Nothing),
    ("; \u{e9} \"", N, Told::Nothing),
    ("bool_type", N, Told::Call(CallWord::BoolType, 1, 0)),
    ("\tbool_type ", N, Told::Call(CallWord::BoolType, 2, 0)),
    ("true", N, Told::Call(CallWord::True, 1, 0)),
    ("num_terms", N, Told::Call(CallWord::NumTerms, 1, 0)),
    (
        "new_uninterpreted_term #1",
        N,
        Told::Call(CallWord::NewUninterpretedTerm, 1, 1),
    ),
    ("not #2", N, Told::Call(CallWord::Not, 1, 1)),
    ("not #2;rest", N, Told::Call(CallWord::Not, 1, 1)),
    ("not #0", N, Told::Call(CallWord::Not, 1, 1)),
    (
        "not #18446744073709551616",
        N,
        Told::Call(CallWord::Not, 1, 1),
    ),
    ("and", N, Told::Call(CallWord::And, 1, 0)),
    ("or #1 #2 #3", N, Told::Call(CallWord::Or, 1, 3)),
    ("xor #1.2", N, Told::Call(CallWord::Xor, 1, 1)),
    ("implies #1\t#2", N, Told::Call(CallWord::Implies, 1, 2)),
    ("ite #1 #2 #3 ; if", N, Told::Call(CallWord::Ite, 1, 3)),
    ("distinct #4 #4", N, Told::Call(CallWord::Distinct, 1, 2)),
    (
        "garbage_collect true",
        N,
        Told::Call(CallWord::GarbageCollect, 1, 1),
    ),
    (
        "garbage_collect false #1 #2",
        N,
        Told::Call(CallWord::GarbageCollect, 1, 3),
    ),
    (
        "set_term_name \"p q;(\" #2",
        N,
        Told::Call(CallWord::SetTermName, 1, 2),
    ),
    (
        "get_type_by_name \"T\"",
        N,
        Told::Call(CallWord::GetTypeByName, 1, 1),
    ),
    ("push #1", N, Told::Call(CallWord::Push, 1, 1)),
    (
        "assert_formula #1 #2",
        N,
        Told::Call(CallWord::AssertFormula, 1, 2),
    ),
    ("foo", N, Told::Unexpected(1)),
    ("Not #1", N, Told::Unexpected(1)),
    ("not# 1", N, Told::Unexpected(1)),
    ("(not #1)", N, Told::Unexpected(1)),
    (" )", N, Told::Unexpected(2)),
    ("\"a\" #1", N, Told::Unexpected(1)),
    ("real_type", N, Told::Later(1)),
    ("  bv_type 4", N, Told::Later(3)),
    ("get_model #1", N, Told::Later(1)),
    ("get_model #1 )", N, Told::Later(1)),
    ("real_type\u{7f}", N, Told::Later(1)),
    ("not 1", N, Told::Unexpected(5)),
    ("not #", N, Told::Unexpected(5)),
    ("not #1a", N, Told::Unexpected(5)),
    ("not #+1", N, Told::Unexpected(5)),
    ("not #1.", N, Told::Unexpected(5)),
    ("not #.1", N, Told::Unexpected(5)),
    ("not #1.2.3", N, Told::Unexpected(5)),
    ("not true", N, Told::Unexpected(5)),
    ("garbage_collect yes", N, Told::Unexpected(17)),
    ("garbage_collect #1", N, Told::Unexpected(17)),
    ("garbage_collect true false", N, Told::Unexpected(22)),
    ("bool_type #1", N, Told::Unexpected(11)),
    ("not #1 #2", N, Told::Unexpected(8)),
    ("set_term_name p #1", N, Told::Unexpected(15)),
    ("set_term_name \"p\" \"q\"", N, Told::Unexpected(19)),
    ("set_term_name \"\" #1", N, Told::Unexpected(15)),
    ("not \"p\"", N, Told::Unexpected(5)),
    ("not \"p", N, Told::Unexpected(5)),
    ("set_term_name\"p\" #1", N, Told::Unexpected(14)),
    ("set_term_name \"p\"#1", N, Told::Unexpected(18)),
    ("get_term_by_name \"p\"\"q\"", N, Told::Unexpected(21)),
    ("not #1(", N, Told::Unexpected(7)),
    ("not ( #1", N, Told::Unexpected(5)),
    ("not\u{c}#1", N, Told::Bad(4)),
    ("bool_type\r", N, Told::Bad(10)),
    ("foo\r", N, Told::Unexpected(1)),
    ("\u{7f}", N, Told::Bad(1)),
    ("not #1 \u{80}", N, Told::Bad(8)),
    ("not #x\u{80}", N, Told::Unexpected(5)),
    ("get_term_by_name \"a\\b\"", N, Told::Bad(20)),
    ("get_term_by_name \"\t\"", N, Told::Bad(19)),
    ("not \"\t\"", N, Told::Unexpected(5)),
    ("not", N, Told::Unexpected(4)),
    ("not ", N, Told::Unexpected(5)),
    ("eq #1 ; #2", N, Told::Unexpected(11)),
    ("garbage_collect", N, Told::Unexpected(16)),
    ("get_term_by_name \"a", N, Told::Unexpected(20)),
    ("", T, Told::Nothing),
    ("not #1", T, Told::Call(CallWord::Not, 1, 1)),
    ("not", T, Told::End(4)),
    ("ite #1 #2", T, Told::End(10)),
    ("get_term_by_name \"a b", T, Told::End(22)),
    ("foo", T, Told::Unexpected(1)),
    ("real_type", T, Told::Later(1)),
    ("not x", T, Told::Unexpected(5)),
    ("", O, Told::GoesOn),
    ("; ", O, Told::GoesOn),
    ("foo", O, Told::GoesOn),
    ("foo ", O, Told::Unexpected(1)),
    ("foo;", O, Told::Unexpected(1)),
    ("real_type", O, Told::GoesOn),
    ("real_type\t", O, Told::Later(1)),
    ("not #1", O, Told::GoesOn),
    ("not #1 ", O, Told::GoesOn),
    ("not x", O, Told::GoesOn),
    ("not x(", O, Told::Unexpected(5)),
    ("not #1 #2", O, Told::GoesOn),
    ("not #1 #2 ", O, Told::Unexpected(8)),
    ("not \"", O, Told::Unexpected(5)),
    ("get_term_by_name \"a", O, Told::GoesOn),
    ("get_term_by_name \"a\" ", O, Told::GoesOn),
    ("get_term_by_name \"a\"b", O, Told::Unexpected(21)),
    ("not #1 \u{80}", O, Told::Bad(8)),
];

// Checks: a context, a limit of turns, and any number of assumptions.
const CHECKS: [(&str, LineEnd, Told); 24] = [
    (
        "check_context #1 whole",
        N,
        Told::Call(CallWord::CheckContext, 1, 2),
    ),
    (
        " check_context #1.2 0 ; none",
        T,
        Told::Call(CallWord::CheckContext, 2, 2),
    ),
    (
        "check_context #1 18446744073709551615",
        N,
        Told::Call(CallWord::CheckContext, 1, 2),
    ),
    (
        "check_context #1 00000000000000000000007",
        N,
        Told::Call(CallWord::CheckContext, 1, 2),
    ),
    (
        "check_context_with_assumptions #1 whole",
        N,
        Told::Call(CallWord::CheckContextWithAssumptions, 1, 2),
    ),
    (
        "check_context_with_assumptions #1 5 #2 #3.1 #2",
        N,
        Told::Call(CallWord::CheckContextWithAssumptions, 1, 5),
    ),
    (
        "get_unsat_core #1",
        N,
        Told::Call(CallWord::GetUnsatCore, 1, 1),
    ),
    (
        "check_context #1 18446744073709551616",
        N,
        Told::Unexpected(18),
    ),
    (
        "check_context_with_assumptions #1 99999999999999999999 #x",
        N,
        Told::Unexpected(35),
    ),
    ("check_context #1 +1", N, Told::Unexpected(18)),
    ("check_context #1 -1", N, Told::Unexpected(18)),
    ("check_context #1 1x", N, Told::Unexpected(18)),
    ("check_context #1 Whole", N, Told::Unexpected(18)),
    ("check_context #1 whole1", N, Told::Unexpected(18)),
    ("check_context #1 #1", N, Told::Unexpected(18)),
    ("check_context #1 \"whole\"", N, Told::Unexpected(18)),
    ("check_context #1 true", N, Told::Unexpected(18)),
    ("check_context whole #1", N, Told::Unexpected(15)),
    ("check_context #1 whole #2", N, Told::Unexpected(24)),
    (
        "check_context_with_assumptions #1 1 whole",
        N,
        Told::Unexpected(37),
    ),
    ("not whole", N, Told::Unexpected(5)),
    ("check_context #1", N, Told::Unexpected(17)),
    ("check_context_with_assumptions #1 ", T, Told::End(35)),
    ("check_context #1 whole", O, Told::GoesOn),
];

// Limits, and what they are.
const LIMITS: [(&str, Option<u64>); 6] = [
    ("check_context #1 whole", None),
    ("check_context #1 0", Some(0)),
    ("check_context #1 000", Some(0)),
    ("check_context #1 42", Some(42)),
    ("check_context #1 0018446744073709551615", Some(u64::MAX)),
    ("check_context_with_assumptions #1 7 #2", Some(7)),
];

fn in_short(said: &Result<Line, LineError>) -> Told {
    match said {
        Ok(Line::Empty) => Told::Nothing,
        Ok(Line::Unfinished) => Told::GoesOn,
        Ok(Line::Call(call)) => Told::Call(call.word, call.column, call.arguments.len()),
        Err(LineError::BadByte(at)) => Told::Bad(*at),
        Err(LineError::Unexpected(at)) => Told::Unexpected(*at),
        Err(LineError::EndOfInput(at)) => Told::End(*at),
        Err(LineError::NotBuilt(at)) => Told::Later(*at),
        Err(LineError::NoMemory) => Told::Memory,
    }
}

fn check_rows(rt: &impl Abort, alloc: Global, rows: &[(&str, LineEnd, Told)]) {
    for row in rows {
        let said = read_line(alloc, row.0.as_bytes(), row.1);
        assert_eq!(rt; in_short(&said), row.2, "at {:?}", row.0);
    }
}

#[test]
fn each_line_says_what_it_should(rt: HostRuntime) -> Result<(), Fail> {
    let alloc: Global = rt.alloc();
    check_rows(&rt, alloc, &ROWS);
    Ok(())
}

#[test]
fn each_check_has_a_limit(rt: HostRuntime) -> Result<(), Fail> {
    let alloc: Global = rt.alloc();
    check_rows(&rt, alloc, &CHECKS);
    Ok(())
}

fn second_argument(said: &Result<Line, LineError>) -> Option<&Argument> {
    match said {
        Ok(Line::Call(call)) => call.arguments.get(1),
        _ => None,
    }
}

fn check_limits(rt: &impl Abort, alloc: Global, rows: &[(&str, Option<u64>)]) {
    for row in rows {
        let said = read_line(alloc, row.0.as_bytes(), LineEnd::Newline);
        let want = Argument::Limit(row.1);
        assert_eq!(rt; second_argument(&said), Some(&want), "at {:?}", row.0);
    }
}

#[test]
fn a_limit_is_its_number(rt: HostRuntime) -> Result<(), Fail> {
    let alloc: Global = rt.alloc();
    check_limits(&rt, alloc, &LIMITS);
    Ok(())
}
