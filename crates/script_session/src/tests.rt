// Scripts with their replies, worked out by hand from what each call does.
use super::*;
use call_script::LineEnd;
use std::alloc::Global;
use std::process::Abort;
use std::test::Fail;
use yices_grammar::Place;

// A line, and what is said of it. Each table is one script.
type Row = (&'static str, &'static str);

// A freed handle is refused for good, also where its slot is used again.
const FREED: [Row; 10] = [
    ("bool_type", "#1 type bool\n"),
    ("new_uninterpreted_term #1", "#2 term\n"),
    ("new_uninterpreted_term #1", "#3 term\n"),
    ("and #2 #3", "#4 term\n"),
    ("incref_term #2", "#5 ok\n"),
    ("garbage_collect false", "#6 ok\n"),
    ("type_of_term #4", "#7 refused DeadTerm 1\n"),
    ("new_uninterpreted_term #1", "#8 term\n"),
    ("incref_term #4", "#9 refused DeadTerm 1\n"),
    ("num_terms", "#10 4\n"),
];

// A count keeps a term, and what stands below it.
const COUNTED: [Row; 8] = [
    ("bool_type", "#1 type bool\n"),
    ("new_uninterpreted_term #1", "#2 term\n"),
    ("not #2", "#3 term\n"),
    ("incref_term #3", "#4 ok\n"),
    ("garbage_collect false", "#5 ok\n"),
    ("type_of_term #2", "#6 type bool\n"),
    ("decref_term #3", "#7 ok\n"),
    ("decref_term #3", "#8 refused CountZero\n"),
];

// A name keeps what it means only where it is asked to.
const UNNAMED: [Row; 6] = [
    ("bool_type", "#1 type bool\n"),
    ("new_uninterpreted_term #1", "#2 term\n"),
    ("set_term_name \"p\" #2", "#3 ok\n"),
    ("garbage_collect false", "#4 ok\n"),
    ("get_term_by_name \"p\"", "#5 none\n"),
    ("type_of_term #2", "#6 refused DeadTerm 1\n"),
];

const NAMED: [Row; 6] = [
    ("bool_type", "#1 type bool\n"),
    ("new_uninterpreted_term #1", "#2 term\n"),
    ("set_term_name \"p\" #2", "#3 ok\n"),
    ("garbage_collect true", "#4 ok\n"),
    ("get_term_by_name \"p\"", "#5 term\n"),
    ("type_of_term #2", "#6 type bool\n"),
];

// References without a result, and results of another kind: the least place, and results before kinds.
const REFERENCES: [Row; 25] = [
    ("free_context #1", "#1 refused NoResult 1\n"),
    ("; nothing", ""),
    ("\t ", ""),
    ("bool_type", "#4 type bool\n"),
    ("not #4", "#5 refused WrongKind 1\n"),
    ("true", "#6 term\n"),
    ("not #5", "#7 refused NoResult 1\n"),
    ("not #8", "#8 refused NoResult 1\n"),
    ("not #0", "#9 refused NoResult 1\n"),
    ("not #6.1", "#10 refused NoResult 1\n"),
    ("not #2", "#11 refused NoResult 1\n"),
    ("not #99999999999999999999", "#12 refused NoResult 1\n"),
    ("not #006", "#13 term\n"),
    ("incref_type #4", "#14 ok\n"),
    ("not #14", "#15 refused NoResult 1\n"),
    ("and #4 #99 #98", "#16 refused NoResult 2\n"),
    ("and #6 #4 #4", "#17 refused WrongKind 2\n"),
    ("new_context", "#18 context\n"),
    ("garbage_collect true #6 #18", "#19 refused WrongKind 3\n"),
    ("set_term_name \"p\" #4", "#20 refused WrongKind 2\n"),
    ("assert_formula #6 #18", "#21 refused WrongKind 1\n"),
    ("free_context #18", "#22 ok\n"),
    ("assert_formula #18 #18", "#23 refused WrongKind 2\n"),
    ("assert_formula #18 #6", "#24 refused DeadContext 1\n"),
    ("free_context #18", "#25 refused DeadContext 1\n"),
];

// What each kind of reply prints, and each refusal of the environment that can come here.
const PRINTED: [Row; 31] = [
    ("bool_type", "#1 type bool\n"),
    ("new_uninterpreted_term #1", "#2 term\n"),
    ("new_variable #1", "#3 term\n"),
    ("implies #2 #3", "#4 term\n"),
    ("pp_term #4", "#5 (or (not c!0) v!0)\n"),
    ("new_context", "#6 context\n"),
    ("assert_formula #6 #4", "#7 refused HasVariable v!0\n"),
    ("set_term_name \"x y\" #3", "#8 ok\n"),
    ("assert_formula #6 #4", "#9 refused HasVariable x y\n"),
    ("get_term_name #3", "#10 x y\n"),
    ("get_term_name #2", "#11 none\n"),
    ("remove_term_name \"x y\"", "#12 true\n"),
    ("remove_term_name \"x y\"", "#13 false\n"),
    ("context_status #6", "#14 idle\n"),
    ("pop #6", "#15 refused BottomLevel\n"),
    ("push #6", "#16 ok\n"),
    ("pop #6", "#17 ok\n"),
    ("reset_context #6", "#18 ok\n"),
    ("distinct", "#19 refused BadArity 0\n"),
    ("set_type_name \"b\" #1", "#20 ok\n"),
    ("get_type_by_name \"b\"", "#21 type bool\n"),
    ("get_type_name #21", "#22 b\n"),
    ("remove_type_name \"b\"", "#23 true\n"),
    ("incref_type #1", "#24 ok\n"),
    ("decref_type #1", "#25 ok\n"),
    ("decref_type #1", "#26 refused CountZero\n"),
    ("num_types", "#27 130\n"),
    ("ite #2 #3 #4", "#28 term\n"),
    ("garbage_collect false #2", "#29 ok\n"),
    ("num_terms", "#30 3\n"),
    ("xor #2 #3", "#31 refused DeadTerm 2\n"),
];

// Three pigeons in two holes: pigeon 1 is in hole 1 by #2, in hole 2 by #3, and so on up to #7.
const PIGEONS: [Row; 37] = [
    ("bool_type", "#1 type bool\n"),
    ("new_uninterpreted_term #1", "#2 term\n"),
    ("new_uninterpreted_term #1", "#3 term\n"),
    ("new_uninterpreted_term #1", "#4 term\n"),
    ("new_uninterpreted_term #1", "#5 term\n"),
    ("new_uninterpreted_term #1", "#6 term\n"),
    ("new_uninterpreted_term #1", "#7 term\n"),
    ("new_context", "#8 context\n"),
    ("not #2", "#9 term\n"),
    ("not #3", "#10 term\n"),
    ("not #4", "#11 term\n"),
    ("not #5", "#12 term\n"),
    ("not #6", "#13 term\n"),
    ("not #7", "#14 term\n"),
    ("or #2 #3", "#15 term\n"),
    ("assert_formula #8 #15", "#16 ok\n"),
    ("or #4 #5", "#17 term\n"),
    ("assert_formula #8 #17", "#18 ok\n"),
    ("or #6 #7", "#19 term\n"),
    ("assert_formula #8 #19", "#20 ok\n"),
    ("or #9 #11", "#21 term\n"),
    ("assert_formula #8 #21", "#22 ok\n"),
    ("or #9 #13", "#23 term\n"),
    ("assert_formula #8 #23", "#24 ok\n"),
    ("or #11 #13", "#25 term\n"),
    ("assert_formula #8 #25", "#26 ok\n"),
    ("or #10 #12", "#27 term\n"),
    ("assert_formula #8 #27", "#28 ok\n"),
    ("or #10 #14", "#29 term\n"),
    ("assert_formula #8 #29", "#30 ok\n"),
    ("or #12 #14", "#31 term\n"),
    ("assert_formula #8 #31", "#32 ok\n"),
    ("check_context #8 0", "#33 unknown\n"),
    ("context_status #8", "#34 unknown\n"),
    ("check_context #8 whole", "#35 unsat\n"),
    ("context_status #8", "#36 unsat\n"),
    ("get_unsat_core #8", "#37 refused NoCore\n"),
];

// A core is a list, whose entries count from 1.
const CORE: [Row; 29] = [
    ("bool_type", "#1 type bool\n"),
    ("new_uninterpreted_term #1", "#2 term\n"),
    ("new_uninterpreted_term #1", "#3 term\n"),
    ("new_uninterpreted_term #1", "#4 term\n"),
    ("set_term_name \"a\" #2", "#5 ok\n"),
    ("set_term_name \"c\" #4", "#6 ok\n"),
    ("and #2 #4", "#7 term\n"),
    ("not #7", "#8 term\n"),
    ("new_context", "#9 context\n"),
    ("assert_formula #9 #8", "#10 ok\n"),
    ("check_context #9 whole", "#11 sat\n"),
    (
        "check_context_with_assumptions #9 whole #2 #3 #4 #2",
        "#12 unsat\n",
    ),
    ("context_status #9", "#13 unsat\n"),
    ("get_unsat_core #9", "#14 list 2\n"),
    ("pp_term #14.1", "#15 a\n"),
    ("pp_term #14.2", "#16 c\n"),
    ("pp_term #14.3", "#17 refused NoResult 1\n"),
    ("pp_term #14.0", "#18 refused NoResult 1\n"),
    (
        "pp_term #14.99999999999999999999",
        "#19 refused NoResult 1\n",
    ),
    ("pp_term #14", "#20 refused NoResult 1\n"),
    ("pp_term #13.1", "#21 refused NoResult 1\n"),
    ("pp_term #2.1", "#22 refused NoResult 1\n"),
    ("push #14.1", "#23 refused WrongKind 1\n"),
    ("eq #14.1 #2", "#24 term\n"),
    ("check_context_with_assumptions #9 whole #24", "#25 sat\n"),
    ("get_unsat_core #9", "#26 refused NoCore\n"),
    (
        "check_context_with_assumptions #9 whole #14.2 #14.1",
        "#27 unsat\n",
    ),
    ("get_unsat_core #9", "#28 list 2\n"),
    ("pp_term #28.1", "#29 c\n"),
];

// A core keeps its terms, and the list that it gave does not.
const CORE_KEPT: [Row; 22] = [
    ("bool_type", "#1 type bool\n"),
    ("new_uninterpreted_term #1", "#2 term\n"),
    ("new_uninterpreted_term #1", "#3 term\n"),
    ("not #2", "#4 term\n"),
    ("new_context", "#5 context\n"),
    (
        "check_context_with_assumptions #5 whole #2 #3 #4",
        "#6 unsat\n",
    ),
    ("get_unsat_core #5", "#7 list 2\n"),
    ("garbage_collect false", "#8 ok\n"),
    ("type_of_term #3", "#9 refused DeadTerm 1\n"),
    ("type_of_term #7.1", "#10 type bool\n"),
    ("type_of_term #7.2", "#11 type bool\n"),
    ("get_unsat_core #5", "#12 list 2\n"),
    ("reset_context #5", "#13 ok\n"),
    ("get_unsat_core #5", "#14 refused NoCore\n"),
    ("garbage_collect false", "#15 ok\n"),
    ("type_of_term #7.1", "#16 refused DeadTerm 1\n"),
    ("false", "#17 term\n"),
    ("assert_formula #5 #17", "#18 ok\n"),
    ("new_uninterpreted_term #1", "#19 term\n"),
    ("check_context_with_assumptions #5 0 #19", "#20 unsat\n"),
    ("get_unsat_core #5", "#21 list 0\n"),
    ("type_of_term #21.1", "#22 refused NoResult 1\n"),
];

// What each change of a context leaves of its status.
const STATUSES: [Row; 28] = [
    ("bool_type", "#1 type bool\n"),
    ("new_uninterpreted_term #1", "#2 term\n"),
    ("not #2", "#3 term\n"),
    ("new_context", "#4 context\n"),
    ("context_status #4", "#5 idle\n"),
    ("check_context #4 whole", "#6 sat\n"),
    ("context_status #4", "#7 sat\n"),
    ("assert_formula #4 #2", "#8 ok\n"),
    ("context_status #4", "#9 idle\n"),
    ("check_context #4 0", "#10 sat\n"),
    ("push #4", "#11 ok\n"),
    ("context_status #4", "#12 idle\n"),
    ("assert_formula #4 #3", "#13 ok\n"),
    ("check_context #4 whole", "#14 unsat\n"),
    ("context_status #4", "#15 unsat\n"),
    ("pop #4", "#16 ok\n"),
    ("context_status #4", "#17 idle\n"),
    ("check_context #4 18446744073709551615", "#18 sat\n"),
    ("pop #4", "#19 refused BottomLevel\n"),
    ("context_status #4", "#20 sat\n"),
    ("check_context_with_assumptions #4 whole #3", "#21 unsat\n"),
    ("context_status #4", "#22 unsat\n"),
    ("garbage_collect false", "#23 ok\n"),
    ("context_status #4", "#24 unsat\n"),
    ("check_context_with_assumptions #4 whole", "#25 sat\n"),
    ("reset_context #4", "#26 ok\n"),
    ("context_status #4", "#27 idle\n"),
    ("get_unsat_core #4", "#28 refused NoCore\n"),
];

// Checks that are refused.
const CHECKS: [Row; 27] = [
    ("bool_type", "#1 type bool\n"),
    ("new_uninterpreted_term #1", "#2 term\n"),
    ("new_uninterpreted_term #1", "#3 term\n"),
    ("new_variable #1", "#4 term\n"),
    ("new_context", "#5 context\n"),
    ("get_unsat_core #5", "#6 refused NoCore\n"),
    ("check_context #5 whole", "#7 sat\n"),
    ("get_unsat_core #5", "#8 refused NoCore\n"),
    (
        "check_context_with_assumptions #5 whole #4",
        "#9 refused HasVariable v!0\n",
    ),
    (
        "check_context_with_assumptions #5 0 #2 #4",
        "#10 refused HasVariable v!0\n",
    ),
    ("context_status #5", "#11 sat\n"),
    ("garbage_collect false #2", "#12 ok\n"),
    (
        "check_context_with_assumptions #5 whole #3",
        "#13 refused DeadTerm 3\n",
    ),
    (
        "check_context_with_assumptions #5 0 #2 #2 #3 #4",
        "#14 refused DeadTerm 5\n",
    ),
    ("context_status #5", "#15 sat\n"),
    ("check_context_with_assumptions #5 whole #2", "#16 sat\n"),
    (
        "check_context_with_assumptions #3 whole #2",
        "#17 refused WrongKind 1\n",
    ),
    (
        "check_context_with_assumptions #5 whole #5",
        "#18 refused WrongKind 3\n",
    ),
    (
        "check_context_with_assumptions #5 whole #2 #99",
        "#19 refused NoResult 4\n",
    ),
    ("check_context #2 whole", "#20 refused WrongKind 1\n"),
    ("check_context #99 whole", "#21 refused NoResult 1\n"),
    ("get_unsat_core #2", "#22 refused WrongKind 1\n"),
    ("free_context #5", "#23 ok\n"),
    ("check_context #5 0", "#24 refused DeadContext 1\n"),
    (
        "check_context_with_assumptions #5 0 #3",
        "#25 refused DeadContext 1\n",
    ),
    ("get_unsat_core #5", "#26 refused DeadContext 1\n"),
    ("context_status #5", "#27 refused DeadContext 1\n"),
];

// A line behind a first one, how it ends, and why the script stops there.
const STOPS: [(&str, LineEnd, ScriptStop); 7] = [
    (
        "bool_type #1",
        LineEnd::Newline,
        ScriptStop::Syntax(
            SyntaxFault::Unexpected,
            Place {
                line: 2,
                column: 11,
            },
        ),
    ),
    (
        " not",
        LineEnd::Newline,
        ScriptStop::Syntax(SyntaxFault::Unexpected, Place { line: 2, column: 5 }),
    ),
    (
        " not",
        LineEnd::TextEnd,
        ScriptStop::Syntax(SyntaxFault::EndOfInput, Place { line: 2, column: 5 }),
    ),
    (
        "not \u{7f}",
        LineEnd::Open,
        ScriptStop::Syntax(SyntaxFault::BadByte, Place { line: 2, column: 5 }),
    ),
    (
        "check_context #1 18446744073709551616",
        LineEnd::Newline,
        ScriptStop::Syntax(
            SyntaxFault::Unexpected,
            Place {
                line: 2,
                column: 18,
            },
        ),
    ),
    (
        "  get_model #1",
        LineEnd::Newline,
        ScriptStop::NotBuilt(Place { line: 2, column: 3 }),
    ),
    (
        "real_type (",
        LineEnd::Open,
        ScriptStop::NotBuilt(Place { line: 2, column: 1 }),
    ),
];

fn check_script(rt: &impl Abort, alloc: Global, rows: &[Row]) -> Result<(), ScriptStop> {
    let mut session = ScriptSession::new(alloc)?;
    for (line, want) in rows {
        let said = session.answer(line.as_bytes(), LineEnd::Newline)?;
        assert_eq!(rt; said.as_str(), *want);
    }
    Ok(())
}

// The second line stops the script, and the next one has its number.
fn check_stops(
    rt: &impl Abort,
    alloc: Global,
    rows: &[(&str, LineEnd, ScriptStop)],
) -> Result<(), ScriptStop> {
    for (line, end, want) in rows {
        let mut session = ScriptSession::new(alloc)?;
        session.answer(b"new_context", LineEnd::Newline)?;
        let answer = session.answer(line.as_bytes(), *end);
        assert_eq!(rt; answer.err(), Some(*want));
        let next = session.answer(b"num_terms", LineEnd::TextEnd)?;
        assert_eq!(rt; next.as_str(), "#2 2\n");
    }
    Ok(())
}

#[test]
fn handles_last_until_they_are_freed(rt: HostRuntime) -> Result<(), Fail> {
    check_script(&rt, rt.alloc(), &FREED)?;
    check_script(&rt, rt.alloc(), &COUNTED)?;
    check_script(&rt, rt.alloc(), &UNNAMED)?;
    check_script(&rt, rt.alloc(), &NAMED)?;
    Ok(())
}

#[test]
fn references_are_looked_up_in_order(rt: HostRuntime) -> Result<(), Fail> {
    check_script(&rt, rt.alloc(), &REFERENCES)?;
    Ok(())
}

#[test]
fn replies_are_printed(rt: HostRuntime) -> Result<(), Fail> {
    check_script(&rt, rt.alloc(), &PRINTED)?;
    Ok(())
}

#[test]
fn pigeons_are_told(rt: HostRuntime) -> Result<(), Fail> {
    check_script(&rt, rt.alloc(), &PIGEONS)?;
    Ok(())
}

#[test]
fn entries_of_a_core_are_terms(rt: HostRuntime) -> Result<(), Fail> {
    check_script(&rt, rt.alloc(), &CORE)?;
    check_script(&rt, rt.alloc(), &CORE_KEPT)?;
    Ok(())
}

#[test]
fn changes_make_a_context_idle(rt: HostRuntime) -> Result<(), Fail> {
    check_script(&rt, rt.alloc(), &STATUSES)?;
    Ok(())
}

#[test]
fn checks_are_refused(rt: HostRuntime) -> Result<(), Fail> {
    check_script(&rt, rt.alloc(), &CHECKS)?;
    Ok(())
}

#[test]
fn faults_stop_a_script_and_change_nothing(rt: HostRuntime) -> Result<(), Fail> {
    check_stops(&rt, rt.alloc(), &STOPS)?;
    Ok(())
}

#[test]
fn an_open_line_is_no_line(rt: HostRuntime) -> Result<(), Fail> {
    let mut session = ScriptSession::new(rt.alloc())?;
    let first = session.answer(b"true ; th", LineEnd::Open)?;
    assert_eq!(rt; first.as_str(), "");
    let second = session.answer(b"true", LineEnd::TextEnd)?;
    assert_eq!(rt; second.as_str(), "#1 term\n");
    Ok(())
}
