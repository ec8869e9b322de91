//! Texts of values both ways.
ghost use Rattle.std.specs.Prelude.{◌≡◌, true, IsTrue, IfOk, [], ◌∷◌};
ghost use Rattle.y_tree.specs.Sorts.{function, sorts, is_sort};
ghost use Rattle.y_tree.specs.Plain.{plain_sort};

use super::*;
use fraction128::Frac;
use sqlite_items::Boxed;
use std::alloc::{AllocError, Global};
use std::process::Abort;
use std::test::Fail;
use y_tree::{FunValue, Sort, Sorts, Value, Values, zero_of};

fn bits(width: u32, bits: u128) -> Value {
    Value::Bv { width, bits }
}

fn key(alloc: Global, value: Value) -> Result<Values, AllocError>
    ensures { IfOk result (λ k. k ≡ value ∷ []) }
{
    let mut key = Values::new(alloc);
    key.push(value)?;
    Ok(key)
}

fn check_text(rt: &impl Abort, alloc: Global, value: Value, text: &str) -> Result<(), AllocError> {
    assert_eq!(rt; write_value(alloc, &value)?.as_str(), text);
    Ok(())
}

#[test]
fn texts(rt: HostRuntime) -> Result<(), Fail> {
    let alloc: Global = rt.alloc();
    check_text(&rt, alloc, Value::Bool(true), "true")?;
    check_text(&rt, alloc, Value::Real(Frac::new(6, -4)?), "-3/2")?;
    check_text(&rt, alloc, bits(4, 10), "0b1010")?;
    check_text(
        &rt,
        alloc,
        Value::Elem {
            kind: 3,
            number: 120,
        },
        "@120",
    )?;
    let of = function_type(alloc, Sort::Real, Sort::Real)?;
    check_text(&rt, alloc, zero_of(alloc, &of)?, "(function default 0)")?;
    Ok(())
}

// What `read_value` answers.
#[derive(Clone, Copy, Debug, PartialEq, Eq)]
enum Answer {
    Read,
    Bad,
    Wide,
}

// The number of a type, a text, and what the text is at that type.
const TEXTS: [(u8, &str, Answer); 140] = [
    (0, "true", Answer::Read),
    (0, "false", Answer::Read),
    (0, "", Answer::Bad),
    (0, "True", Answer::Bad),
    (0, "tru", Answer::Bad),
    (0, "truee", Answer::Bad),
    (0, "true ", Answer::Bad),
    (0, " true", Answer::Bad),
    (0, "1", Answer::Bad),
    (0, "(true)", Answer::Bad),
    (1, "0", Answer::Read),
    (1, "7", Answer::Read),
    (1, "-7", Answer::Read),
    (1, "-3/2", Answer::Read),
    (1, "1/2", Answer::Read),
    (1, "170141183460469231731687303715884105727", Answer::Read),
    (1, "-170141183460469231731687303715884105727", Answer::Read),
    (1, "1/170141183460469231731687303715884105727", Answer::Read),
    (
        1,
        "-170141183460469231731687303715884105727/2",
        Answer::Read,
    ),
    (1, "170141183460469231731687303715884105728", Answer::Wide),
    (1, "-170141183460469231731687303715884105728", Answer::Wide),
    (1, "1/170141183460469231731687303715884105728", Answer::Wide),
    (1, "2/170141183460469231731687303715884105728", Answer::Wide),
    (1, "0/170141183460469231731687303715884105728", Answer::Wide),
    (
        1,
        "170141183460469231731687303715884105728/170141183460469231731687303715884105728",
        Answer::Wide,
    ),
    (1, "170141183460469231731687303715884105728/2", Answer::Wide),
    (
        1,
        "99999999999999999999999999999999999999999999999999/3",
        Answer::Wide,
    ),
    (1, "", Answer::Bad),
    (1, "-0", Answer::Bad),
    (1, "+1", Answer::Bad),
    (1, "00", Answer::Bad),
    (1, "01", Answer::Bad),
    (1, "5/1", Answer::Bad),
    (1, "0/1", Answer::Bad),
    (1, "0/2", Answer::Bad),
    (1, "2/4", Answer::Bad),
    (1, "3/0", Answer::Bad),
    (1, "/2", Answer::Bad),
    (1, "1/", Answer::Bad),
    (1, "1/-2", Answer::Bad),
    (1, "1/02", Answer::Bad),
    (1, "1/2/3", Answer::Bad),
    (1, "--1", Answer::Bad),
    (1, "-", Answer::Bad),
    (1, "1.5", Answer::Bad),
    (1, "1 ", Answer::Bad),
    (1, " 1", Answer::Bad),
    (1, "1 /2", Answer::Bad),
    (1, "1e3", Answer::Bad),
    (1, "-0/170141183460469231731687303715884105728", Answer::Bad),
    (1, "170141183460469231731687303715884105728/1", Answer::Bad),
    (1, "170141183460469231731687303715884105728/0", Answer::Bad),
    (1, "0170141183460469231731687303715884105728", Answer::Bad),
    (1, "170141183460469231731687303715884105728x", Answer::Bad),
    (1, "170141183460469231731687303715884105728 ", Answer::Bad),
    (
        1,
        "170141183460469231731687303715884105728/1/2",
        Answer::Bad,
    ),
    (2, "0b0000", Answer::Read),
    (2, "0b1010", Answer::Read),
    (2, "0b1111", Answer::Read),
    (2, "", Answer::Bad),
    (2, "0b", Answer::Bad),
    (2, "0b101", Answer::Bad),
    (2, "0b10100", Answer::Bad),
    (2, "0b1012", Answer::Bad),
    (2, "b1010", Answer::Bad),
    (2, "0B1010", Answer::Bad),
    (2, "10", Answer::Bad),
    (2, "0b1010 ", Answer::Bad),
    (2, "0x0a", Answer::Bad),
    (2, "0b 101", Answer::Bad),
    (2, "170141183460469231731687303715884105728", Answer::Bad),
    (3, "@0", Answer::Read),
    (3, "@120", Answer::Read),
    (3, "@18446744073709551615", Answer::Read),
    (3, "", Answer::Bad),
    (3, "@", Answer::Bad),
    (3, "@01", Answer::Bad),
    (3, "@-1", Answer::Bad),
    (3, "@+1", Answer::Bad),
    (3, "120", Answer::Bad),
    (3, "@1 ", Answer::Bad),
    (3, "@1/2", Answer::Bad),
    (3, "@18446744073709551616", Answer::Bad),
    (3, "@170141183460469231731687303715884105728", Answer::Bad),
    (
        3,
        "@99999999999999999999999999999999999999999999999999",
        Answer::Bad,
    ),
    (4, "(function default true)", Answer::Read),
    (4, "(function (true) false default true)", Answer::Read),
    (
        4,
        "(function (false) true (true) false default true)",
        Answer::Read,
    ),
    (4, "", Answer::Bad),
    (4, "true", Answer::Bad),
    (4, "(function)", Answer::Bad),
    (4, "(function (true) false)", Answer::Bad),
    (4, "(function  default true)", Answer::Bad),
    (4, "(function default true", Answer::Bad),
    (4, "(function default true))", Answer::Bad),
    (4, "(function default true) ", Answer::Bad),
    (4, " (function default true)", Answer::Bad),
    (4, "(function default)", Answer::Bad),
    (4, "(function default false default true)", Answer::Bad),
    (4, "(functiondefault true)", Answer::Bad),
    (4, "function default true", Answer::Bad),
    (4, "(function (true)  false default true)", Answer::Bad),
    (4, "(function (true) false  default true)", Answer::Bad),
    (4, "(function ( true) false default true)", Answer::Bad),
    (4, "(function (true ) false default true)", Answer::Bad),
    (4, "(function(true) false default true)", Answer::Bad),
    (4, "(function () false default true)", Answer::Bad),
    (4, "(function (true false) false default true)", Answer::Bad),
    (4, "(function true false default true)", Answer::Bad),
    (4, "(function (true) 0 default true)", Answer::Bad),
    (4, "(function (1) false default true)", Answer::Bad),
    (4, "(function (true) false default 1)", Answer::Bad),
    (
        4,
        "(function (true) false (false) true default true)",
        Answer::Bad,
    ),
    (
        4,
        "(function (true) false (true) false default true)",
        Answer::Bad,
    ),
    (4, "(function (true)false default true)", Answer::Bad),
    (
        5,
        "(function (-1/2) 0b01 (0) 0b10 (1/3) 0b11 default 0b00)",
        Answer::Read,
    ),
    (
        5,
        "(function (1/2) 0b01 (1/3) 0b10 default 0b00)",
        Answer::Bad,
    ),
    (5, "(function (2/4) 0b01 default 0b00)", Answer::Bad),
    (
        5,
        "(function (170141183460469231731687303715884105728) 0b1 default 0b00)",
        Answer::Bad,
    ),
    (
        5,
        "(function (170141183460469231731687303715884105728) 0b01 default 0b000)",
        Answer::Bad,
    ),
    (5, "(function (1) 0b01 (1) 0b10 default 0b00)", Answer::Bad),
    (
        5,
        "(function (170141183460469231731687303715884105728) 0b01 default 0b00)",
        Answer::Wide,
    ),
    (
        5,
        "(function (2) 0b01 (170141183460469231731687303715884105728) 0b01 (1) 0b10 default 0b00)",
        Answer::Wide,
    ),
    (
        5,
        "(function (1) 0b01 (1) 0b01 (1/170141183460469231731687303715884105728) 0b10 default 0b00)",
        Answer::Wide,
    ),
    (
        6,
        "(function (0b0 -1) 1/2 (0b0 2) 3 (0b1 0) -4 default 0)",
        Answer::Read,
    ),
    (
        6,
        "(function (0b0 2) 3 (0b0 -1) 1/2 default 0)",
        Answer::Bad,
    ),
    (6, "(function (0b0) 3 default 0)", Answer::Bad),
    (6, "(function (0b0  2) 3 default 0)", Answer::Bad),
    (6, "(function (0b0 2 2) 3 default 0)", Answer::Bad),
    (6, "(function (2 0b0) 3 default 0)", Answer::Bad),
    (
        6,
        "(function (0b1 2) 170141183460469231731687303715884105728 (0b0 1) 0 default 0)",
        Answer::Bad,
    ),
    (
        6,
        "(function (0b0 2) 3 default 170141183460469231731687303715884105728",
        Answer::Bad,
    ),
    (
        6,
        "(function (0b0 170141183460469231731687303715884105728) 3 default 2/4)",
        Answer::Bad,
    ),
    (
        6,
        "(function (0b0 2) 170141183460469231731687303715884105728 default 0)",
        Answer::Wide,
    ),
    (
        6,
        "(function default 170141183460469231731687303715884105728)",
        Answer::Wide,
    ),
    (
        6,
        "(function (0b0 1) 0 (0b0 2) 3 default 1/170141183460469231731687303715884105728)",
        Answer::Wide,
    ),
    (
        6,
        "(function (0b0 170141183460469231731687303715884105728) 0 (0b0 1) 0 default 0)",
        Answer::Wide,
    ),
    (
        7,
        "0b11111111111111111111111111111111111111111111111111111111111111111111111111111111111111111111111111111111111111111111111111111111",
        Answer::Read,
    ),
    (
        7,
        "0b1111111111111111111111111111111111111111111111111111111111111111111111111111111111111111111111111111111111111111111111111111111",
        Answer::Bad,
    ),
    (
        7,
        "0b111111111111111111111111111111111111111111111111111111111111111111111111111111111111111111111111111111111111111111111111111111111",
        Answer::Bad,
    ),
];

// The functions from one type to another.
#[tactic(auto, unfolding(y_tree::specs::Plain::plain_sort, y_tree::specs::Sorts::are_simple, y_tree::specs::Sorts::count))]
fn function_type(alloc: Global, from: Sort, to: Sort) -> Result<Sort, AllocError>
    ensures { IfOk result (λ s. plain_sort s ≡ function (sorts (plain_sort from ∷ [])) (plain_sort to)) }
{
    let mut domain = Sorts::new(alloc);
    domain.push(from)?;
    Ok(Sort::Fun(domain, Boxed::new(alloc, to)?))
}

// The functions from bits and numbers to numbers.
#[tactic(auto, unfolding(y_tree::specs::Plain::plain_sort, y_tree::specs::Sorts::are_simple, y_tree::specs::Sorts::count))]
fn pair_type(alloc: Global) -> Result<Sort, AllocError>
    ensures { IfOk result (λ s. IsTrue (is_sort (plain_sort s))) }
{
    let mut domain = Sorts::new(alloc);
    domain.push(Sort::Bv(1))?;
    domain.push(Sort::Real)?;
    Ok(Sort::Fun(domain, Boxed::new(alloc, Sort::Real)?))
}

// The type with that number in the table of texts.
#[tactic(auto, unfolding(y_tree::specs::Plain::plain_sort, y_tree::specs::Sorts::are_simple, y_tree::specs::Sorts::count))]
fn numbered_type(alloc: Global, number: u8) -> Result<Sort, AllocError>
    ensures { IfOk result (λ s. IsTrue (is_sort (plain_sort s))) }
{
    match number {
        0 => Ok(Sort::Bool),
        1 => Ok(Sort::Real),
        2 => Ok(Sort::Bv(4)),
        3 => Ok(Sort::Free(7)),
        4 => function_type(alloc, Sort::Bool, Sort::Bool),
        5 => function_type(alloc, Sort::Real, Sort::Bv(2)),
        6 => pair_type(alloc),
        _ => Ok(Sort::Bv(128)),
    }
}

fn check_read(
    rt: &impl Abort,
    alloc: Global,
    of: &Sort,
    text: &str,
    answer: Answer,
) -> Result<(), AllocError>
    requires { IsTrue (is_sort (plain_sort of.now)) }
{
    match read_value(alloc, text.as_bytes(), of) {
        Ok(value) => {
            assert_eq!(rt; answer, Answer::Read);
            check_text(rt, alloc, value, text)
        }
        Err(ValueError::BadText) => {
            assert_eq!(rt; answer, Answer::Bad);
            Ok(())
        }
        Err(ValueError::Wide) => {
            assert_eq!(rt; answer, Answer::Wide);
            Ok(())
        }
        Err(ValueError::NoMemory) => Err(AllocError),
    }
}

fn check_rows(
    rt: &impl Abort,
    alloc: Global,
    rows: &[(u8, &str, Answer)],
) -> Result<(), AllocError> {
    for (number, text, answer) in rows {
        let of = numbered_type(alloc, *number)?;
        check_read(rt, alloc, &of, text, *answer)?;
    }
    Ok(())
}

#[test]
fn texts_are_read(rt: HostRuntime) -> Result<(), Fail> {
    let alloc: Global = rt.alloc();
    check_rows(&rt, alloc, &TEXTS)?;
    Ok(())
}

#[test]
fn entries_stand_in_rising_order(rt: HostRuntime) -> Result<(), Fail> {
    let alloc: Global = rt.alloc();
    let mut f = FunValue::new(alloc, bits(2, 0))?;
    f.set(key(alloc, bits(2, 2))?, bits(2, 1))?;
    f.set(key(alloc, bits(2, 0))?, bits(2, 2))?;
    f.set(key(alloc, bits(2, 1))?, bits(2, 3))?;
    f.set(key(alloc, bits(2, 2))?, bits(2, 3))?;
    assert_eq!(rt; f.entries().len(), 3);
    check_text(
        &rt,
        alloc,
        Value::Fun(f),
        "(function (0b00) 0b10 (0b01) 0b11 (0b10) 0b11 default 0b00)",
    )?;
    Ok(())
}
