// Values of terms over every shape, as a table of terms that name earlier ones by their places.
ghost use Rattle.std.specs.Prelude.{◌≡◌, IfOk, true};
ghost use Rattle.y_tree.specs.Order.{is_formed};
ghost use Rattle.y_tree.specs.Plain.{plain_function};
ghost use Rattle.model_eval.specs.Models.{IsModel};

use super::*;
use fraction128::Frac;
use std::alloc::{AllocError, Global};
use std::process::Abort;
use std::test::Fail;
use term_table::{Args, Monomial, Monomials, Shape, Table, Term, TypeId};
use y_tree::{BvAtOp, BvOp, FunValue, Value, Values};

/// A term over earlier ones.
#[derive(Clone, Copy)]
enum Made {
    /// A constant of truth values, of reals, of functions from a truth value to a real, of an uninterpreted type.
    Truth,
    Real,
    Function,
    Element,
    True,
    False,
    Number(i128, i128),
    Not(usize),
    And(usize, usize),
    Or(usize, usize),
    Xor(usize, usize, usize),
    Ite(usize, usize, usize),
    Eq(usize, usize),
    Distinct(usize, usize, usize),
    App(usize, usize),
    Update(usize, usize, usize),
    /// Two factors with their terms, and the constant.
    Sum(i128, usize, i128, usize, i128),
    NonNeg(usize),
    /// A width and a number.
    Bits(u32, u128),
    /// An operator on two bit-vectors.
    Vector(BvOp, usize, usize),
    /// An operator with two numbers on a bit-vector.
    Part(BvAtOp, u32, u32, usize),
}

/// What a term's value is.
#[derive(Clone, Copy)]
enum Wanted {
    Truth(bool),
    Real(i128, i128),
    Element(u64),
    /// A width and a number.
    Bits(u32, u128),
    /// A function.
    Function,
}

/// The terms with their values, where constant 0 is true, 3 is 5/2, 4 is -1, 6 is 7 at true and 2 elsewhere, 8 is
/// element 3, and the other constants have no value of their own.
const ROWS: [(Made, Wanted); 72] = [
    (Made::Truth, Wanted::Truth(true)),
    (Made::Truth, Wanted::Truth(false)),
    (Made::Truth, Wanted::Truth(false)),
    (Made::Real, Wanted::Real(5, 2)),
    (Made::Real, Wanted::Real(-1, 1)),
    (Made::Real, Wanted::Real(0, 1)),
    (Made::Function, Wanted::Function),
    (Made::Function, Wanted::Function),
    (Made::Element, Wanted::Element(3)),
    (Made::Element, Wanted::Element(0)),
    (Made::True, Wanted::Truth(true)),
    (Made::False, Wanted::Truth(false)),
    (Made::Number(7, 1), Wanted::Real(7, 1)),
    (Made::Not(0), Wanted::Truth(false)),
    (Made::Not(1), Wanted::Truth(true)),
    (Made::And(0, 10), Wanted::Truth(true)),
    (Made::And(0, 1), Wanted::Truth(false)),
    (Made::And(1, 0), Wanted::Truth(false)),
    (Made::Or(1, 0), Wanted::Truth(true)),
    (Made::Or(0, 1), Wanted::Truth(true)),
    (Made::Or(1, 2), Wanted::Truth(false)),
    (Made::Xor(0, 1, 2), Wanted::Truth(true)),
    (Made::Xor(0, 10, 1), Wanted::Truth(false)),
    (Made::Xor(0, 10, 14), Wanted::Truth(true)),
    (Made::Ite(0, 3, 4), Wanted::Real(5, 2)),
    (Made::Ite(1, 3, 4), Wanted::Real(-1, 1)),
    (Made::Eq(0, 10), Wanted::Truth(true)),
    (Made::Eq(0, 1), Wanted::Truth(false)),
    (Made::Eq(3, 24), Wanted::Truth(true)),
    (Made::Eq(3, 4), Wanted::Truth(false)),
    (Made::Eq(8, 9), Wanted::Truth(false)),
    (Made::Distinct(3, 4, 5), Wanted::Truth(true)),
    (Made::Distinct(3, 4, 24), Wanted::Truth(false)),
    (Made::Distinct(3, 4, 25), Wanted::Truth(false)),
    (Made::Distinct(0, 1, 2), Wanted::Truth(false)),
    (Made::App(6, 0), Wanted::Real(7, 1)),
    (Made::App(6, 1), Wanted::Real(2, 1)),
    (Made::App(7, 0), Wanted::Real(0, 1)),
    (Made::Update(6, 1, 4), Wanted::Function),
    (Made::App(38, 1), Wanted::Real(-1, 1)),
    (Made::App(38, 0), Wanted::Real(7, 1)),
    (Made::Update(7, 0, 12), Wanted::Function),
    (Made::App(41, 0), Wanted::Real(7, 1)),
    (Made::App(41, 1), Wanted::Real(0, 1)),
    (Made::Eq(6, 7), Wanted::Truth(false)),
    (Made::Update(7, 0, 5), Wanted::Function),
    (Made::Eq(7, 45), Wanted::Truth(true)),
    (Made::Sum(1, 3, 1, 4, 0), Wanted::Real(3, 2)),
    (Made::Sum(2, 3, -3, 4, 1), Wanted::Real(9, 1)),
    (Made::Sum(1, 5, 1, 4, 2), Wanted::Real(1, 1)),
    (Made::Sum(-2, 3, 1, 35, 3), Wanted::Real(5, 1)),
    (Made::NonNeg(3), Wanted::Truth(true)),
    (Made::NonNeg(4), Wanted::Truth(false)),
    (Made::NonNeg(5), Wanted::Truth(true)),
    (Made::NonNeg(47), Wanted::Truth(true)),
    (Made::Not(52), Wanted::Truth(true)),
    (Made::And(51, 55), Wanted::Truth(true)),
    (Made::Ite(52, 47, 48), Wanted::Real(9, 1)),
    (Made::Eq(57, 48), Wanted::Truth(true)),
    (Made::Distinct(8, 9, 9), Wanted::Truth(false)),
    (Made::Bits(8, 200), Wanted::Bits(8, 200)),
    (Made::Bits(8, 100), Wanted::Bits(8, 100)),
    (Made::Vector(BvOp::Add, 60, 61), Wanted::Bits(8, 44)),
    (Made::Vector(BvOp::Sub, 61, 60), Wanted::Bits(8, 156)),
    (Made::Vector(BvOp::Concat, 60, 61), Wanted::Bits(16, 51300)),
    (Made::Vector(BvOp::Lt, 60, 61), Wanted::Truth(false)),
    (Made::Vector(BvOp::Slt, 60, 61), Wanted::Truth(true)),
    (Made::Part(BvAtOp::Extract, 7, 4, 60), Wanted::Bits(4, 12)),
    (
        Made::Part(BvAtOp::SignExtend, 8, 0, 60),
        Wanted::Bits(16, 65480),
    ),
    (Made::Part(BvAtOp::ShiftLeft0, 8, 0, 60), Wanted::Bits(8, 0)),
    (Made::Vector(BvOp::Div, 60, 69), Wanted::Bits(8, 255)),
    (Made::Eq(62, 63), Wanted::Truth(false)),
];

/// The term that was made at a place.
fn at(terms: &[Term], place: usize) -> Term {
    match terms.get(place) {
        Some(term) => *term,
        None => Term::default(),
    }
}

/// Arguments.
fn arguments(rt: &impl Abort, alloc: Global, terms: &[Term]) -> Args {
    let mut list = Args::new(alloc);
    for term in terms {
        list.push(*term).expect(rt, "memory");
    }
    list
}

/// A fraction.
fn fraction(rt: &impl Abort, num: i128, den: i128) -> Frac {
    Frac::new(num, den).expect(rt, "a fraction")
}

/// The types of the constants of the table.
#[derive(Drop)]
struct Types {
    function: TypeId,
    element: TypeId,
}

/// The shape of a term that is no constant.
fn shape_of(rt: &impl Abort, alloc: Global, terms: &[Term], made: Made) -> Shape {
    match made {
        Made::True | Made::Truth | Made::Real | Made::Function | Made::Element => Shape::True,
        Made::False => Shape::False,
        Made::Number(num, den) => Shape::Number(fraction(rt, num, den)),
        Made::Not(a) => Shape::Not(at(terms, a)),
        Made::And(a, b) => Shape::And(arguments(rt, alloc, &[at(terms, a), at(terms, b)])),
        Made::Or(a, b) => Shape::Or(arguments(rt, alloc, &[at(terms, a), at(terms, b)])),
        Made::Xor(a, b, c) => {
            Shape::Xor(arguments(rt, alloc, &[at(terms, a), at(terms, b), at(terms, c)]))
        }
        Made::Ite(a, b, c) => Shape::Ite(at(terms, a), at(terms, b), at(terms, c)),
        Made::Eq(a, b) => Shape::Eq(at(terms, a), at(terms, b)),
        Made::Distinct(a, b, c) => {
            Shape::Distinct(arguments(rt, alloc, &[at(terms, a), at(terms, b), at(terms, c)]))
        }
        Made::App(f, a) => Shape::App(at(terms, f), arguments(rt, alloc, &[at(terms, a)])),
        Made::Update(f, a, b) => {
            Shape::Update(
                at(terms, f),
                arguments(rt, alloc, &[at(terms, a)]),
                at(terms, b),
            )
        }
        Made::Sum(p, a, q, b, c) => sum_of(rt, alloc, &[(p, at(terms, a)), (q, at(terms, b))], c),
        Made::NonNeg(a) => Shape::NonNeg(at(terms, a)),
        Made::Bits(width, bits) => Shape::Bits { width, bits },
        Made::Vector(op, a, b) => {
            Shape::Bv(op, arguments(rt, alloc, &[at(terms, a), at(terms, b)]))
        }
        Made::Part(op, i, j, a) => Shape::BvAt(op, i, j, at(terms, a)),
    }
}

/// A sum with whole factors.
fn sum_of(rt: &impl Abort, alloc: Global, products: &[(i128, Term)], constant: i128) -> Shape {
    let mut monomials = Monomials::new(alloc);
    for (factor, of) in products {
        let factor = fraction(rt, *factor, 1);
        monomials
            .push(Monomial { factor, of: *of })
            .expect(rt, "memory");
    }
    Shape::Sum(monomials, fraction(rt, constant, 1))
}

/// The term of a row.
fn term_of(
    rt: &impl Abort,
    alloc: Global,
    table: &mut Table,
    types: &Types,
    terms: &[Term],
    made: Made,
) -> Term {
    let of = match made {
        Made::Truth => table.bool_type(),
        Made::Real => table.real_type(),
        Made::Function => types.function,
        Made::Element => types.element,
        _ => {
            let shape = shape_of(rt, alloc, terms, made);
            return match table.check_shape(&shape) {
                Ok(_) => table.add(shape).expect(rt, "a slot"),
                Err(_) => Term::default(),
            };
        }
    };
    table.new_constant(of).expect(rt, "a slot")
}

/// The function with a value at true, and another elsewhere.
fn function(rt: &impl Abort, alloc: Global) -> Result<FunValue, AllocError>
    ensures { IfOk result (λ f. is_formed (plain_function f) ≡ true) }
{
    let other = Value::Real(fraction(rt, 2, 1));
    let mut f = FunValue::new(alloc, other)?;
    let mut key = Values::new(alloc);
    key.push(Value::Bool(true))?;
    f.set(key, Value::Real(fraction(rt, 7, 1)))?;
    Ok(f)
}

/// The values of the constants that have one.
fn values_of(rt: &impl Abort, alloc: Global, terms: &[Term]) -> Result<TermValues, AllocError> {
    let mut values = TermValues::new(alloc);
    values.push((at(terms, 0), Value::Bool(true)))?;
    values.push((at(terms, 3), Value::Real(fraction(rt, 5, 2))))?;
    values.push((at(terms, 4), Value::Real(fraction(rt, -1, 1))))?;
    values.push((at(terms, 6), Value::Fun(function(rt, alloc)?)))?;
    let element = Value::Elem { kind: 0, number: 3 };
    values.push((at(terms, 8), element))?;
    Ok(values)
}

/// Whether the value is the wanted one.
fn is_wanted(rt: &impl Abort, value: &Value, wanted: Wanted) -> bool {
    match (value, wanted) {
        (Value::Bool(truth), Wanted::Truth(right)) => *truth == right,
        (Value::Real(number), Wanted::Real(num, den)) => *number == fraction(rt, num, den),
        (Value::Elem { number, .. }, Wanted::Element(right)) => *number == right,
        (Value::Bv { width, bits }, Wanted::Bits(size, right)) => *width == size && *bits == right,
        (Value::Fun(_), Wanted::Function) => true,
        _ => false,
    }
}

/// The terms of the rows.
fn terms_of(
    rt: &impl Abort,
    alloc: Global,
    table: &mut Table,
    rows: &[(Made, Wanted)],
) -> Vec<Term> {
    let truth = table.bool_type();
    let real = table.real_type();
    let element = table.new_type().expect(rt, "a type");
    let function = table.function_type(&[truth], real).expect(rt, "a type");
    let types = Types { function, element };
    let mut terms = Vec::new(alloc);
    for (made, _) in rows {
        let term = term_of(rt, alloc, table, &types, terms.as_slice(), *made);
        terms.push(term).expect(rt, "memory");
    }
    terms
}

/// The first row whose term has another value than the wanted one.
fn first_wrong(
    rt: &impl Abort,
    alloc: Global,
    table: &Table,
    model: &Model,
    terms: &[Term],
    rows: &[(Made, Wanted)],
) -> Option<usize>
    requires { IsModel table.now model.now }
{
    for (i, row) in rows.iter().enumerate() {
        let right = match model.value(alloc, table, at(terms, i)) {
            Ok(value) => is_wanted(rt, &value, row.1),
            Err(_) => false,
        };
        if !right {
            return Some(i);
        }
    }
    None
}

#[test]
fn values_of_a_table(rt: HostRuntime) -> Result<(), Fail> {
    let alloc: Global = rt.alloc();
    let mut table = Table::new(alloc)?;
    let terms = terms_of(&rt, alloc, &mut table, &ROWS);
    let values = values_of(&rt, alloc, terms.as_slice())?;
    let model = Model::from_values(alloc, &table, values).expect(&rt, "a model");
    assert_eq!(rt; model.roots().len(), 5);
    assert!(rt; first_wrong(&rt, alloc, &table, &model, terms.as_slice(), &ROWS).is_none());
    Ok(())
}
