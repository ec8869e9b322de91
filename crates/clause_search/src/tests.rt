//! Tests of the search, and two checkers for them.

ghost use Rattle.std.specs.Prelude.{◌≡◌, List, Option, Bool, Some, None, IfOk, IfSome};
ghost use Rattle.std.specs.Bool.{OnTrue};
ghost use Rattle.clause_logic.specs.declared.Lit.{Lit};
ghost use Rattle.clause_logic.specs.Clauses.{In};
ghost use Rattle.clause_search.specs.Answers.{Lawful, IsFalseIn};

use crate::{Answer, Assignment, Checker, Clause, Lit, Look, Search, Turns, Unchecked};
use std::alloc::{AllocError, Global};
use std::test::Fail;
use y_erased::{Erased, Makes, made};

/// A literal by its number from 1, negative for the negation.
fn lit(number: i32) -> Lit {
    Lit {
        var: (number.unsigned_abs() as usize).saturating_sub(1),
        positive: number > 0,
    }
}

/// A search over so many variables.
fn search_over(alloc: Global, vars: usize) -> Result<Search, AllocError> {
    let mut search = Search::new(alloc);
    for made in 0..vars {
        search.new_var()?;
    }
    Ok(search)
}

/// Adds a clause of literals by their numbers.
fn add(search: &mut Search, alloc: Global, numbers: &[i32]) -> Result<(), AllocError> {
    let lits = numbers.iter().map(|n| lit(*n)).collect::<Vec<Lit>>(alloc)?;
    add_known(search, &lits)
}

/// Adds a clause, if its variables are there.
fn add_known(search: &mut Search, lits: &[Lit]) -> Result<(), AllocError> {
    if search.knows(lits) {
        search.add_clause(lits)?;
    }
    Ok(())
}

/// Three pigeons in two holes: variable 2 * p + h - 2 says that pigeon p is in hole h.
fn three_pigeons(alloc: Global) -> Result<Search, AllocError> {
    let mut search = search_over(alloc, 6)?;
    for clause in [
        [1, 2],
        [3, 4],
        [5, 6],
        [-1, -3],
        [-1, -5],
        [-3, -5],
        [-2, -4],
        [-2, -6],
        [-4, -6],
    ] {
        add(&mut search, alloc, &clause)?;
    }
    Ok(search)
}

#[test]
fn three_pigeons_have_no_place(rt: HostRuntime) -> Result<(), Fail> {
    let mut search = three_pigeons(rt.alloc())?;
    let mut checker = Unchecked::new();
    match search.solve(&[], Turns::Whole, &mut checker) {
        Answer::Unsat(core) => assert_eq!(rt; core.len(), 0),
        _ => assert!(rt; false, "not unsat"),
    }
    Ok(())
}

#[test]
fn no_turn_leaves_three_pigeons_unknown(rt: HostRuntime) -> Result<(), Fail> {
    let mut search = three_pigeons(rt.alloc())?;
    let mut checker = Unchecked::new();
    match search.solve(&[], Turns::Counted(0), &mut checker) {
        Answer::Unknown(learned) => assert_eq!(rt; learned.len(), 1),
        _ => assert!(rt; false, "not unknown"),
    }
    Ok(())
}

#[test]
fn a_core_lies_within_the_assumptions(rt: HostRuntime) -> Result<(), Fail> {
    let mut search = search_over(rt.alloc(), 3)?;
    add(&mut search, rt.alloc(), &[-1, -3])?;
    let assumed = [lit(1), lit(2), lit(3), lit(1)];
    assert!(rt; search.knows(&assumed));
    let mut checker = Unchecked::new();
    match search.solve(&assumed, Turns::Whole, &mut checker) {
        Answer::Unsat(core) => {
            assert_eq!(rt; core.len(), 2);
            for l in core.as_slice() {
                assert!(rt; *l == lit(1) || *l == lit(3));
            }
        }
        _ => assert!(rt; false, "not unsat"),
    }
    Ok(())
}

#[test]
fn popped_clauses_bind_no_more(rt: HostRuntime) -> Result<(), Fail> {
    let mut search = search_over(rt.alloc(), 1)?;
    add(&mut search, rt.alloc(), &[1])?;
    search.push()?;
    assert_eq!(rt; search.new_var()?, 1);
    add(&mut search, rt.alloc(), &[-1])?;
    assert_eq!(rt; search.levels(), 1);
    let mut checker = Unchecked::new();
    match search.solve(&[], Turns::Whole, &mut checker) {
        Answer::Unsat(core) => assert_eq!(rt; core.len(), 0),
        _ => assert!(rt; false, "not unsat"),
    }
    search.pop();
    assert_eq!(rt; search.vars(), 1);
    checker.begin();
    match search.solve(&[], Turns::Whole, &mut checker) {
        Answer::Sat(values) => assert_eq!(rt; values.as_slice(), [Some(true)].as_slice()),
        _ => assert!(rt; false, "not sat"),
    }
    Ok(())
}

/// Whether all literals are false under the values.
fn all_false(shown: &[Option<bool>], lits: &[Lit]) -> bool
    ensures { OnTrue result ((l : Lit) → In l lits.now → IsFalseIn shown.now l) }
{
    for l in lits {
        if !is_false(shown, *l) {
            return false;
        }
    }
    true
}

/// Whether a literal is false under the values.
fn is_false(shown: &[Option<bool>], l: Lit) -> bool
    ensures { OnTrue result (IsFalseIn shown.now l) }
{
    if l.var >= shown.len() {
        return false;
    }
    match shown[l.var] {
        None => false,
        Some(value) => value != l.positive,
    }
}

/// What a look notes, for contracts alone.
struct Noted;

impl Makes for Noted {
    type From = Assignment;

    type With = Look<u8>;

    type Of = Option<(Assignment, Look<u8>)>;

    ghost make = { λ shown answer. Some (shown, answer) };
}

/// What a begin notes.
struct Begun;

impl Makes for Begun {
    type From = ();

    type With = ();

    type Of = Option<(Assignment, Look<u8>)>;

    ghost make = { λ _ _. None };
}

/// A checker that stands for one clause.
#[derive(Drop)]
struct OneClause {
    alloc: Global,
    clause: Clause,
    newest: Erased<Option<(Assignment, Look<u8>)>>,
}

impl OneClause {
    fn new(alloc: Global, clause: Clause) -> OneClause
        ensures { ⟦<OneClause as Checker>⟧.newest result ≡ None }
    {
        OneClause {
            alloc,
            clause,
            newest: made::<Begun>(&(), &()),
        }
    }

    fn answer(&self, shown: &Assignment) -> Look<u8>
        ensures { Lawful (λ c. c ≡ self.now.clause) shown.now result }
    {
        if !all_false(shown.as_slice(), self.clause.as_slice()) {
            return Look::Fits;
        }
        match Vec::from_slice(self.alloc, self.clause.as_slice()) {
            Ok(lits) => Look::Conflict(Clause::from_vec(lits)),
            Err(_refused) => Look::NoMemory,
        }
    }
}

impl Checker for OneClause {
    type Stop = u8;

    ghost stands = { λ s c. c ≡ s.clause };

    ghost newest = { λ s. s.newest.value };

    fn begin(&mut self) {
        self.newest = made::<Begun>(&(), &());
    }

    fn look(&mut self, shown: &Assignment) -> Look<u8> {
        let answer = self.answer(shown);
        self.newest = made::<Noted>(shown, &answer);
        answer
    }
}

/// The clause that is false under these values alone, unless a variable has none.
fn refusal(alloc: Global, shown: &[Option<bool>]) -> Result<Option<Vec<Lit>>, AllocError>
    ensures { IfOk result (λ o. IfSome o (λ v. (l : Lit) → In l v.items → IsFalseIn shown.now l)) }
{
    let mut lits = Vec::new(alloc);
    for var in 0..shown.len() {
        match shown[var] {
            None => return Ok(None),
            Some(value) => lits.push(Lit {
                var,
                positive: !value,
            })?,
        }
    }
    Ok(Some(lits))
}

/// A checker that refuses each assignment in which all variables have values, and no other.
#[derive(Drop)]
struct NoneWhole {
    alloc: Global,
    newest: Erased<Option<(Assignment, Look<u8>)>>,
}

impl NoneWhole {
    fn new(alloc: Global) -> NoneWhole
        ensures { ⟦<NoneWhole as Checker>⟧.newest result ≡ None }
    {
        NoneWhole {
            alloc,
            newest: made::<Begun>(&(), &()),
        }
    }

    fn answer(&self, shown: &Assignment) -> Look<u8>
        ensures { Lawful (λ c. Unit {0}) shown.now result }
    {
        match refusal(self.alloc, shown.as_slice()) {
            Ok(Some(lits)) => Look::Conflict(Clause::from_vec(lits)),
            Ok(None) => Look::Fits,
            Err(_refused) => Look::NoMemory,
        }
    }
}

impl Checker for NoneWhole {
    type Stop = u8;

    ghost stands = { λ s c. Unit {0} };

    ghost newest = { λ s. s.newest.value };

    fn begin(&mut self) {
        self.newest = made::<Begun>(&(), &());
    }

    fn look(&mut self, shown: &Assignment) -> Look<u8> {
        let answer = self.answer(shown);
        self.newest = made::<Noted>(shown, &answer);
        answer
    }
}

#[test]
fn a_checker_that_refuses_each_whole_assignment_leaves_none(rt: HostRuntime) -> Result<(), Fail> {
    let mut search = search_over(rt.alloc(), 3)?;
    add(&mut search, rt.alloc(), &[1, 2])?;
    let mut checker = NoneWhole::new(rt.alloc());
    match search.solve(&[], Turns::Whole, &mut checker) {
        Answer::Unsat(core) => assert_eq!(rt; core.len(), 0),
        _ => assert!(rt; false, "not unsat"),
    }
    Ok(())
}

#[test]
fn a_checker_refuses_one_assignment_of_three(rt: HostRuntime) -> Result<(), Fail> {
    let mut search = search_over(rt.alloc(), 2)?;
    add(&mut search, rt.alloc(), &[1, 2])?;
    let refused = [lit(1), lit(-2)].to_vec(rt.alloc())?;
    let mut checker = OneClause::new(rt.alloc(), Clause::from_vec(refused));
    match search.solve(&[], Turns::Whole, &mut checker) {
        Answer::Sat(values) => assert_eq!(rt; values.as_slice().first().copied(), Some(Some(true))),
        _ => assert!(rt; false, "not sat"),
    }
    Ok(())
}

#[test]
fn a_checker_that_stands_for_the_empty_clause_leaves_nothing(rt: HostRuntime) -> Result<(), Fail> {
    let mut search = search_over(rt.alloc(), 3)?;
    let mut checker = OneClause::new(rt.alloc(), Clause::new(rt.alloc()));
    match search.solve(&[], Turns::Whole, &mut checker) {
        Answer::Unsat(core) => assert_eq!(rt; core.len(), 0),
        _ => assert!(rt; false, "not unsat"),
    }
    Ok(())
}

/// The next number of a linear congruential generator.
fn next(seed: u64) -> u64 {
    seed.wrapping_mul(6_364_136_223_846_793_005)
        .wrapping_add(1_442_695_040_888_963_407)
}

/// A clause as the bits of its variables and of its negated variables.
#[derive(Clone, Copy)]
struct Bits {
    positive: u32,
    negative: u32,
}

/// Whether some of the values make all clauses true, by trying them all.
fn has_model(clauses: &[Bits]) -> bool {
    for values in 0..1_048_576u32 {
        if clauses
            .iter()
            .all(|c| (values & c.positive) | (!values & c.negative) != 0)
        {
            return true;
        }
    }
    false
}

/// Adds a clause of three literals of 20 variables to the search, and gives its bits.
fn add_random(search: &mut Search, alloc: Global, seed: u64) -> Result<Bits, AllocError> {
    let mut bits = Bits {
        positive: 0,
        negative: 0,
    };
    let mut lits = Vec::new(alloc);
    let mut number = seed;
    for turn in 0..3 {
        number = next(number);
        let var = (number / 8_589_934_592) % 20;
        let bit = 1_048_576u32 >> (20 - var as u32);
        let positive = number / 1_048_576 % 2 == 0;
        if positive {
            bits.positive = bits.positive | bit;
        } else {
            bits.negative = bits.negative | bit;
        }
        lits.push(Lit {
            var: var as usize,
            positive,
        })?;
    }
    add_known(search, &lits)?;
    Ok(bits)
}

/// A random problem of 86 clauses over 20 variables: what the search finds, and whether there is
/// a model.
fn both_answers(alloc: Global, problem: u64) -> Result<(Option<bool>, bool), AllocError> {
    let mut search = search_over(alloc, 20)?;
    let mut clauses = Vec::new(alloc);
    for number in 0..86u64 {
        let seed = problem.wrapping_mul(1000).wrapping_add(number);
        let bits = add_random(&mut search, alloc, next(seed))?;
        clauses.push(bits)?;
    }
    let mut checker = Unchecked::new();
    let found = match search.solve(&[], Turns::Whole, &mut checker) {
        Answer::Sat(_values) => Some(true),
        Answer::Unsat(_core) => Some(false),
        Answer::Unknown(_learned) => None,
        Answer::Stopped(_reason) => None,
        Answer::NoMemory => None,
    };
    Ok((found, has_model(&clauses)))
}

#[test]
fn a_hundred_random_problems_have_the_answers_of_their_truth_tables(
    rt: HostRuntime,
) -> Result<(), Fail> {
    for problem in 0..100u64 {
        let (found, wanted) = both_answers(rt.alloc(), problem)?;
        assert_eq!(rt; found, Some(wanted), "problem {problem}");
    }
    Ok(())
}
