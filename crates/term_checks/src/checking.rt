//! The check.
ghost use Rattle.std.specs.Prelude.{◌≡◌, ◌++◌, IfOk, IfErr, OnOk};
ghost use Rattle.term_table.specs.Checking.{AreLive};
ghost use Rattle.term_orders.specs.Orders.{IsOrder};
ghost use Rattle.term_checks.specs.Answers.{IsModel, IsCore};
ghost use Rattle.term_checks.specs.Formulas.{AreFormulas, AreBoolean, AreReady};
ghost use Rattle.term_checks.specs.Problems.{IsLearned};
ghost use Rattle.term_checks.specs.Verdicts.{IfSat, IfUnsat, IfUnknown, RefusesCheck};

use crate::answers::{CheckError, TermVerdict};
use crate::building::{literals_of, problem_of, values_of};
use crate::lists::{as_set, each_once, joined, terms_at};
use crate::sorting::first_other;
use indexmap::IndexSet;
use std::alloc::{AllocError, Global};
use term_orders::subterms;
use term_table::{Table, Term};
use theory_combine::{Turns, Verdict, decide_assuming};

/// Finds truth values of the constants under which all formulas and all assumptions are true, or answers that there are
/// none, then with assumptions that are to blame. Equal assumptions count once. Under a limit of turns it may answer with
/// what was learned, one clause more than the limit; without a limit it never does. Each assumption costs a level of the
/// search, a formula costs none.
///
/// # Errors
///
/// `NotBuilt` exactly where a term below a formula or an assumption has another sort than that of truth values; `NoMemory`.
pub fn check_terms(
    alloc: Global,
    table: &Table,
    formulas: &[Term],
    assumed: &[Term],
    turns: Turns,
) -> Result<TermVerdict, CheckError>
    requires formulas { AreFormulas table.now formulas.now }
    requires assumptions { AreFormulas table.now assumed.now }
    ensures sat { IfOk result (λ v. IfSat v (IsModel table.now formulas.now assumed.now)) }
    ensures unsat { IfOk result (λ v. IfUnsat v (IsCore table.now formulas.now assumed.now)) }
    ensures unknown { IfOk result (λ v. IfUnknown v (IsLearned table.now formulas.now assumed.now turns)) }
    ensures whole { turns ≡ Turns.Whole → IfOk result (λ v. IfUnknown v (λ l. ⊥)) }
    ensures refused { IfErr result (RefusesCheck table.now (formulas.now ++ assumed.now)) }
    ensures boolean { OnOk result (AreBoolean table.now (formulas.now ++ assumed.now)) }
{
    table.is_table();
    let Ok(order) = order_of(alloc, table, formulas, assumed) else {
        return Err(CheckError::NoMemory);
    };
    if first_other(table, order.as_slice()).is_some() {
        return Err(CheckError::NotBuilt);
    }
    match decided(alloc, table, &order, formulas, assumed, turns) {
        Ok(verdict) => Ok(verdict),
        Err(_) => Err(CheckError::NoMemory),
    }
}

/// The subterms of formulas and assumptions, in order.
fn order_of(
    alloc: Global,
    table: &Table,
    formulas: &[Term],
    assumed: &[Term],
) -> Result<IndexSet<Term>, AllocError>
    requires { AreLive table.now (formulas.now ++ assumed.now) }
    ensures { IfOk result (λ order. IsOrder table.now (formulas.now ++ assumed.now) order.keys) }
{
    let roots = joined(alloc, formulas, assumed)?;
    let terms = subterms(alloc, table, roots.as_slice())?;
    let order = as_set(alloc, terms.as_slice())?;
    Ok(order)
}

/// The verdict, where all subterms are truth values.
fn decided(
    alloc: Global,
    table: &Table,
    order: &IndexSet<Term>,
    formulas: &[Term],
    assumed: &[Term],
    turns: Turns,
) -> Result<TermVerdict, AllocError>
    requires ready { AreReady table.now order.now.keys }
    requires order { IsOrder table.now (formulas.now ++ assumed.now) order.now.keys }
    ensures sat { IfOk result (λ v. IfSat v (IsModel table.now formulas.now assumed.now)) }
    ensures unsat { IfOk result (λ v. IfUnsat v (IsCore table.now formulas.now assumed.now)) }
    ensures unknown { IfOk result (λ v. IfUnknown v (IsLearned table.now formulas.now assumed.now turns)) }
    ensures whole { turns ≡ Turns.Whole → IfOk result (λ v. IfUnknown v (λ l. ⊥)) }
{
    let problem = problem_of(alloc, table, order)?;
    let asserted = literals_of(alloc, order, formulas)?;
    let once = each_once(alloc, assumed)?;
    let tried = literals_of(alloc, order, once.as_slice())?;
    match decide_assuming(
        alloc,
        &problem,
        asserted.as_slice(),
        tried.as_slice(),
        turns,
    )? {
        Verdict::Sat(values) => {
            let found = values_of(alloc, order.as_slice(), values.as_slice())?;
            Ok(TermVerdict::Sat(found))
        }
        Verdict::Unsat(places) => {
            let core = terms_at(alloc, once.as_slice(), places.as_slice())?;
            Ok(TermVerdict::Unsat(core))
        }
        Verdict::Unknown(learned) => Ok(TermVerdict::Unknown(learned)),
    }
}
