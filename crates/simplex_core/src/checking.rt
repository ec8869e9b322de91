//! The turns of a check: the first variable beyond a limit leaves the basis, and the first column that repairs its row
//! enters, until no variable is beyond a limit or no column repairs the row.

ghost use Rattle.std.specs.Prelude.{◌≡◌, ◌≢◌, ◌<◌, ℕ, not, length, slice_index, IfOk, IfErr, OnOk, OnErr, replicate, false};
ghost use Rattle.rationals.specs.Rational.{zero_ℚ};
ghost use Rattle.simplex_logic.specs.Limits.{First};
ghost use Rattle.simplex_logic.specs.Tables.{is_column};
ghost use Rattle.simplex_logic.specs.Vectors.{at};
ghost use Rattle.simplex_table.specs.View.{row_at, deltas, delta_at, AreValues, Exchanged};
ghost use Rattle.simplex_bounds.specs.Ranges.{limits_of, range_at, IsStraight};
ghost use Rattle.simplex_core.specs.Choosing.{IsFirstViolated};
ghost use Rattle.simplex_core.specs.Wides.{OnStop};
ghost use Rattle.simplex_core.specs.Checking.{marks_after, ArePoints, AreStarts, Turning, turns_left, IsTurn, IsEnd, IsWideIn, IsWideAtVertex, IsWideAnyway};

use crate::certificate::certificate;
use crate::choice::{first_moving, first_violated};
use crate::lists::Multipliers;
use crate::wide::{Stop, stop_at};
use fraction128::Delta;
use simplex_bounds::{Bound, Range};
use simplex_table::Tableau;
use std::alloc::{AllocError, Global};
use std::marker::Model;
use y_erased::{Erased, Makes, made};

/// Which nonbasic variables left the basis and saw no greater variable move since. Contracts see a list of truth values.
pub struct Spent;

impl Model for Spent {
    ghost use Rattle.std.specs.Prelude.{List, Bool, []};

    ghost Value = { List Bool };

    ghost view = { λ _. [] };
}

/// No variable of so many.
pub struct NoneSpent;

impl Makes for NoneSpent {
    type From = usize;

    type With = ();

    type Of = Spent;

    ghost make = { λ count _. replicate count false };
}

/// The variables that are spent after the first of two left the basis and the second entered.
struct MarksMoved;

impl Makes for MarksMoved {
    type From = Erased<Spent>;

    type With = (usize, usize);

    type Of = Spent;

    ghost make = { λ spent pair. marks_after pair.0 pair.1 spent.value };
}

/// The values of all variables, and which of them are spent.
#[derive(Drop)]
pub struct Progress {
    pub values: Vec<Delta>,
    pub spent: Erased<Spent>,
}

/// What a turn comes to.
#[derive(Drop)]
pub enum Turn {
    /// All values are within their limits.
    Done,
    /// The bounds of these multipliers contradict each other.
    Conflict(Multipliers),
    /// A variable left the basis and another entered.
    Pivoted,
}

/// The values of the columns.
fn points(alloc: Global, columns: &[usize], values: &[Delta]) -> Result<Vec<Delta>, AllocError>
    requires { (k : ℕ) → k < length columns.now → slice_index columns.now k < length values.now }
    ensures { IfOk result (λ v. ArePoints columns.now values.now v.items) }
{
    let mut found = Vec::new(alloc);
    for column in columns {
        let at = values[*column];
        found.push(at)?;
    }
    Ok(found)
}

/// The number of each column's range that is nearest to 0.
pub fn starts(alloc: Global, columns: &[usize], ranges: &[Range]) -> Result<Vec<Delta>, AllocError>
    requires named { (k : ℕ) → k < length columns.now → slice_index columns.now k < length ranges.now }
    requires straight { (v : ℕ) → IsStraight (range_at ranges.now v) }
    ensures { IfOk result (λ v. AreStarts columns.now ranges.now v.items) }
{
    let mut found = Vec::new(alloc);
    for column in columns {
        let range = ranges[*column];
        found.push(range.start())?;
    }
    Ok(found)
}

/// The values of all variables, from those of the columns.
pub fn anew(alloc: Global, tableau: &Tableau, at_columns: &[Delta]) -> Result<Vec<Delta>, Stop>
    requires { length at_columns.now ≡ length tableau.now.columns }
    ensures ok { IfOk result (λ values. AreValues tableau.now (deltas at_columns.now) values.items) }
    ensures wide { IfErr result (OnStop (IsWideAtVertex tableau.now (deltas at_columns.now))) }
{
    match tableau.values(alloc, at_columns) {
        Ok(values) => Ok(values),
        Err(error) => Err(stop_at(alloc, tableau, error)),
    }
}

/// Lets a basic variable take the place of a column's variable.
fn pivot(alloc: Global, tableau: &mut Tableau, variable: usize, column: usize) -> Result<(), Stop>
    requires known { variable < length tableau.old.rows }
    requires basic { is_column tableau.old.columns variable ≡ false }
    requires in_row { column < length tableau.old.columns }
    requires nonzero { at (row_at tableau.old.table variable) column ≢ zero_ℚ }
    ensures ok { OnOk result (Exchanged tableau.old tableau.new variable column) }
    ensures err { OnErr result (tableau.new ≡ tableau.old) }
    ensures wide { IfErr result (OnStop (IsWideAnyway tableau.old.rows)) }
{
    match tableau.pivot(variable, column) {
        Ok(()) => Ok(()),
        Err(error) => Err(stop_at(alloc, tableau, error)),
    }
}

/// Lets the variable of a violated bound leave the basis, to stand at the bound, and that of a column enter.
fn exchange(
    alloc: Global,
    tableau: &mut Tableau,
    ranges: &[Range],
    run: &mut Progress,
    bound: &Bound,
    column: usize,
) -> Result<(), Stop>
    requires turning { Turning tableau.old ranges.now run.old.values.items run.old.spent.value }
    requires violated { IsFirstViolated ranges.now run.old.values.items bound.now }
    requires first { First (limits_of ranges.now) (delta_at run.old.values.items) (not bound.now.upper) (row_at tableau.old.table bound.now.variable) tableau.old.columns column }
    ensures rows { tableau.new.rows ≡ tableau.old.rows }
    ensures ok { OnOk result (IsTurn (turns_left tableau.old run.old.spent.value) tableau.new ranges.now run.new.values.items run.new.spent.value Turn.Pivoted) }
    ensures wide { IfErr result (OnStop (IsWideIn tableau.old.rows ranges.now)) }
{
    let variable = bound.variable;
    let entering = tableau.columns()[column];
    pivot(alloc, tableau, variable, column)?;
    run.values[variable] = bound.value;
    let at_columns = points(alloc, tableau.columns(), &run.values)?;
    let values = anew(alloc, tableau, &at_columns)?;
    run.values = values;
    run.spent = made::<MarksMoved>(&run.spent, &(variable, entering));
    Ok(())
}

/// One turn, by the tableau's columns and the values so far.
fn take_turn(
    alloc: Global,
    tableau: &mut Tableau,
    ranges: &[Range],
    run: &mut Progress,
) -> Result<Turn, Stop>
    requires { Turning tableau.old ranges.now run.old.values.items run.old.spent.value }
    ensures rows { tableau.new.rows ≡ tableau.old.rows }
    ensures ok { IfOk result (IsTurn (turns_left tableau.old run.old.spent.value) tableau.new ranges.now run.new.values.items run.new.spent.value) }
    ensures wide { IfErr result (OnStop (IsWideIn tableau.old.rows ranges.now)) }
{
    let Some(bound) = first_violated(ranges, &run.values) else {
        return Ok(Turn::Done);
    };
    let row = tableau.row(bound.variable);
    let columns = tableau.columns();
    match first_moving(row, !bound.upper, columns, ranges, &run.values) {
        Some(column) => {
            exchange(alloc, tableau, ranges, run, &bound, column)?;
            Ok(Turn::Pivoted)
        }
        None => {
            let multipliers = certificate(alloc, &bound, row, columns, ranges)?;
            Ok(Turn::Conflict(multipliers))
        }
    }
}

/// Takes turns until there is none left. The conflict, if there is one.
pub fn repair(
    alloc: Global,
    tableau: &mut Tableau,
    ranges: &[Range],
    run: &mut Progress,
) -> Result<Option<Multipliers>, Stop>
    requires { Turning tableau.old ranges.now run.old.values.items run.old.spent.value }
    ensures rows { tableau.new.rows ≡ tableau.old.rows }
    ensures ok { IfOk result (IsEnd tableau.new ranges.now run.new.values.items run.new.spent.value) }
    ensures wide { IfErr result (OnStop (IsWideIn tableau.old.rows ranges.now)) }
{
    loop {
        match take_turn(alloc, tableau, ranges, run)? {
            Turn::Pivoted => {}
            Turn::Done => return Ok(None),
            Turn::Conflict(multipliers) => return Ok(Some(multipliers)),
        }
    }
}
