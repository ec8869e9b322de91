//! The simplex, as its callers see it.

ghost use Rattle.std.specs.Prelude.{◌≡◌, ◌↔◌, IsTrue, ◌<◌, ◌++◌, ◌∷◌, [], ℕ, List, false, true, None, Some, length, All, Contains, IfOk, IfErr, OnOk, OnErr, IsSomeAnd, IsSome};
ghost use Rattle.rationals.specs.Delta.{Delta as Infinitesimal};
ghost use Rattle.simplex_logic.specs.Forms.{row_of};
ghost use Rattle.simplex_table.specs.View.{form_of, delta_of};
ghost use Rattle.simplex_bounds.specs.declared.Bound.{Bound};
ghost use Rattle.rationals.specs.Rational.{ℚ};
ghost use Rattle.simplex_core.specs.declared.wide.WideAt.{WideAt};
ghost use Rattle.simplex_core.specs.Conflicts.{IsConflict};
ghost use Rattle.simplex_core.specs.Wides.{OnStop, IsWide, Known, KnownOr};
ghost use Rattle.simplex_core.specs.Content.{IsSolution, value_in};
ghost use Rattle.simplex_core.specs.Solving.{IsSolved};
ghost use Rattle.simplex_core.specs.Concrete.{IsConcrete};

use crate::certificate::pair;
use crate::checking::{NoneSpent, Progress, anew, repair, starts};
use crate::concrete::{common_step, concrete_values, value_of};
use crate::lists::{Fracs, Multipliers};
use crate::wide::{Stop, WideAt, stop_at, wide_at};
use fraction128::{Delta, Frac};
use simplex_bounds::{Bound, first_crossing, ranges_of};
use simplex_table::Tableau;
use std::alloc::{AllocError, Global};
use std::marker::Model;
use y_erased::made;

/// What a check answers.
#[derive(Drop)]
pub enum Outcome {
    /// The values meet every row and bound.
    Feasible,
    /// The bounds with these tags, multiplied and added, are a contradiction.
    Infeasible(Multipliers),
    /// An operation on two fractions is too wide.
    Wide(WideAt),
    /// Memory was refused.
    NoMemory,
}

/// Variables that are tied by rows, with bounds that can be taken back.
#[derive(Drop)]
pub struct Simplex {
    alloc: Global,
    tableau: Tableau,
    bounds: Vec<Bound>,
    marks: Vec<usize>,
    values: Vec<Delta>,
    current: bool,
}

impl Model for Simplex {
    ghost use Rattle.simplex_core.specs.Content.{Content};

    ghost Value = { Content };

    ghost use Rattle.simplex_core.specs.Inside.{content_of, IsSimplex};

    ghost view = { content_of };

    ghost invariant = { IsSimplex };
}

/// Whether all terms name variables below a number.
fn all_below(row: &[(usize, Frac)], count: usize) -> bool
    ensures { IsTrue result ↔ All (λ t. t.0 < count) row.now }
{
    row.iter().all(|t| t.0 < count)
}

/// Values of the tableau's variables that meet the rows and the bounds, or a conflict of the bounds.
fn solve(
    alloc: Global,
    tableau: &mut Tableau,
    bounds: &[Bound],
    values: &mut Vec<Delta>,
) -> Result<Option<Multipliers>, Stop>
    requires { (b : Bound) → Contains bounds.now b → b.variable < length tableau.old.rows }
    ensures rows { tableau.new.rows ≡ tableau.old.rows }
    ensures ok { IfOk result (IsSolved tableau.new bounds.now values.new.items) }
    ensures wide { IfErr result (OnStop (IsWide tableau.old.rows (Known tableau.old.rows) bounds.now)) }
{
    let count = tableau.len();
    let ranges = ranges_of(alloc, count, bounds)?;
    if let Some((low, up)) = first_crossing(&ranges) {
        return Ok(Some(pair(alloc, &low, &up)?));
    }
    let at_columns = starts(alloc, tableau.columns(), &ranges)?;
    let mut run = Progress {
        values: anew(alloc, tableau, &at_columns)?,
        spent: made::<NoneSpent>(&count, &()),
    };
    let conflict = repair(alloc, tableau, &ranges, &mut run)?;
    let Progress {
        values: found,
        spent: _,
    } = run;
    *values = found;
    Ok(conflict)
}

impl Simplex {
    /// A simplex without variables. It takes no memory.
    pub fn new(alloc: Global) -> Simplex
        ensures { result ≡ record { rows = []; bounds = []; saved = []; found = None } }
    {
        Simplex {
            alloc,
            tableau: Tableau::new(alloc),
            bounds: Vec::new(alloc),
            marks: Vec::new(alloc),
            values: Vec::new(alloc),
            current: false,
        }
    }

    /// How many variables there are.
    pub fn vars(&self) -> usize
        ensures { result ≡ length self.now.rows }
    {
        self.tableau.len()
    }

    /// How many marks there are.
    pub fn marks(&self) -> usize
        ensures { result ≡ length self.now.saved }
    {
        self.marks.len()
    }

    /// Whether the row names variables that there are.
    pub fn knows(&self, row: &[(usize, Frac)]) -> bool
        ensures { IsTrue result ↔ All (λ t. t.0 < length self.now.rows) row.now }
    {
        let count = self.tableau.len();
        all_below(row, count)
    }

    /// Makes a variable, and answers its number. Values that a check found stay, with 0 for the new variable.
    pub fn new_var(&mut self) -> Result<usize, AllocError>
        ensures number { IfOk result (λ v. v ≡ length self.old.rows) }
        ensures ok { OnOk result (self.new ≡ record self.old { rows = self.old.rows ++ None ∷ [] }) }
        ensures err { OnErr result (self.new ≡ self.old) }
    {
        self.tableau.new_var()
    }

    /// Makes a variable that is the sum of the row's products of a coefficient with a variable, and answers its number.
    /// It takes a product and a sum for each term and each variable without a row.
    ///
    /// Errors: `Wide` where such an operation is too wide.
    pub fn add_row(&mut self, row: &[(usize, Frac)]) -> Result<usize, Stop>
        requires { All (λ t. t.0 < length self.old.rows) row.now }
        ensures number { IfOk result (λ v. v ≡ length self.old.rows) }
        ensures ok { OnOk result (self.new ≡ record self.old { rows = self.old.rows ++ Some (form_of row.now) ∷ []; found = None }) }
        ensures err { OnErr result (self.new ≡ self.old) }
        ensures wide { IfErr result (OnStop (IsWide self.old.rows (KnownOr self.old.rows (form_of row.now)) self.old.bounds)) }
    {
        match self.tableau.add_row(row) {
            Ok(variable) => {
                self.current = false;
                Ok(variable)
            }
            Err(error) => Err(stop_at(self.alloc, &self.tableau, error)),
        }
    }

    /// Gives a variable a lower bound: the variable is at least the number.
    pub fn lower(&mut self, var: usize, bound: Delta, tag: usize) -> Result<(), AllocError>
        requires { var < length self.old.rows }
        ensures ok { OnOk result (self.new ≡ record self.old { bounds = self.old.bounds ++ record { variable = var; upper = false; value = bound; tag = tag } ∷ []; found = None }) }
        ensures err { OnErr result (self.new ≡ self.old) }
    {
        self.give(Bound {
            variable: var,
            upper: false,
            value: bound,
            tag,
        })
    }

    /// Gives a variable an upper bound: the variable is at most the number.
    pub fn upper(&mut self, var: usize, bound: Delta, tag: usize) -> Result<(), AllocError>
        requires { var < length self.old.rows }
        ensures ok { OnOk result (self.new ≡ record self.old { bounds = self.old.bounds ++ record { variable = var; upper = true; value = bound; tag = tag } ∷ []; found = None }) }
        ensures err { OnErr result (self.new ≡ self.old) }
    {
        self.give(Bound {
            variable: var,
            upper: true,
            value: bound,
            tag,
        })
    }

    /// Gives a bound.
    fn give(&mut self, bound: Bound) -> Result<(), AllocError>
        requires { bound.variable < length self.old.rows }
        ensures ok { OnOk result (self.new ≡ record self.old { bounds = self.old.bounds ++ bound ∷ []; found = None }) }
        ensures err { OnErr result (self.new ≡ self.old) }
    {
        self.bounds.push(bound)?;
        self.current = false;
        Ok(())
    }

    /// Marks the bounds in force.
    pub fn mark(&mut self) -> Result<(), AllocError>
        ensures ok { OnOk result (self.new ≡ record self.old { saved = self.old.saved ++ self.old.bounds ∷ [] }) }
        ensures err { OnErr result (self.new ≡ self.old) }
    {
        self.marks.push(self.bounds.len())?;
        Ok(())
    }

    /// Takes away the newest mark and the bounds given after it. It takes no memory.
    pub fn back(&mut self)
        requires { 0 < length self.old.saved }
        ensures bounds { self.old.saved ≡ self.new.saved ++ self.new.bounds ∷ [] }
        ensures rows { self.new.rows ≡ self.old.rows }
        ensures found { self.new.found ≡ None }
    {
        self.current = false;
        if let Some(mark) = self.marks.pop() {
            self.bounds.truncate(mark);
        }
    }

    /// Looks for values that meet every row and bound.
    ///
    /// Each turn takes time in variables times variables without a row; there are at most 3 to the number of variables.
    pub fn check(&mut self) -> Outcome
        ensures kept { self.new ≡ record self.old { found = self.new.found } }
        ensures feasible { result ≡ Outcome.Feasible → IsSomeAnd self.new.found (IsSolution self.old.rows self.old.bounds) }
        ensures infeasible { (ms : List (ℕ × ℚ)) → result ≡ Outcome.Infeasible ms → IsConflict (row_of self.old.rows) self.old.bounds ms }
        ensures wide { (w : WideAt) → result ≡ Outcome.Wide w → IsWide self.old.rows (Known self.old.rows) self.old.bounds w }
    {
        self.current = false;
        match solve(
            self.alloc,
            &mut self.tableau,
            &self.bounds,
            &mut self.values,
        ) {
            Ok(None) => {
                self.current = true;
                Outcome::Feasible
            }
            Ok(Some(multipliers)) => Outcome::Infeasible(multipliers),
            Err(Stop::Wide(wide)) => Outcome::Wide(wide),
            Err(Stop::NoMemory) => Outcome::NoMemory,
        }
    }

    /// The value that the newest check found for a variable; after other calls than `new_var` and `mark` it says nothing.
    pub fn value(&self, var: usize) -> Delta
        requires { var < length self.now.rows }
        ensures { (vs : List Infinitesimal) → self.now.found ≡ Some vs → delta_of result ≡ value_in vs var }
    {
        value_of(&self.values, var)
    }

    /// Fractions for all variables that meet every row and bound, from the values that the newest check found.
    ///
    /// Errors: `Wide` where an operation on the way is too wide.
    pub fn concrete(&self, alloc: Global) -> Result<Fracs, Stop>
        requires { IsSome self.now.found }
        ensures ok { IfOk result (IsConcrete self.now.rows self.now.bounds) }
        ensures wide { IfErr result (OnStop (IsWide self.now.rows (Known self.now.rows) self.now.bounds)) }
    {
        let count = self.tableau.len();
        let step = match common_step(&self.bounds, &self.values) {
            Ok(step) => step,
            Err(wide) => return Err(wide_at(alloc, &self.tableau, wide)),
        };
        match concrete_values(alloc, &self.values, count, step) {
            Ok(numbers) => Ok(Fracs::from_vec(numbers)),
            Err(error) => Err(stop_at(alloc, &self.tableau, error)),
        }
    }
}
