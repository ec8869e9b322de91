//! A tableau over exact fractions: each variable has its coefficients by the columns, the nonbasic variables.
//!
//! The columns stand in rising order of variables, and a column has coefficients too (1 at itself, else 0), so that a
//! pivot does the same to every row. A call that would need a number past 128 bits, or memory that is refused, leaves
//! the tableau as it was.
#![tactic(auto)]

ghost use Rattle.std.specs.Prelude.{◌≡◌, ◌≢◌, ◌<◌, ◌+◌, ◌++◌, ◌∷◌, [], List, None, Some, false, length, IfOk, IfErr, OnOk, OnErr, All};
ghost use Rattle.rationals.specs.Rational.{zero_ℚ};
ghost use Rattle.rationals.specs.Delta.{Delta as Infinitesimal};
ghost use Rattle.simplex_logic.specs.Vectors.{at, summed, zeros};
ghost use Rattle.simplex_logic.specs.Tables.{is_column};
ghost use Rattle.simplex_logic.specs.Quantities.{Vertex};
ghost use Rattle.simplex_table.specs.Causes.{OnWide};
ghost use Rattle.simplex_table.specs.View.{form_of, row_at, deltas, Sound, Exchanged, AreValues, WideIn, Known, KnownOr};

mod columns;
mod error;
mod row;
#[cfg(test)]
mod tests;

use columns::{grow, replace_all, settle_down, settle_up};
pub use error::TableauError;
use fraction128::{Delta, Frac};
use row::Row;
use std::alloc::{AllocError, Global};
use std::marker::{Model, PhantomData};
use y_erased::{Erased, Makes, made};

/// The row that each variable was made with, if any. Contracts see a list.
struct Handed;

impl Model for Handed {
    ghost use Rattle.std.specs.Prelude.{List, Option, []};
    ghost use Rattle.std.specs.Coded.{codes};
    ghost use Rattle.simplex_logic.specs.Forms.{Form};
    ghost use Rattle.rationals.proofs.FieldQ.{coded_ℚ};

    ghost Value = { List (Option Form) };

    ghost coded = { Prim.hlevel (codes, coded_ℚ) };

    ghost view = { λ _. [] };
}

/// No variable yet.
struct NoRows;

impl Makes for NoRows {
    type From = ();

    type With = ();

    type Of = Handed;

    ghost make = { λ _ _. [] };
}

/// One more variable, without a row.
struct VariableAdded;

impl Makes for VariableAdded {
    type From = Erased<Handed>;

    type With = ();

    type Of = Handed;

    ghost make = { λ rows _. rows.value ++ None ∷ [] };
}

/// One more variable, with a row.
struct RowAdded<'a> {
    of: PhantomData<&'a ()>,
}

impl<'a> Makes for RowAdded<'a> {
    type From = Erased<Handed>;

    type With = &'a [(usize, Frac)];

    type Of = Handed;

    ghost make = { λ rows row. rows.value ++ Some (form_of row.now) ∷ [] };
}

/// Variables with rows, by columns.
#[derive(Drop)]
pub struct Tableau {
    alloc: Global,
    rows: Erased<Handed>,
    columns: Vec<usize>,
    table: Vec<Row>,
}

impl Model for Tableau {
    ghost use Rattle.std.specs.Coded.{codes};
    ghost use Rattle.rationals.proofs.FieldQ.{coded_ℚ};
    ghost use Rattle.simplex_table.specs.View.{State};

    ghost Value = { State };

    ghost use Rattle.simplex_table.specs.Inside.{state_of, IsSound};

    ghost view = { state_of };

    ghost invariant = { IsSound };
}

impl Tableau {
    /// A tableau without variables.
    pub fn new(alloc: Global) -> Tableau
        ensures { result ≡ record { rows = []; columns = []; table = [] } }
    {
        Tableau {
            alloc,
            rows: made::<NoRows>(&(), &()),
            columns: Vec::new(alloc),
            table: Vec::new(alloc),
        }
    }

    /// The number of variables.
    pub fn len(&self) -> usize
        ensures { result ≡ length self.now.rows }
    {
        self.table.len()
    }

    /// The nonbasic variables, in rising order. They are a basis: every variable has an expression by them.
    pub fn columns(&self) -> &[usize]
        ensures value { result.now ≡ self.now.columns }
        ensures sound { Sound self.now }
    {
        &self.columns
    }

    /// A variable's coefficients by the columns, in their order.
    pub fn row(&self, variable: usize) -> &[Frac]
        requires { variable < length self.now.rows }
        ensures { result.now ≡ row_at self.now.table variable }
    {
        self.table[variable].entries()
    }

    /// Makes a variable without a row, and answers its number. It becomes the last column.
    ///
    /// A refusal leaves the tableau as it was. Cost: one step for each variable, amortized.
    pub fn new_var(&mut self) -> Result<usize, AllocError>
        ensures number { IfOk result (λ variable. variable ≡ length self.old.rows) }
        ensures ok { OnOk result (self.new.rows ≡ self.old.rows ++ None ∷ []) }
        ensures column { OnOk result (self.new.columns ≡ self.old.columns ++ length self.old.rows ∷ []) }
        ensures err { OnErr result (self.new ≡ self.old) }
    {
        let variable = self.table.len();
        let mut row = Row::zeros(self.alloc, self.columns.len())?;
        row.push(Frac::one())?;
        self.columns.reserve(1)?;
        self.table.reserve(1)?;
        grow(&mut self.table)?;
        self.columns.push(variable)?;
        self.table.push(row)?;
        self.rows = made::<VariableAdded>(&self.rows, &());
        Ok(variable)
    }

    /// Makes a variable that is the sum of the row's terms, and answers its number. The columns stay.
    ///
    /// Errors: `Wide` where a product of a coefficient with an entry is too wide, or the sum of the first such products
    /// and the next one. After an error the tableau is as it was. Cost: a product and a sum for each term and column.
    pub fn add_row(&mut self, row: &[(usize, Frac)]) -> Result<usize, TableauError>
        requires { All (λ t. t.0 < length self.old.rows) row.now }
        ensures number { IfOk result (λ variable. variable ≡ length self.old.rows) }
        ensures ok { OnOk result (self.new.rows ≡ self.old.rows ++ Some (form_of row.now) ∷ []) }
        ensures columns { OnOk result (self.new.columns ≡ self.old.columns) }
        ensures err { OnErr result (self.new ≡ self.old) }
        ensures wide { IfErr result (OnWide (λ w. (C : List Infinitesimal) → WideIn self.old (KnownOr self.old (form_of row.now)) C w)) }
    {
        let variable = self.table.len();
        let coefficients = self.sum(row)?;
        self.table.push(coefficients)?;
        self.rows = made::<RowAdded>(&self.rows, &row);
        Ok(variable)
    }

    /// Lets a basic variable take the place of a column's variable, which becomes basic.
    ///
    /// Errors: `Wide` where a quotient of two entries of the variable, a product of an entry with one of the new basis,
    /// or the sum of an entry and such a product is too wide. After an error the tableau is as it was. Cost: a product
    /// and a sum for each column and each variable whose entry in the column is not 0, and a copy of the other rows.
    pub fn pivot(&mut self, variable: usize, column: usize) -> Result<(), TableauError>
        requires known { variable < length self.old.rows }
        requires basic { is_column self.old.columns variable ≡ false }
        requires in_row { column < length self.old.columns }
        requires nonzero { at (row_at self.old.table variable) column ≢ zero_ℚ }
        ensures ok { OnOk result (Exchanged self.old self.new variable column) }
        ensures err { OnErr result (self.new ≡ self.old) }
        ensures wide { IfErr result (OnWide (λ w. (C : List Infinitesimal) → WideIn self.old (Known self.old) C w)) }
    {
        let solved = self.table[variable].solved(self.alloc, column)?;
        let table = replace_all(self.alloc, &self.table, column, &solved)?;
        self.table = table;
        self.columns[column] = variable;
        let place = settle_up(&mut self.columns, &mut self.table, column);
        settle_down(&mut self.columns, &mut self.table, place);
        Ok(())
    }

    /// The values of all variables where the columns have the given values.
    ///
    /// Errors: `Wide` where a product of an entry with a column's value is too wide, or the sum of the first such
    /// products, in the columns' order, and the next one. Cost: two products and sums for each variable and column whose
    /// entry and value are not 0.
    pub fn values(&self, alloc: Global, at_columns: &[Delta]) -> Result<Vec<Delta>, TableauError>
        requires { length at_columns.now ≡ length self.now.columns }
        ensures ok { IfOk result (λ values. AreValues self.now (deltas at_columns.now) values.items) }
        ensures wide { IfErr result (OnWide (λ w. (C : List Infinitesimal) → Vertex self.now.columns C (deltas at_columns.now) → WideIn self.now (Known self.now) C w)) }
    {
        let mut values = Vec::with_capacity(alloc, self.table.len())?;
        for row in &self.table {
            values.push(row.value(at_columns)?)?;
        }
        Ok(values)
    }

    // The sum of the rows of a form's variables, each times its coefficient.
    fn sum(&self, row: &[(usize, Frac)]) -> Result<Row, TableauError>
        requires { All (λ t. t.0 < length self.now.rows) row.now }
        ensures ok { IfOk result (λ sum. sum ≡ summed (row_at self.now.table) (zeros (length self.now.columns)) (form_of row.now)) }
        ensures wide { IfErr result (OnWide (λ w. (C : List Infinitesimal) → WideIn self.now (KnownOr self.now (form_of row.now)) C w)) }
    {
        let mut sum = Row::zeros(self.alloc, self.columns.len())?;
        for (variable, by) in row {
            sum = sum.summed(self.alloc, *by, &self.table[*variable])?;
        }
        Ok(sum)
    }
}
