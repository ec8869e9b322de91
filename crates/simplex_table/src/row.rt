// A row: a variable's coefficients by the columns.
ghost use Rattle.std.specs.Prelude.{◌≡◌, ◌≢◌, ◌<◌, ◌+◌, ◌++◌, ◌∷◌, [], List, length, set, IfOk, IfErr, OnOk, OnErr};
ghost use Rattle.rationals.specs.Rational.{ℚ, zero_ℚ, ◌+ℚ◌, ◌*ℚ◌};
ghost use Rattle.simplex_logic.specs.Vectors.{at, dot, parts, pivot_row, replaced, zeros, add_rows, scale_row, flip};
ghost use Rattle.simplex_logic.specs.Vectors.{part};
ghost use Rattle.simplex_table.specs.Causes.{WideBy, WideAlong, OnWide, MultiplyAdd, Solving, Replacing, Summing, Multiplying};
ghost use Rattle.simplex_table.specs.View.{delta_of, deltas};
ghost use Rattle.simplex_table.specs.Values.{value_of, WideInPart};

use crate::error::TableauError;
use fraction128::{Delta, Frac, Wide};
use std::alloc::{AllocError, Global};
use std::marker::Model;

/// A variable's coefficients by the columns. Contracts see a list of numbers.
#[derive(Drop)]
pub struct Row {
    entries: Vec<Frac>,
}

impl Model for Row {
    ghost use Rattle.std.specs.Prelude.{List};
    ghost use Rattle.std.specs.Coded.{codes};
    ghost use Rattle.rationals.specs.Rational.{ℚ};
    ghost use Rattle.rationals.proofs.FieldQ.{coded_ℚ};

    ghost Value = { List ℚ };

    ghost coded = { Prim.hlevel (codes, coded_ℚ) };

    ghost view = { λ row. row.entries.items };
}

impl Row {
    /// The coefficients, in the columns' order.
    pub fn entries(&self) -> &[Frac]
        ensures { result.now ≡ self.now }
    {
        &self.entries
    }

    /// A row of zeros.
    #[tactic(auto, using(crate::proofs::Entries::zeros_more))]
    pub fn zeros(alloc: Global, columns: usize) -> Result<Row, AllocError>
        ensures { IfOk result (λ row. row ≡ zeros columns) }
    {
        let mut entries = Vec::with_capacity(alloc, columns)?;
        for _column in 0..columns {
            entries.push(Frac::zero())?;
        }
        Ok(Row { entries })
    }

    /// Adds a column. A refusal leaves the row as it was.
    pub fn push(&mut self, entry: Frac) -> Result<(), AllocError>
        ensures ok { OnOk result (self.new ≡ self.old ++ entry ∷ []) }
        ensures err { OnErr result (self.new ≡ self.old) }
    {
        self.entries.push(entry)?;
        Ok(())
    }

    /// Takes the last column away.
    pub fn pop(&mut self)
        ensures last { (entry : ℚ) (rest : List ℚ) → self.old ≡ rest ++ entry ∷ [] → self.new ≡ rest }
    {
        self.entries.pop();
    }

    /// The same row.
    pub fn copy(&self, alloc: Global) -> Result<Row, AllocError>
        ensures { IfOk result (λ row. row ≡ self.now) }
    {
        let entries = Vec::from_slice(alloc, &self.entries)?;
        Ok(Row { entries })
    }

    /// Exchanges a column with the next one.
    pub fn flip(&mut self, column: usize)
        requires { column + 1 < length self.old }
        ensures { self.new ≡ flip column self.old }
    {
        self.entries.swap(column, column + 1);
    }

    /// The row solved for the variable of a column: that variable's coefficients once this row's variable has taken its
    /// place.
    #[tactic(auto, using(crate::proofs::Entries::solved_more, crate::proofs::Entries::solved_all))]
    pub fn solved(&self, alloc: Global, column: usize) -> Result<Row, TableauError>
        requires in_row { column < length self.now }
        requires nonzero { at self.now column ≢ zero_ℚ }
        ensures ok { IfOk result (λ row. row ≡ pivot_row column self.now) }
        ensures wide { IfErr result (OnWide (WideAlong (length self.now) (Solving self.now column))) }
    {
        let mut entries = Vec::with_capacity(alloc, self.entries.len())?;
        for k in 0..self.entries.len() {
            entries.push(solved_entry(&self.entries, column, k)?)?;
        }
        Ok(Row { entries })
    }

    /// The row with the variable of a column replaced by what it is solved for.
    #[tactic(auto, using(crate::proofs::Entries::replaced_more, crate::proofs::Entries::replaced_all, crate::proofs::Entries::at_read))]
    pub fn replaced(&self, alloc: Global, column: usize, pivot: &Row) -> Result<Row, TableauError>
        requires in_row { column < length self.now }
        requires same_length { length pivot.now ≡ length self.now }
        ensures ok { IfOk result (λ row. row ≡ replaced column pivot.now self.now) }
        ensures wide { IfErr result (OnWide (WideAlong (length self.now) (Replacing column pivot.now self.now))) }
    {
        let by = self.entries[column];
        if by.is_zero() {
            return Ok(self.copy(alloc)?);
        }
        let mut entries = Vec::with_capacity(alloc, self.entries.len())?;
        for k in 0..self.entries.len() {
            entries.push(add_product(kept_entry(&self.entries, column, k), by, pivot.entries[k])?)?;
        }
        Ok(Row { entries })
    }

    /// The value of the row's variable where the columns have the given values.
    pub fn value(&self, values: &[Delta]) -> Result<Delta, Wide>
        requires same_length { length values.now ≡ length self.now }
        ensures ok { IfOk result (λ value. delta_of value ≡ value_of self.now (deltas values.now)) }
        ensures wide { IfErr result (WideInPart self.now (deltas values.now)) }
    {
        let real = products(&self.entries, values, true)?;
        let inf = products(&self.entries, values, false)?;
        Ok(Delta { real, inf })
    }

    /// The sum of this row and a multiple of another.
    #[tactic(auto, using(crate::proofs::Entries::summed_more, crate::proofs::Entries::summed_all, crate::proofs::Entries::at_read))]
    pub fn summed(&self, alloc: Global, by: Frac, row: &Row) -> Result<Row, TableauError>
        requires same_length { length row.now ≡ length self.now }
        ensures ok { IfOk result (λ sum. sum ≡ add_rows self.now (scale_row by row.now)) }
        ensures wide { IfErr result (OnWide (WideAlong (length self.now) (Summing self.now by row.now))) }
    {
        let mut entries = Vec::with_capacity(alloc, self.entries.len())?;
        for k in 0..self.entries.len() {
            entries.push(add_product(self.entries[k], by, row.entries[k])?)?;
        }
        Ok(Row { entries })
    }
}

// a + b * c, where a product with 0 is not computed.
#[tactic(auto, using(crate::proofs::Entries::add_none_left, crate::proofs::Entries::add_none_right))]
fn add_product(a: Frac, b: Frac, c: Frac) -> Result<Frac, Wide>
    ensures ok { IfOk result (λ x. x ≡ a +ℚ b *ℚ c) }
    ensures wide { IfErr result (WideBy (MultiplyAdd a b c)) }
{
    if b.is_zero() || c.is_zero() {
        return Ok(a);
    }
    let product = b.mul(c)?;
    a.add(product)
}

// The coefficient at column k, with 0 in the place of the variable that goes.
fn kept_entry(row: &[Frac], column: usize, k: usize) -> Frac
    requires { k < length row.now }
    ensures { result ≡ at (set row.now column zero_ℚ) k }
{
    if k == column { Frac::zero() } else { row[k] }
}

// The coefficient at column k of the row solved for the variable of a column.
#[tactic(auto, using(crate::proofs::Entries::solved_here, crate::proofs::Entries::solved_there, crate::proofs::Entries::solved_none, crate::proofs::Entries::at_read))]
fn solved_entry(row: &[Frac], column: usize, k: usize) -> Result<Frac, Wide>
    requires here { k < length row.now }
    requires in_row { column < length row.now }
    requires nonzero { at row.now column ≢ zero_ℚ }
    ensures ok { IfOk result (λ x. x ≡ at (pivot_row column row.now) k) }
    ensures wide { IfErr result (WideBy (Solving row.now column k)) }
{
    if k == column {
        return Frac::one().div(row[column]);
    }
    if row[k].is_zero() {
        return Ok(row[k]);
    }
    let quotient = row[k].div(row[column])?;
    Ok(quotient.neg())
}

// One part of a number.
fn part(value: Delta, real: bool) -> Frac
    ensures { result ≡ part real (delta_of value) }
{
    if real { value.real } else { value.inf }
}

// The sum of the products of a row with one part of each value, column by column.
#[tactic(auto, using(crate::proofs::Entries::dot_more, crate::proofs::Entries::dot_all, crate::proofs::Entries::at_read))]
fn products(row: &[Frac], values: &[Delta], real: bool) -> Result<Frac, Wide>
    requires { length values.now ≡ length row.now }
    ensures ok { IfOk result (λ x. x ≡ dot row.now (parts real (deltas values.now))) }
    ensures wide { IfErr result (WideAlong (length row.now) (Multiplying row.now (parts real (deltas values.now)))) }
{
    let mut sum = Frac::zero();
    for k in 0..row.len() {
        sum = add_product(sum, row[k], part(values[k], real))?;
    }
    Ok(sum)
}
