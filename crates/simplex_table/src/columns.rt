// What is done to the columns of all rows.
ghost use Rattle.std.specs.Prelude.{◌≡◌, ◌<◌, ◌≤◌, ◌+◌, List, length, map, IfOk, IfErr, OnOk, OnErr, vec_len, vec_capacity};
ghost use Rattle.rationals.specs.Rational.{ℚ};
ghost use Rattle.simplex_logic.specs.Vectors.{replaced, flip};
ghost use Rattle.simplex_logic.specs.Tables.{Sorted};
ghost use Rattle.simplex_table.specs.Causes.{OnWide};
ghost use Rattle.simplex_table.specs.Columns.{map_first, with_zero, HaveLength, WideInRow, Reordered, RisesBut, RisesFrom};

use crate::error::TableauError;
use crate::row::Row;
use fraction128::Frac;
use std::alloc::{AllocError, Global};

// Each row with the variable of a column replaced by what it is solved for.
#[tactic(auto, using(crate::proofs::Firsts::mapped_more, crate::proofs::Firsts::mapped_all, crate::proofs::Firsts::length_of))]
pub fn replace_all(
    alloc: Global,
    table: &[Row],
    column: usize,
    pivot: &Row,
) -> Result<Vec<Row>, TableauError>
    requires in_row { column < length pivot.now }
    requires same_length { HaveLength (length pivot.now) table.now }
    ensures ok { IfOk result (λ rows. rows.items ≡ map (replaced column pivot.now) table.now) }
    ensures wide { IfErr result (OnWide (WideInRow column pivot.now table.now)) }
{
    let mut rows = Vec::with_capacity(alloc, table.len())?;
    for v in 0..table.len() {
        rows.push(table[v].replaced(alloc, column, pivot)?)?;
    }
    Ok(rows)
}

// Each row with a 0 at the end. A refusal leaves the rows as they were.
pub fn grow(table: &mut Vec<Row>) -> Result<(), AllocError>
    ensures ok { OnOk result (table.new.items ≡ map with_zero table.old.items) }
    ensures err { OnErr result (table.new.items ≡ table.old.items) }
    ensures len { vec_len table.new ≡ vec_len table.old }
    ensures room { vec_capacity table.old ≤ vec_capacity table.new }
{
    for v in 0..table.len() {
        if table[v].push(Frac::zero()).is_err() {
            shrink(table, v);
            return Err(AllocError);
        }
    }
    Ok(())
}

// The first rows without their last entry.
fn shrink(table: &mut Vec<Row>, count: usize)
    requires { count ≤ length table.old.items }
    ensures rows { (rows : List (List ℚ)) → table.old.items ≡ map_first with_zero count rows → table.new.items ≡ rows }
    ensures len { vec_len table.new ≡ vec_len table.old }
    ensures room { vec_capacity table.old ≤ vec_capacity table.new }
{
    let mut v = count;
    while v > 0 {
        v -= 1;
        table[v].pop();
    }
}

// Exchanges a column with the next one in each row.
fn flip_all(table: &mut Vec<Row>, width: usize, column: usize)
    requires in_row { column + 1 < width }
    requires same_length { HaveLength width table.old.items }
    ensures { table.new.items ≡ map (flip column) table.old.items }
{
    for v in 0..table.len() {
        table[v].flip(column);
    }
}

// Brings the column at a place behind the lesser ones that follow it, and answers its new place.
pub fn settle_up(columns: &mut Vec<usize>, table: &mut Vec<Row>, from: usize) -> usize
    requires rises { RisesBut from columns.old.items }
    requires same_length { HaveLength (length columns.old.items) table.old.items }
    ensures same { Reordered columns.old.items table.old.items columns.new.items table.new.items }
    ensures rises { RisesFrom result columns.new.items }
    ensures same_length { HaveLength (length columns.new.items) table.new.items }
{
    let mut place = from;
    while place + 1 < columns.len() && columns[place + 1] < columns[place] {
        columns.swap(place, place + 1);
        flip_all(table, columns.len(), place);
        place += 1;
    }
    place
}

// Brings the column at a place, below those that follow it, before the greater ones that precede it.
pub fn settle_down(columns: &mut Vec<usize>, table: &mut Vec<Row>, from: usize)
    requires rises { RisesFrom from columns.old.items }
    requires same_length { HaveLength (length columns.old.items) table.old.items }
    ensures same { Reordered columns.old.items table.old.items columns.new.items table.new.items }
    ensures sorted { Sorted columns.new.items }
{
    let mut place = from;
    while place > 0 && columns[place] < columns[place - 1] {
        place -= 1;
        columns.swap(place, place + 1);
        flip_all(table, columns.len(), place);
    }
}
