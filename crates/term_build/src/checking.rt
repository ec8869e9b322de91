//! Which calls are refused, and why.
ghost use Rattle.std.specs.Prelude.{◌≡◌, ◌+◌, OnOk, IfErr, IfSome, IfNone};
ghost use Rattle.term_table.specs.World.{World};
ghost use Rattle.term_table.specs.Checking.{AreLive, IsDeadAt, IsFirstDead};
ghost use Rattle.term_sketches.specs.Sketches.{operator_of};
ghost use Rattle.term_build.specs.Building.{AreFit, RefusesCall};

use crate::errors::{BuildError, from_shape};
use crate::rows::{is_empty_call, row_shape, takes};
use std::alloc::Global;
use term_sketches::Operator;
use term_table::{Table, Term};
use y_tree::laws::misfits;

/// Whether the arguments are live, with types that the constructor takes; and else the first thing that is wrong.
pub(crate) fn check_call(
    alloc: Global,
    table: &Table,
    operator: Operator,
    arguments: &[Term],
) -> Result<(), BuildError>
    ensures ok { OnOk result (AreFit table.now (operator_of operator) arguments.now) }
    ensures err { IfErr result (λ e. (new : World) → RefusesCall table.now new (operator_of operator) arguments.now e) }
{
    misfits();
    table.is_table();
    if let Some(place) = first_dead(table, arguments) {
        return Err(BuildError::DeadTerm(place));
    }
    if is_empty_call(operator, arguments) {
        return Ok(());
    }
    if !takes(operator, arguments.len()) {
        return Err(BuildError::BadArity(arguments.len()));
    }
    let Ok(shape) = row_shape(alloc, operator, arguments) else {
        return Err(BuildError::NoMemory);
    };
    match table.check_shape(&shape) {
        Ok(_) => Ok(()),
        Err(e) => Err(from_shape(e)),
    }
}

/// The place of the first dead argument, from 1 on.
#[tactic(auto, using(crate::proofs::Calls::first_is_dead, crate::proofs::Calls::one_more_live, crate::proofs::Calls::all_live))]
fn first_dead(table: &Table, arguments: &[Term]) -> Option<usize>
    ensures dead { IfSome result (λ place. IsFirstDead table.now arguments.now place) }
    ensures live { IfNone result (AreLive table.now arguments.now) }
{
    for place in 0..arguments.len() {
        if is_dead_at(table, arguments, place) {
            return Some(place + 1);
        }
    }
    None
}

/// Whether the argument at that place is dead.
fn is_dead_at(table: &Table, arguments: &[Term], place: usize) -> bool
    ensures { IsDeadAt table.now arguments.now place result }
{
    match arguments.get(place) {
        Some(t) => !table.is_live(*t),
        None => false,
    }
}
