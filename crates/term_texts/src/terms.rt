//! The texts of terms.
ghost use Rattle.std.specs.Prelude.{◌≡◌, ◌↔◌, ◌≤◌, ◌<◌, ◌++◌, List, length, slice_get, None, IfOk, IfErr, OnOk, IfSome, IsErrOf, IsSome, string_bytes};
ghost use Rattle.term_table.specs.World.{node_at};
ghost use Rattle.term_texts.specs.TermTexts.{Writes, IsLong, RefusesText, text_limit};
ghost use Rattle.term_texts.specs.Gaps.{args_at, begun, gap_at};
ghost use Rattle.term_texts.specs.declared.errors.PrintError.TheVariants as error;

use crate::errors::PrintError;
use crate::gaps::push_gap;
use std::alloc::{AllocError, Global};
use term_table::{Table, Term};
use y_io::Text;

/// The most bytes of a text.
const LIMIT: usize = 67_108_864;

/// A term that is begun, with the number of its arguments that are begun.
#[derive(Clone, Copy, Drop)]
pub(crate) struct Frame {
    pub(crate) of: Term,
    pub(crate) place: usize,
}

/// The text of a live term.
///
/// # Errors
///
/// `DeadTerm` exactly where the term is dead, which takes no memory; `TooLong` exactly where the text has more than `2^26`
/// bytes, unless memory is refused before; `NoMemory`.
pub fn write_term(alloc: Global, table: &Table, t: Term) -> Result<Text, PrintError>
    ensures ok { IfOk result (λ text. Writes table.now t text) }
    ensures fits { IfOk result (λ text. length text ≤ text_limit) }
    ensures dead { IsErrOf result error.DeadTerm ↔ (node_at table.now t ≡ None) }
    ensures long { IsErrOf result error.TooLong → IsLong table.now t }
    ensures not_long { OnOk result (IsLong table.now t → ⊥) }
{
    if !table.is_live(t) {
        return Err(PrintError::DeadTerm);
    }
    let out = spell(alloc, table, t)?;
    Ok(Text::new(alloc, &out)?)
}

/// The text of a live term as a string.
fn spell(alloc: Global, table: &Table, t: Term) -> Result<String, PrintError>
    requires { IsSome (node_at table.now t) }
    ensures ok { IfOk result (λ out. Writes table.now t (string_bytes out)) }
    ensures fits { IfOk result (λ out. length (string_bytes out) ≤ text_limit) }
    ensures not_long { OnOk result (IsLong table.now t → ⊥) }
    ensures refused { IfErr result (λ e. RefusesText table.now t e) }
{
    let mut out = String::new(alloc);
    let mut stack = Vec::new(alloc);
    stack.push(Frame { of: t, place: 0 })?;
    table.is_table();
    while let Some(frame) = stack.pop() {
        push_next(alloc, &mut out, &mut stack, table, frame)?;
        if out.len() > LIMIT {
            return Err(PrintError::TooLong);
        }
    }
    Ok(out)
}

/// Writes the next gap of a term that is begun, and begins its next argument.
fn push_next(
    alloc: Global,
    out: &mut String,
    stack: &mut Vec<Frame>,
    table: &Table,
    frame: Frame,
) -> Result<(), AllocError>
    ensures bytes { OnOk result (string_bytes out.new ≡ string_bytes out.old ++ gap_at table.now frame.of frame.place) }
    ensures begun { OnOk result (stack.new.items ≡ stack.old.items ++ begun frame.of frame.place (slice_get (args_at table.now frame.of) frame.place)) }
{
    // A term that is begun is live.
    let Some(shape) = table.shape(frame.of) else {
        return Ok(());
    };
    push_gap(alloc, out, table, frame.of, shape, frame.place)?;
    begin_next(
        stack,
        frame,
        shape.count_arguments(),
        shape.argument(frame.place),
    )
}

/// Begins an argument, and keeps the rest of its term for later.
fn begin_next(
    stack: &mut Vec<Frame>,
    frame: Frame,
    count: usize,
    argument: Option<Term>,
) -> Result<(), AllocError>
    requires { IfSome argument (λ _. frame.place < count) }
    ensures { OnOk result (stack.new.items ≡ stack.old.items ++ begun frame.of frame.place argument) }
{
    if let Some(next) = argument {
        stack.push(Frame {
            of: frame.of,
            place: frame.place + 1,
        })?;
        stack.push(Frame { of: next, place: 0 })?;
    }
    Ok(())
}
