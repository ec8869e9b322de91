//! The texts of types.
ghost use Rattle.std.specs.Prelude.{◌≡◌, ◌↔◌, ◌++◌, List, map, codes, decimal, Some, None, string_bytes, IfOk, OnOk, IsErrOf};
ghost use Rattle.std.specs.Option.{option_copied};
ghost use Rattle.term_table.specs.World.{type_shape_at};
ghost use Rattle.term_texts.specs.TypeTexts.{name_or, part_text, part_text_of, spaced, type_name, type_text};
ghost use Rattle.term_texts.specs.declared.errors.PrintError.TheVariants as error;

use crate::errors::PrintError;
use itoa::Buffer;
use std::alloc::{AllocError, Global};
use term_table::{Table, TypeId, TypeShape};
use y_io::Text;

/// The text of a live type: `bool`, `real`, `(bitvector N)`, `(-> PART .. PART)` with the result last, or the name of
/// an uninterpreted type, `t!N` by its number from 0 where it has none. The time is linear in the text and, for each
/// uninterpreted type in it, in the names of types.
///
/// # Errors
///
/// `DeadTerm` exactly where the type is dead, which takes no memory, and `NoMemory`; never `TooLong`.
pub fn write_type(alloc: Global, table: &Table, t: TypeId) -> Result<Text, PrintError>
    ensures ok { IfOk result (λ text. text ≡ type_text table.now t) }
    ensures dead { IsErrOf result error.DeadTerm ↔ (type_shape_at table.now t ≡ None) }
    ensures short { IsErrOf result error.TooLong → ⊥ }
{
    let Some(shape) = table.type_shape(t) else {
        return Err(PrintError::DeadTerm);
    };
    let mut out = String::new(alloc);
    push_type(&mut out, table, t, shape)?;
    Ok(Text::new(alloc, &out)?)
}

fn push_type(
    out: &mut String,
    table: &Table,
    t: TypeId,
    shape: &TypeShape,
) -> Result<(), AllocError>
    requires { type_shape_at table.now t ≡ Some shape.now }
    ensures { OnOk result (string_bytes out.new ≡ string_bytes out.old ++ type_text table.now t) }
{
    match shape {
        TypeShape::Fun(domain, value) => {
            out.push_str("(->")?;
            push_parts(out, table, domain.as_slice())?;
            out.push_str(" ")?;
            push_part(out, table, *value)?;
            out.push_str(")")?;
            Ok(())
        }
        _ => push_part(out, table, t),
    }
}

// A space before the text of each type.
fn push_parts(out: &mut String, table: &Table, parts: &[TypeId]) -> Result<(), AllocError>
    ensures { OnOk result (string_bytes out.new ≡ string_bytes out.old ++ spaced (map (part_text table.now) parts.now)) }
{
    for part in parts {
        out.push_str(" ")?;
        push_part(out, table, *part)?;
    }
    Ok(())
}

// The text of a type that is none of functions, as the parts of types are.
fn push_part(out: &mut String, table: &Table, t: TypeId) -> Result<(), AllocError>
    ensures { OnOk result (string_bytes out.new ≡ string_bytes out.old ++ part_text table.now t) }
{
    match table.type_shape(t) {
        Some(TypeShape::Bool) => out.push_str("bool"),
        Some(TypeShape::Real) => out.push_str("real"),
        Some(TypeShape::Bv(width)) => push_width(out, *width),
        Some(TypeShape::Free(number)) => push_name(out, table.type_name_of(t), "t!", *number),
        Some(TypeShape::Fun(_, _)) | None => Ok(()),
    }
}

fn push_width(out: &mut String, width: u32) -> Result<(), AllocError>
    ensures { OnOk result (string_bytes out.new ≡ string_bytes out.old ++ (codes "(bitvector " ++ decimal width ++ codes ")")) }
{
    let mut buffer = Buffer::new();
    out.push_str("(bitvector ")?;
    out.push_str(buffer.format(width))?;
    out.push_str(")")?;
    Ok(())
}

/// The name, or else the mark and the number.
pub(crate) fn push_name(
    out: &mut String,
    name: Option<&str>,
    mark: &str,
    number: u64,
) -> Result<(), AllocError>
    ensures { OnOk result (string_bytes out.new ≡ string_bytes out.old ++ name_or (option_copied name.entry) mark.now number) }
{
    match name {
        Some(name) => out.push_str(name),
        None => {
            let mut buffer = Buffer::new();
            out.push_str(mark)?;
            out.push_str(buffer.format(number))
        }
    }
}
