//! The arguments of a call as literals.
ghost use Rattle.std.specs.Prelude.{◌≡◌, IfOk, map};
ghost use Rattle.term_build.specs.Building.{literal_at};

use std::alloc::{AllocError, Global};
use term_sketches::Literal;
use term_table::{Shape, Table, Term};

/// The term as a literal.
fn literal_at(table: &Table, t: Term) -> Literal
    ensures { result ≡ literal_at table.now t }
{
    match table.shape(t) {
        Some(Shape::Not(inner)) => Literal {
            atom: *inner,
            negated: true,
        },
        Some(Shape::False) => Literal::constant(false),
        _ => Literal::plain(t),
    }
}

/// The terms as literals, in order.
pub(crate) fn literals_of(
    alloc: Global,
    table: &Table,
    arguments: &[Term],
) -> Result<Vec<Literal>, AllocError>
    ensures { IfOk result (λ list. list.items ≡ map (literal_at table.now) arguments.now) }
{
    let mut list = Vec::new(alloc);
    for t in arguments {
        list.push(literal_at(table, *t))?;
    }
    Ok(list)
}
