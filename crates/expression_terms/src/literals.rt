//! Builds the terms of literals.
//!
//! A literal is a name or its negation. Its term is that which the name stands for, or what the constructor of negations
//! makes of that one; so its contract is over trees, as that of `build`.
ghost use Rattle.std.specs.Prelude.{◌≡◌, [], Some, IfErr, IfOk};
ghost use Rattle.yices_commands.specs.Plain.{plain_literal};
ghost use Rattle.expression_terms.specs.Building.{AddsLiteral, BuildsLiteralOr, IsMissing, named_in, term_named};

use crate::calls::construct;
use crate::names::{Bound, find};
use crate::refusal::Stop;
use std::alloc::Global;
use term_sketches::Operator;
use term_table::{Table, Term};
use yices_api::Env;
use yices_commands::LitExpr;

/// The term that the name of a literal stands for.
///
/// # Errors
///
/// `UnknownName` at the name's place; `NoMemory`.
fn named(alloc: Global, table: &Table, literal: &LitExpr) -> Result<Term, Stop>
    ensures found { IfOk result (λ t. term_named (named_in table.now []) literal.now.name ≡ Some t) }
    ensures missing { IfErr result (IsMissing (named_in table.now []) literal.now.name_place literal.now.name) }
{
    let names = Bound::new(alloc);
    find(alloc, table, &names, literal.name_place, &literal.name)
}

/// Builds the term of a name or of its negation, and answers its handle. The look-up takes expected constant time; a
/// negation is one call of a constructor.
///
/// # Errors
///
/// `UnknownName` at the name's place; `TableFull`; `NoMemory`. Then new terms may be left.
pub fn build_literal(alloc: Global, env: &mut Env, literal: &LitExpr) -> Result<Term, Stop>
    ensures built { BuildsLiteralOr (record { bound = []; defined = env.old.table.term_names }) env.old (plain_literal literal.now) result env.new }
    ensures adds { AddsLiteral (record { bound = []; defined = env.old.table.term_names }) env.old (plain_literal literal.now) env.new }
{
    let t = named(alloc, env.table(), literal)?;
    if literal.positive {
        return Ok(t);
    }
    construct(alloc, env, literal.name_place, Operator::Not, &[t])
}
