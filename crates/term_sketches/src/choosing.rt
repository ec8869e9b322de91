//! Choices, and terms that are pairwise different.
ghost use Rattle.std.specs.Prelude.{◌≡◌, ◌≤◌, IfOk, length};
ghost use Rattle.term_sketches.specs.Sketches.{all_placed, branched, chosen, distinct_of};

use crate::items::{Literal, Sketch, is_same_term};
use crate::joining::join;
use crate::ordered::AtomSet;
use crate::parity::parity;
use std::alloc::{AllocError, Global};
use term_shapes::Term;

/// A choice by a literal.
pub(crate) fn choose(
    alloc: Global,
    test: Literal,
    yes: Literal,
    no: Literal,
) -> Result<Sketch, AllocError>
    ensures { IfOk result (λ s. s ≡ chosen test yes no) }
{
    if test.is_constant() {
        let taken = if test.negated { no } else { yes };
        return Ok(Sketch::OneLiteral(taken));
    }
    if test.negated {
        branch(alloc, test.atom, no, yes)
    } else {
        branch(alloc, test.atom, yes, no)
    }
}

/// A choice by a term.
fn branch(alloc: Global, test: Term, yes: Literal, no: Literal) -> Result<Sketch, AllocError>
    ensures { IfOk result (λ s. s ≡ branched test yes no) }
{
    if yes.is_same(no) {
        return Ok(Sketch::OneLiteral(yes));
    }
    if yes.is_constant() {
        let by = Literal {
            atom: test,
            negated: yes.negated,
        };
        return join(alloc, yes.negated, &[by, no]);
    }
    if no.is_constant() {
        let by = Literal {
            atom: test,
            negated: !no.negated,
        };
        return join(alloc, no.negated, &[by, yes]);
    }
    if is_same_term(yes.atom, no.atom) {
        return parity(alloc, true, &[Literal::plain(test), yes]);
    }
    Ok(Sketch::OneOf { test, yes, no })
}

/// That the terms are pairwise different, the first of which is a truth value or not.
pub(crate) fn differ(
    alloc: Global,
    truths: bool,
    literals: &[Literal],
) -> Result<Sketch, AllocError>
    ensures { IfOk result (λ s. s ≡ distinct_of truths literals.now) }
{
    match literals {
        [] | [_] => Ok(Sketch::OneLiteral(Literal::constant(true))),
        [_, _] => parity(alloc, false, literals),
        _ => many_differ(alloc, truths, literals),
    }
}

/// The same for three or more terms.
fn many_differ(alloc: Global, truths: bool, literals: &[Literal]) -> Result<Sketch, AllocError>
    requires { 3 ≤ length literals.now }
    ensures { IfOk result (λ s. s ≡ distinct_of truths literals.now) }
{
    let set = placed(alloc, literals)?;
    if truths || set.len() < literals.len() {
        return Ok(Sketch::OneLiteral(Literal::constant(false)));
    }
    let atoms = set.to_list(alloc)?;
    Ok(Sketch::Apart(atoms))
}

/// The atoms of the literals, ascending, each once.
fn placed(alloc: Global, literals: &[Literal]) -> Result<AtomSet, AllocError>
    ensures { IfOk result (λ set. set ≡ all_placed literals.now) }
{
    let mut set = AtomSet::new(alloc);
    for place in (0..literals.len()).rev() {
        set.insert(literals[place].atom)?;
    }
    Ok(set)
}
