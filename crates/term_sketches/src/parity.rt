//! Parities of literals.
ghost use Rattle.std.specs.Prelude.{◌≡◌, IfOk, not, if◌then◌else◌};
ghost use Rattle.term_sketches.specs.Sketches.{is_odd_negated, odd_atoms, odd_rest, parity_of, without_truth};

use crate::items::{Atoms, Literal, Sketch, THE_TRUTH, is_same_term};
use crate::ordered::AtomSet;
use std::alloc::{AllocError, Global};
use term_shapes::Term;

/// The parity of the literals, negated where the flag says so.
pub(crate) fn parity(alloc: Global, flag: bool, literals: &[Literal]) -> Result<Sketch, AllocError>
    ensures { IfOk result (λ s. s ≡ parity_of flag literals.now) }
{
    let set = odd(alloc, literals)?;
    let atoms = set.to_list(alloc)?;
    let negated = flag != negations_are_odd(literals);
    rest_without_truth(alloc, negated, atoms.as_slice())
}

/// Whether the negations among the literals are odd in number.
fn negations_are_odd(literals: &[Literal]) -> bool
    ensures { result ≡ is_odd_negated literals.now }
{
    let mut odd = false;
    for place in (0..literals.len()).rev() {
        if literals[place].negated {
            odd = !odd;
        }
    }
    odd
}

/// The atoms that stand there an odd number of times.
fn odd(alloc: Global, literals: &[Literal]) -> Result<AtomSet, AllocError>
    ensures { IfOk result (λ set. set ≡ odd_atoms literals.now) }
{
    let mut set = AtomSet::new(alloc);
    for place in (0..literals.len()).rev() {
        set.toggle(literals[place].atom)?;
    }
    Ok(set)
}

/// The parity of ascending atoms without truth, which is the first of all terms.
fn rest_without_truth(alloc: Global, negated: bool, atoms: &[Term]) -> Result<Sketch, AllocError>
    ensures { IfOk result (λ s. s ≡ without_truth negated atoms.now) }
{
    match atoms {
        [first, rest @ ..] if is_same_term(*first, THE_TRUTH) => rest_of(alloc, !negated, rest),
        _ => rest_of(alloc, negated, atoms),
    }
}

/// The parity of ascending atoms.
fn rest_of(alloc: Global, negated: bool, atoms: &[Term]) -> Result<Sketch, AllocError>
    ensures { IfOk result (λ s. s ≡ odd_rest negated atoms.now) }
{
    match atoms {
        [] => Ok(Sketch::OneLiteral(Literal::constant(negated))),
        [only] => Ok(Sketch::OneLiteral(Literal {
            atom: *only,
            negated,
        })),
        [left, right] => Ok(Sketch::Equal {
            negated: !negated,
            left: *left,
            right: *right,
        }),
        _ => {
            let atoms = copied(alloc, atoms)?;
            Ok(Sketch::OddOf { negated, atoms })
        }
    }
}

/// The terms as a list of their own.
fn copied(alloc: Global, atoms: &[Term]) -> Result<Atoms, AllocError>
    ensures { IfOk result (λ list. list ≡ atoms.now) }
{
    let items = atoms.iter().copied().collect(alloc)?;
    Ok(Atoms { items })
}
