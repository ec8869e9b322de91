//! Conjunctions and disjunctions of literals.
ghost use Rattle.std.specs.Prelude.{◌≡◌, IfOk};
ghost use Rattle.std.specs.List.{list_any};
ghost use Rattle.term_sketches.specs.Sketches.{gathered, has, joined, decides, opposite, settled, settled_many};

use crate::items::{Literal, Literals, Sketch};
use crate::ordered::LiteralSet;
use std::alloc::{AllocError, Global};

/// A conjunction (true) or a disjunction (false) of the literals.
pub(crate) fn join(alloc: Global, all: bool, literals: &[Literal]) -> Result<Sketch, AllocError>
    ensures { IfOk result (λ s. s ≡ joined all literals.now) }
{
    let set = gather(alloc, Literal::constant(all), literals)?;
    let list = set.to_list(alloc)?;
    Ok(settle(all, &set, list))
}

/// The literals other than the neutral one, ascending, each once.
fn gather(alloc: Global, neutral: Literal, literals: &[Literal]) -> Result<LiteralSet, AllocError>
    ensures { IfOk result (λ set. set ≡ gathered neutral literals.now) }
{
    let mut set = LiteralSet::new(alloc);
    for place in (0..literals.len()).rev() {
        let literal = literals[place];
        if !literal.is_same(neutral) {
            set.insert(literal)?;
        }
    }
    Ok(set)
}

/// What is left of ascending literals, of which the set is made.
fn settle(all: bool, set: &LiteralSet, list: Literals) -> Sketch
    requires { list ≡ set.now }
    ensures { result ≡ settled all list }
{
    match list.as_slice() {
        [] => return Sketch::OneLiteral(Literal::constant(all)),
        [only] => return Sketch::OneLiteral(*only),
        _ => {}
    }
    settle_many(all, set, list)
}

/// The same for two or more literals.
fn settle_many(all: bool, set: &LiteralSet, list: Literals) -> Sketch
    requires { list ≡ set.now }
    ensures { result ≡ settled_many all list }
{
    if decides(all, set, list.as_slice()) {
        return Sketch::OneLiteral(Literal::constant(!all));
    }
    if all {
        Sketch::AllOf(list)
    } else {
        Sketch::AnyOf(list)
    }
}

/// Whether one literal of the list, or two together, make the others useless.
fn decides(all: bool, set: &LiteralSet, list: &[Literal]) -> bool
    requires { list.now ≡ set.now }
    ensures { result ≡ decides all list.now }
{
    set.contains(Literal::constant(!all)) || clashes(set, list)
}

/// Whether the opposite of some literal of the list is in the set.
fn clashes(set: &LiteralSet, list: &[Literal]) -> bool
    ensures { result ≡ list_any (λ l. has (opposite l) set.now) list.now }
{
    list.iter().any(|literal| set.contains(literal.opposite()))
}
