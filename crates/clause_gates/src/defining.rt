//! The clauses that define a gate.
//!
//! Each table holds just where the gate's literal has the value that its operands give it: each
//! clause rules out one combination of operands beside the wrong value, and together they rule out
//! all of them. A choice has two clauses more, which follow from its four: unit propagation then
//! sees that branches of one value decide it.

ghost use Rattle.std.specs.Prelude.{◌≡◌, map, OnOk};
ghost use Rattle.clause_search.specs.Content.{AllKnown};
ghost use Rattle.clause_gates.specs.Built.{Adds, with_clauses};
ghost use Rattle.clause_gates.specs.Defining.{and_clauses, xor_clauses};
ghost use Rattle.clause_gates.specs.Gates.{parity_clauses, majority_clauses, choice_clauses, gate_clauses};

use clause_logic::Lit;
use clause_search::Search;
use std::alloc::AllocError;

/// What gives a variable its value: a function of older literals.
#[derive(Clone, Copy, PartialEq, Eq, Debug)]
pub enum Gate {
    /// Always true.
    Truth,
    /// Both literals are true.
    And(Lit, Lit),
    /// Just one of the literals is true.
    Xor(Lit, Lit),
    /// An odd number of the literals is true.
    Parity(Lit, Lit, Lit),
    /// At least two of the literals are true.
    Majority(Lit, Lit, Lit),
    /// The second literal where the first is true, or else the third.
    Choice(Lit, Lit, Lit),
}

/// Adds clauses, in their order.
fn add_rows(search: &mut Search, rows: &[&[Lit]]) -> Result<(), AllocError>
    requires { AllKnown search.old.content.vars (map (λ r. r.now) rows.now) }
    ensures some { Adds search.old search.new (map (λ r. r.now) rows.now) }
    ensures ok { OnOk result (search.new ≡ with_clauses search.old (map (λ r. r.now) rows.now)) }
{
    for row in rows {
        search.add_clause(row)?;
    }
    Ok(())
}

/// The clauses of a conjunction.
fn add_and(search: &mut Search, g: Lit, a: Lit, b: Lit) -> Result<(), AllocError>
    requires { AllKnown search.old.content.vars (and_clauses g a b) }
    ensures some { Adds search.old search.new (and_clauses g a b) }
    ensures ok { OnOk result (search.new ≡ with_clauses search.old (and_clauses g a b)) }
{
    let not_g = g.opposite();
    let not_a = a.opposite();
    let not_b = b.opposite();
    add_rows(search, &[&[not_g, a], &[not_g, b], &[g, not_a, not_b]])
}

/// The clauses of an exclusive or.
fn add_xor(search: &mut Search, g: Lit, a: Lit, b: Lit) -> Result<(), AllocError>
    requires { AllKnown search.old.content.vars (xor_clauses g a b) }
    ensures some { Adds search.old search.new (xor_clauses g a b) }
    ensures ok { OnOk result (search.new ≡ with_clauses search.old (xor_clauses g a b)) }
{
    let not_g = g.opposite();
    let not_a = a.opposite();
    let not_b = b.opposite();
    add_rows(
        search,
        &[
            &[not_g, a, b],
            &[not_g, not_a, not_b],
            &[g, not_a, b],
            &[g, a, not_b],
        ],
    )
}

/// The clauses of a parity of three.
fn add_parity(search: &mut Search, g: Lit, a: Lit, b: Lit, c: Lit) -> Result<(), AllocError>
    requires { AllKnown search.old.content.vars (parity_clauses g a b c) }
    ensures some { Adds search.old search.new (parity_clauses g a b c) }
    ensures ok { OnOk result (search.new ≡ with_clauses search.old (parity_clauses g a b c)) }
{
    let not_g = g.opposite();
    let not_a = a.opposite();
    let not_b = b.opposite();
    let not_c = c.opposite();
    add_rows(
        search,
        &[
            &[not_g, a, b, c],
            &[not_g, a, not_b, not_c],
            &[not_g, not_a, b, not_c],
            &[not_g, not_a, not_b, c],
            &[g, not_a, b, c],
            &[g, a, not_b, c],
            &[g, a, b, not_c],
            &[g, not_a, not_b, not_c],
        ],
    )
}

/// The clauses of a majority of three.
fn add_majority(search: &mut Search, g: Lit, a: Lit, b: Lit, c: Lit) -> Result<(), AllocError>
    requires { AllKnown search.old.content.vars (majority_clauses g a b c) }
    ensures some { Adds search.old search.new (majority_clauses g a b c) }
    ensures ok { OnOk result (search.new ≡ with_clauses search.old (majority_clauses g a b c)) }
{
    let not_g = g.opposite();
    let not_a = a.opposite();
    let not_b = b.opposite();
    let not_c = c.opposite();
    add_rows(
        search,
        &[
            &[g, not_a, not_b],
            &[g, not_a, not_c],
            &[g, not_b, not_c],
            &[not_g, a, b],
            &[not_g, a, c],
            &[not_g, b, c],
        ],
    )
}

/// The clauses of a choice.
fn add_choice(search: &mut Search, g: Lit, c: Lit, a: Lit, b: Lit) -> Result<(), AllocError>
    requires { AllKnown search.old.content.vars (choice_clauses g c a b) }
    ensures some { Adds search.old search.new (choice_clauses g c a b) }
    ensures ok { OnOk result (search.new ≡ with_clauses search.old (choice_clauses g c a b)) }
{
    let not_g = g.opposite();
    let not_c = c.opposite();
    let not_a = a.opposite();
    let not_b = b.opposite();
    add_rows(
        search,
        &[
            &[not_c, not_g, a],
            &[not_c, g, not_a],
            &[c, not_g, b],
            &[c, g, not_b],
            &[not_g, a, b],
            &[g, not_a, not_b],
        ],
    )
}

/// Adds the clauses that define a literal as a gate. Where memory is refused, some of them may be
/// there.
pub fn add_gate(search: &mut Search, g: Lit, gate: Gate) -> Result<(), AllocError>
    requires { AllKnown search.old.content.vars (gate_clauses g gate) }
    ensures some { Adds search.old search.new (gate_clauses g gate) }
    ensures ok { OnOk result (search.new ≡ with_clauses search.old (gate_clauses g gate)) }
{
    match gate {
        Gate::Truth => add_rows(search, &[&[g]]),
        Gate::And(a, b) => add_and(search, g, a, b),
        Gate::Xor(a, b) => add_xor(search, g, a, b),
        Gate::Parity(a, b, c) => add_parity(search, g, a, b, c),
        Gate::Majority(a, b, c) => add_majority(search, g, a, b, c),
        Gate::Choice(c, a, b) => add_choice(search, g, c, a, b),
    }
}
