//! Deciding: the nodes become literals of a search, which takes the problem's literals as clauses
//! of one literal or as assumptions. A literal is true in a model of the clauses just where its
//! node is under the model's values of the constants, so that a model is a solution, and what can't
//! be true together over literals can't over nodes.

ghost use Rattle.std.specs.Prelude.{◌≡◌, ℕ, ◌<◌, ◌≤◌, ◌++◌, Bool, Option, List, Some, length, map, All, slice_get, IfOk, OnOk};
ghost use Rattle.clause_logic.specs.declared.Lit.{Lit as LitOf};
ghost use Rattle.clause_logic.specs.Clauses.{In};
ghost use Rattle.node_encoding.specs.Nodes.{IsFormed};
ghost use Rattle.theory_combine.specs.Answers.{IfSat, IfUnsat, IfUnknown, IsSolution, IsConflict, IsConflictUnder};
ghost use Rattle.theory_combine.specs.Learned.{IsPastLimit};
ghost use Rattle.node_encoding.specs.Encoding.{IsEncoding};
ghost use Rattle.node_encoding.specs.Gates.{truth, adding, unit_clauses};
ghost use Rattle.theory_combine.specs.Reading.{shown_at, marked, Assigns, AreMarks, Names};

use crate::learning::record_of;
use crate::theories::Theories;
use crate::{Node, NodeLit, NodeValues, Places, Problem, Turns, Verdict};
use clause_search::{Answer, Lit, Search};
use indexmap::{IndexMap, IndexSet};
use node_encoding::Encoding;
use std::alloc::{AllocError, Global};

/// Finds values of the constants under which every literal is true, or answers that there are none:
/// then with the places of all literals. Under a limit of turns it may answer with what was learned,
/// one clause more than the limit; without a limit it never does. A turn takes time in the size of
/// the problem and of the learned clauses that are kept. These are at most 3^v at a time for v
/// variables, one for each node and at most one for each argument of a parity; under a limit each
/// is kept.
pub fn decide(
    alloc: Global,
    problem: &Problem,
    lits: &[NodeLit],
    turns: Turns,
) -> Result<Verdict, AllocError>
    requires { All (λ lit. lit.node < length problem.now) lits.now }
    ensures sat { IfOk result (λ v. IfSat v (IsSolution problem.now lits.now)) }
    ensures unsat { IfOk result (λ v. IfUnsat v (IsConflict problem.now lits.now)) }
    ensures unknown { IfOk result (λ v. IfUnknown v (λ l. IsPastLimit problem.now lits.now turns l.nodes l.clauses)) }
    ensures whole { turns ≡ Turns.Whole → IfOk result (λ v. IfUnknown v (λ l. ⊥)) }
{
    match decide_assuming(alloc, problem, lits, &[], turns)? {
        Verdict::Sat(values) => Ok(Verdict::Sat(values)),
        Verdict::Unsat(_) => {
            let places = all_places(alloc, lits.len())?;
            Ok(Verdict::Unsat(places))
        }
        Verdict::Unknown(learned) => Ok(Verdict::Unknown(learned)),
    }
}

/// Decides as [`decide`] does, over literals that are asserted and literals that are assumed.
/// Where no values are found it answers places of assumed literals that are never true together
/// with all asserted ones: those that the search met on its way to the contradiction. Each assumed
/// literal costs a level of the search, an asserted one costs none.
pub fn decide_assuming(
    alloc: Global,
    problem: &Problem,
    asserted: &[NodeLit],
    assumed: &[NodeLit],
    turns: Turns,
) -> Result<Verdict, AllocError>
    requires asserted { All (λ lit. lit.node < length problem.now) asserted.now }
    requires assumed { All (λ lit. lit.node < length problem.now) assumed.now }
    ensures sat { IfOk result (λ v. IfSat v (IsSolution problem.now (asserted.now ++ assumed.now))) }
    ensures unsat { IfOk result (λ v. IfUnsat v (IsConflictUnder problem.now asserted.now assumed.now)) }
    ensures unknown { IfOk result (λ v. IfUnknown v (λ l. IsPastLimit problem.now (asserted.now ++ assumed.now) turns l.nodes l.clauses)) }
    ensures whole { turns ≡ Turns.Whole → IfOk result (λ v. IfUnknown v (λ l. ⊥)) }
{
    let nodes = problem.as_slice();
    let mut encoding = encode(alloc, nodes)?;
    let given = encoding.node_lits(asserted)?;
    let assumptions = encoding.node_lits(assumed)?;
    assert_all(&mut encoding.search, given.as_slice())?;
    let mut theories = Theories::new();
    match encoding
        .search
        .solve(assumptions.as_slice(), turns, &mut theories)
    {
        Answer::Sat(values) => {
            let found = assign(alloc, nodes, encoding.lits.as_slice(), values.as_slice())?;
            Ok(Verdict::Sat(found))
        }
        Answer::Unsat(core) => {
            let places = places_of(alloc, assumptions.as_slice(), core.as_slice())?;
            Ok(Verdict::Unsat(places))
        }
        Answer::Unknown(clauses) => {
            let origins = encoding.origins.as_slice();
            let learned = record_of(alloc, problem, origins, clauses.as_slice())?;
            Ok(Verdict::Unknown(learned))
        }
        Answer::Stopped(cause) => match cause {},
        Answer::NoMemory => Err(AllocError),
    }
}

// Asserts each literal, as a clause of one literal.
fn assert_all(search: &mut Search, lits: &[Lit]) -> Result<(), AllocError>
    requires known { (l : LitOf) → In l lits.now → l.var < search.old.content.vars }
    ensures { OnOk result (search.new ≡ adding search.old (unit_clauses lits.now)) }
{
    for lit in lits {
        search.add_clause(&[*lit])?;
    }
    Ok(())
}

// The places below the count, in order.
fn all_places(alloc: Global, count: usize) -> Result<Places, AllocError>
    ensures len { IfOk result (λ v. length v ≡ count) }
    ensures each { IfOk result (λ v. (i p : ℕ) → slice_get v i ≡ Some p → p ≡ i) }
{
    let mut places = Places::new(alloc);
    for i in 0..count {
        places.push(i)?;
    }
    Ok(places)
}

// All nodes as literals of a search.
fn encode(alloc: Global, nodes: &[Node]) -> Result<Encoding, AllocError>
    requires { IsFormed nodes.now }
    ensures encodes { IfOk result (λ e. IsEncoding nodes.now e) }
    ensures all { IfOk result (λ e. length e.lits.items ≡ length nodes.now) }
{
    let mut encoding = Encoding::new(alloc);
    let mut constants: IndexMap<u64, Lit> = IndexMap::new(alloc);
    for _k in 0..nodes.len() {
        encoding.add_next(nodes, &mut constants)?;
    }
    Ok(encoding)
}

// Whether a literal is true under values of the variables.
fn is_true(lit: Lit, values: &[Option<bool>]) -> bool
    ensures { result ≡ truth (shown_at values.now) lit }
{
    if lit.var < values.len() {
        values[lit.var].unwrap_or(false) == lit.positive
    } else {
        !lit.positive
    }
}

// The value of each constant node.
fn assign(
    alloc: Global,
    nodes: &[Node],
    lits: &[Lit],
    values: &[Option<bool>],
) -> Result<NodeValues, AllocError>
    requires { length lits.now ≡ length nodes.now }
    ensures { IfOk result (λ v. Assigns nodes.now lits.now values.now (length nodes.now) v) }
{
    let mut found = NodeValues::new(alloc);
    for (k, node) in nodes.iter().enumerate() {
        if let Node::Const { number: _ } = node {
            found.push((k, is_true(lits[k], values)))?;
        }
    }
    Ok(found)
}

// Which literals stand in a core, by their variables.
#[derive(Drop)]
struct Marks {
    positive: IndexSet<usize>,
    negative: IndexSet<usize>,
}

// Marks each literal of the core. Expected O(n) for n literals.
fn marks_of(alloc: Global, core: &[Lit]) -> Result<Marks, AllocError>
    ensures { IfOk result (λ m. AreMarks core.now (marked m)) }
{
    let mut marks = Marks {
        positive: IndexSet::new(alloc),
        negative: IndexSet::new(alloc),
    };
    for lit in core {
        if lit.positive {
            marks.positive.insert(lit.var)?;
        } else {
            marks.negative.insert(lit.var)?;
        }
    }
    Ok(marks)
}

// Whether a literal is marked. Expected O(1).
fn is_marked(marks: &Marks, lit: Lit) -> bool
    ensures { result ≡ marked marks.now lit }
{
    if lit.positive {
        marks.positive.contains(&lit.var)
    } else {
        marks.negative.contains(&lit.var)
    }
}

// The places of the assumptions that stand in the core. Expected O(n) for n literals in all.
fn places_of(alloc: Global, assumed: &[Lit], core: &[Lit]) -> Result<Places, AllocError>
    ensures { IfOk result (λ p. Names assumed.now core.now (length assumed.now) p) }
{
    let marks = marks_of(alloc, core)?;
    let mut places = Places::new(alloc);
    for (place, lit) in assumed.iter().enumerate() {
        if is_marked(&marks, *lit) {
            places.push(place)?;
        }
    }
    Ok(places)
}
