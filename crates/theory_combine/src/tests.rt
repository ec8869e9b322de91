//! Answers on problems whose truth tables are known, and on random ones beside a computed table.

ghost use Rattle.std.specs.Prelude.{◌<◌};

use super::*;
use std::process::Abort;
use std::test::Fail;

fn added(rt: &impl Abort, problem: &mut Problem, node: Node) -> Result<usize, AllocError> {
    assert!(rt; problem.fits(&node));
    problem.add(node)
}

fn two(alloc: Global, a: usize, b: usize) -> Result<Places, AllocError> {
    let mut places = Places::new(alloc);
    places.push(a)?;
    places.push(b)?;
    Ok(places)
}

const P: NodeLit = NodeLit {
    node: 0,
    positive: true,
};

const NOT_P: NodeLit = NodeLit {
    node: 0,
    positive: false,
};

const Q: NodeLit = NodeLit {
    node: 1,
    positive: true,
};

const NOT_Q: NodeLit = NodeLit {
    node: 1,
    positive: false,
};

const NOT_SECOND_P: NodeLit = NodeLit {
    node: 2,
    positive: false,
};

const NEGATION_OF_P: NodeLit = NodeLit {
    node: 3,
    positive: true,
};

const P_AND_NOT_P: NodeLit = NodeLit {
    node: 4,
    positive: true,
};

const P_OR_Q: NodeLit = NodeLit {
    node: 5,
    positive: true,
};

const TRUE: NodeLit = NodeLit {
    node: 6,
    positive: true,
};

const NOT_FALSE: NodeLit = NodeLit {
    node: 7,
    positive: false,
};

// Two constants, the first at two nodes, and operators over them.
fn two_constants(rt: &impl Abort, alloc: Global) -> Result<Problem, AllocError> {
    let mut problem = Problem::new(alloc);
    added(rt, &mut problem, Node::Const { number: 7 })?;
    added(rt, &mut problem, Node::Const { number: 8 })?;
    added(rt, &mut problem, Node::Const { number: 7 })?;
    added(rt, &mut problem, Node::Not(0))?;
    added(rt, &mut problem, Node::And(two(alloc, 0, 3)?))?;
    added(rt, &mut problem, Node::Or(two(alloc, 0, 1)?))?;
    added(rt, &mut problem, Node::True)?;
    added(rt, &mut problem, Node::False)?;
    Ok(problem)
}

fn verdict(
    rt: &impl Abort,
    alloc: Global,
    problem: &Problem,
    lits: &[NodeLit],
    turns: Turns,
) -> Result<Verdict, AllocError> {
    assert!(rt; lits.iter().all(|l| l.node < problem.len()));
    decide(alloc, problem, lits, turns)
}

fn is_unsat(
    rt: &impl Abort,
    alloc: Global,
    problem: &Problem,
    lits: &[NodeLit],
    turns: Turns,
) -> Result<bool, AllocError> {
    match verdict(rt, alloc, problem, lits, turns)? {
        Verdict::Sat(_) => Ok(false),
        Verdict::Unsat(places) => Ok(places.len() == lits.len()),
        Verdict::Unknown(_) => Ok(false),
    }
}

fn has_values(
    rt: &impl Abort,
    alloc: Global,
    problem: &Problem,
    lits: &[NodeLit],
    values: &[(usize, bool)],
) -> Result<bool, AllocError> {
    match verdict(rt, alloc, problem, lits, Turns::Whole)? {
        Verdict::Sat(found) => Ok(found.as_slice() == values),
        Verdict::Unsat(_) => Ok(false),
        Verdict::Unknown(_) => Ok(false),
    }
}

#[test]
fn decide_answers_by_truth_tables(rt: HostRuntime) -> Result<(), Fail> {
    let alloc = rt.alloc();
    let problem = two_constants(&rt, alloc)?;
    assert_eq!(rt; problem.len(), 8);
    let (t, f) = (true, false);
    let only_p = [(0, t), (1, f), (2, t)];
    let only_q = [(0, f), (1, t), (2, f)];
    assert!(rt; has_values(&rt, alloc, &problem, &[P, NOT_Q], &only_p)?);
    let sat: [&[NodeLit]; 2] = [&[P_OR_Q, NOT_P], &[NEGATION_OF_P, Q, TRUE, NOT_FALSE]];
    for row in sat {
        assert!(rt; has_values(&rt, alloc, &problem, row, &only_q)?);
    }
    // what unit propagation decides takes no turn
    let unsat: [&[NodeLit]; 5] = [
        &[P, NOT_P],
        &[P, NOT_SECOND_P],
        &[P, NEGATION_OF_P],
        &[P_AND_NOT_P],
        &[P_OR_Q, NOT_P, NOT_Q],
    ];
    for row in unsat {
        assert!(rt; is_unsat(&rt, alloc, &problem, row, Turns::Counted(0))?);
    }
    Ok(())
}

#[test]
fn no_literals_are_satisfied_by_no_values(rt: HostRuntime) -> Result<(), Fail> {
    let alloc = rt.alloc();
    let none: [(usize, bool); 0] = [];
    assert!(rt; has_values(&rt, alloc, &Problem::new(alloc), &[], &none)?);
    Ok(())
}

#[test]
fn only_earlier_arguments_fit(rt: HostRuntime) -> Result<(), Fail> {
    let alloc = rt.alloc();
    let mut problem = Problem::new(alloc);
    assert!(rt; !problem.fits(&Node::Not(0)));
    assert!(rt; !problem.fits(&Node::And(Places::new(alloc))));
    assert_eq!(rt; added(&rt, &mut problem, Node::True)?, 0);
    assert!(rt; problem.fits(&Node::Not(0)));
    assert!(rt; !problem.fits(&Node::Or(two(alloc, 0, 1)?)));
    assert!(rt; problem.node(0).is_some());
    assert!(rt; problem.node(1).is_none());
    Ok(())
}

fn is_true(node: usize) -> NodeLit {
    NodeLit {
        node,
        positive: true,
    }
}

fn is_false(node: usize) -> NodeLit {
    NodeLit {
        node,
        positive: false,
    }
}

// Three pigeons in two holes: each in one, no two in one.
fn pigeons(rt: &impl Abort, alloc: Global) -> Result<(Problem, Vec<NodeLit>), AllocError> {
    let mut problem = Problem::new(alloc);
    for number in 0..6u64 {
        added(rt, &mut problem, Node::Const { number })?;
    }
    let mut lits: Vec<NodeLit> = Vec::new(alloc);
    for pigeon in 0..3usize {
        let node = Node::Or(two(alloc, 2 * pigeon, 2 * pigeon + 1)?);
        lits.push(is_true(added(rt, &mut problem, node)?))?;
    }
    for (first, second) in [(0usize, 2usize), (0, 4), (2, 4), (1, 3), (1, 5), (3, 5)] {
        let node = Node::And(two(alloc, first, second)?);
        lits.push(is_false(added(rt, &mut problem, node)?))?;
    }
    Ok((problem, lits))
}

#[test]
fn turns_are_counted(rt: HostRuntime) -> Result<(), Fail> {
    let alloc = rt.alloc();
    let (problem, lits) = pigeons(&rt, alloc)?;
    for limit in [Turns::Counted(100), Turns::Whole] {
        assert!(rt; is_unsat(&rt, alloc, &problem, lits.as_slice(), limit)?);
    }
    match verdict(&rt, alloc, &problem, lits.as_slice(), Turns::Counted(0))? {
        Verdict::Unknown(learned) => {
            assert_eq!(rt; learned.clauses.len(), 1);
            assert_eq!(rt; learned.nodes.len(), problem.len());
        }
        _ => assert!(rt; false),
    }
    Ok(())
}

// The places that a conflict names.
fn core_of(
    rt: &impl Abort,
    alloc: Global,
    problem: &Problem,
    asserted: &[NodeLit],
    assumed: &[NodeLit],
) -> Result<Places, AllocError> {
    assert!(rt; asserted.iter().all(|l| l.node < problem.len()));
    assert!(rt; assumed.iter().all(|l| l.node < problem.len()));
    match decide_assuming(alloc, problem, asserted, assumed, Turns::Whole)? {
        Verdict::Unsat(places) => Ok(places),
        _ => Ok(Places::new(alloc)),
    }
}

#[test]
fn a_core_names_what_the_search_met(rt: HostRuntime) -> Result<(), Fail> {
    let alloc = rt.alloc();
    let problem = two_constants(&rt, alloc)?;
    let assumed = [TRUE, NOT_P, NOT_FALSE, NOT_Q];
    let places = core_of(&rt, alloc, &problem, &[P_OR_Q], &assumed)?;
    assert_eq!(rt; places.as_slice(), [1, 3].as_slice());
    Ok(())
}

// Numbers that look random: those of a linear congruence, modulo 2^64.
#[derive(Drop)]
struct Random {
    state: u64,
}

impl Random {
    // A number below a small one.
    fn below(&mut self, count: usize) -> usize
        requires { 0 < count }
        ensures { result < count }
    {
        self.state = self
            .state
            .wrapping_mul(6364136223846793005)
            .wrapping_add(1442695040888963407);
        ((self.state / 4294967296) % (count as u64)) as usize
    }
}

fn some_places(
    alloc: Global,
    random: &mut Random,
    most: usize,
    count: usize,
) -> Result<Places, AllocError>
    requires most { 0 < most }
    requires count { 0 < count }
{
    let mut places = Places::new(alloc);
    for _i in 0..1 + random.below(most) {
        places.push(random.below(count))?;
    }
    Ok(places)
}

// A node over the ones before it.
fn random_node(alloc: Global, random: &mut Random, count: usize) -> Result<Node, AllocError>
    requires { 0 < count }
{
    match random.below(8) {
        0 => Ok(Node::Not(random.below(count))),
        1 => Ok(Node::And(some_places(alloc, random, 3, count)?)),
        2 => Ok(Node::Or(some_places(alloc, random, 3, count)?)),
        3 => Ok(Node::Xor(some_places(alloc, random, 4, count)?)),
        4 => Ok(Node::Ite(
            random.below(count),
            random.below(count),
            random.below(count),
        )),
        5 => Ok(Node::Eq(random.below(count), random.below(count))),
        6 => Ok(Node::Distinct(some_places(alloc, random, 3, count)?)),
        _ => Ok(if random.below(2) == 0 {
            Node::True
        } else {
            Node::False
        }),
    }
}

// Twelve constants, and 40 nodes over them.
fn random_problem(
    rt: &impl Abort,
    alloc: Global,
    random: &mut Random,
) -> Result<Problem, AllocError> {
    let mut problem = Problem::new(alloc);
    for number in 0..12u64 {
        added(rt, &mut problem, Node::Const { number })?;
    }
    for _k in 0..40usize {
        let count = problem.len();
        assert!(rt; count > 0);
        let node = random_node(alloc, random, count)?;
        added(rt, &mut problem, node)?;
    }
    Ok(problem)
}

fn at(values: &[u64], k: usize) -> u64 {
    values.get(k).copied().unwrap_or(0)
}

// The truth values of a constant in 64 rows of a table, as bits: of the rows that stand together,
// the first six constants tell them apart, and the others are one in all.
fn constant_bits(number: u64, block: u64) -> u64 {
    match number {
        0 => 0xAAAA_AAAA_AAAA_AAAA,
        1 => 0xCCCC_CCCC_CCCC_CCCC,
        2 => 0xF0F0_F0F0_F0F0_F0F0,
        3 => 0xFF00_FF00_FF00_FF00,
        4 => 0xFFFF_0000_FFFF_0000,
        5 => 0xFFFF_FFFF_0000_0000,
        6 => u64::MAX * (block % 2),
        7 => u64::MAX * (block / 2 % 2),
        8 => u64::MAX * (block / 4 % 2),
        9 => u64::MAX * (block / 8 % 2),
        10 => u64::MAX * (block / 16 % 2),
        _ => u64::MAX * (block / 32 % 2),
    }
}

fn distinct_bits(values: &[u64], places: &[usize]) -> u64 {
    match places {
        [] => u64::MAX,
        [_] => u64::MAX,
        [a, b] => at(values, *a) ^ at(values, *b),
        _ => 0,
    }
}

// The truth values of a node in 64 rows.
fn node_bits(node: &Node, values: &[u64], block: u64) -> u64 {
    match node {
        Node::True => u64::MAX,
        Node::False => 0,
        Node::Const { number } => constant_bits(*number, block),
        Node::Not(a) => !at(values, *a),
        Node::And(args) => {
            let mut all = u64::MAX;
            for a in args.as_slice() {
                all = all & at(values, *a);
            }
            all
        }
        Node::Or(args) => {
            let mut some = 0u64;
            for a in args.as_slice() {
                some = some | at(values, *a);
            }
            some
        }
        Node::Xor(args) => {
            let mut odd = 0u64;
            for a in args.as_slice() {
                odd = odd ^ at(values, *a);
            }
            odd
        }
        Node::Ite(c, a, b) => {
            (at(values, *c) & at(values, *a)) | (!at(values, *c) & at(values, *b))
        }
        Node::Eq(a, b) => !(at(values, *a) ^ at(values, *b)),
        Node::Distinct(args) => distinct_bits(values, args.as_slice()),
    }
}

// Whether the table has a row in which all literals are true.
fn has_row(alloc: Global, problem: &Problem, lits: &[NodeLit]) -> Result<bool, AllocError> {
    for block in 0..64u64 {
        let mut values: Vec<u64> = Vec::new(alloc);
        for k in 0..problem.len() {
            if let Some(node) = problem.node(k) {
                let bits = node_bits(node, values.as_slice(), block);
                values.push(bits)?;
            }
        }
        let mut all = u64::MAX;
        for lit in lits {
            let bits = at(values.as_slice(), lit.node);
            all = all & (if lit.positive { bits } else { !bits });
        }
        if all != 0 {
            return Ok(true);
        }
    }
    Ok(false)
}

#[test]
fn random_problems_have_their_truth_tables(rt: HostRuntime) -> Result<(), Fail> {
    let alloc = rt.alloc();
    let mut random = Random { state: 2026 };
    let (mut sat, mut unsat) = (0u32, 0u32);
    for _i in 0..100u32 {
        let problem = random_problem(&rt, alloc, &mut random)?;
        let mut lits: Vec<NodeLit> = Vec::new(alloc);
        for _j in 0..4u32 {
            let node = 12 + random.below(40);
            let positive = random.below(2) == 0;
            lits.push(NodeLit { node, positive })?;
        }
        let expected = has_row(alloc, &problem, lits.as_slice())?;
        match verdict(&rt, alloc, &problem, lits.as_slice(), Turns::Whole)? {
            Verdict::Sat(_) => assert!(rt; expected),
            Verdict::Unsat(_) => assert!(rt; !expected),
            Verdict::Unknown(_) => assert!(rt; false),
        }
        if expected {
            sat = sat.saturating_add(1);
        } else {
            unsat = unsat.saturating_add(1);
        }
    }
    // both answers come
    assert!(rt; sat > 9 && unsat > 9);
    Ok(())
}
