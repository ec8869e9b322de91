//! All operators and tests on all words of one to three bits. The expected values were computed by
//! the definitions of SMT-LIB 2: a row has a table for each width, in it for each pair of operands
//! one digit, the second operand going through its values first.

ghost use Rattle.std.specs.Prelude.{◌≡◌, ◌<◌, ◌≤◌, length};
ghost use Rattle.std.specs.Bool.{OnTrue};
ghost use Rattle.clause_gates.specs.Circuits.{AllBelow};

use crate::{BitOp, BitTest, Circuit, test, word};
use clause_logic::lists::Lits;
use clause_search::{Answer, Lit, Turns, Unchecked};
use std::alloc::{AllocError, Global};
use std::test::Fail;

/// Adds a clause, if its variables are there.
fn add_known(circuit: &mut Circuit, lits: &[Lit]) -> Result<(), AllocError> {
    if circuit.knows(lits) {
        circuit.add_clause(lits)?;
    }
    Ok(())
}

/// New variables that clauses fix to the bits of a number.
fn fixed(
    alloc: Global,
    circuit: &mut Circuit,
    width: usize,
    number: usize,
) -> Result<Lits, AllocError> {
    let mut bits = Lits::new(alloc);
    let mut left = number;
    for place in 0..width {
        let var = circuit.new_var()?;
        add_known(
            circuit,
            &[Lit {
                var,
                positive: left % 2 == 1,
            }],
        )?;
        bits.push(Lit {
            var,
            positive: true,
        })?;
        left = left / 2;
    }
    Ok(bits)
}

/// The number that literals stand for under values.
fn read(values: &[Option<bool>], lits: &[Lit]) -> Option<usize> {
    let mut number = 0usize;
    let mut place = 1usize;
    for l in lits {
        match values.get(l.var) {
            Some(Some(value)) => {
                if *value == l.positive {
                    number = number.wrapping_add(place);
                }
            }
            _ => return None,
        }
        place = place.wrapping_mul(2);
    }
    Some(number)
}

/// The number that literals stand for in a solution.
fn solved(circuit: &mut Circuit, lits: &[Lit]) -> Option<usize> {
    let mut checker = Unchecked::new();
    match circuit.solve(&[], Turns::Whole, &mut checker) {
        Answer::Sat(values) => read(values.as_slice(), lits),
        _ => None,
    }
}

/// Whether two words may be handed to a circuit.
fn fit(circuit: &Circuit, a: &[Lit], b: &[Lit]) -> bool
    ensures a_known { OnTrue result (AllBelow circuit.now.content.vars a.now) }
    ensures b_known { OnTrue result (AllBelow circuit.now.content.vars b.now) }
    ensures same { OnTrue result (length a.now ≡ length b.now) }
    ensures some { OnTrue result (0 < length a.now) }
    ensures narrow { OnTrue result (length a.now ≤ 128) }
{
    if !circuit.knows(a) {
        return false;
    }
    if !circuit.knows(b) {
        return false;
    }
    a.len() == b.len() && !a.is_empty() && a.len() <= 128
}

/// What a circuit gives for an operator on two numbers.
fn computed(
    alloc: Global,
    op: BitOp,
    width: usize,
    a: usize,
    b: usize,
) -> Result<Option<usize>, AllocError> {
    let mut circuit = Circuit::new(alloc);
    let x = fixed(alloc, &mut circuit, width, a)?;
    let y = fixed(alloc, &mut circuit, width, b)?;
    let first = x.as_slice();
    let second = y.as_slice();
    if !fit(&circuit, first, second) {
        return Ok(None);
    }
    let bits = word(alloc, &mut circuit, op, first, second)?;
    Ok(solved(&mut circuit, bits.as_slice()))
}

/// What a circuit gives for a test of two numbers.
fn tested(
    alloc: Global,
    op: BitTest,
    width: usize,
    a: usize,
    b: usize,
) -> Result<Option<usize>, AllocError> {
    let mut circuit = Circuit::new(alloc);
    let x = fixed(alloc, &mut circuit, width, a)?;
    let y = fixed(alloc, &mut circuit, width, b)?;
    let first = x.as_slice();
    let second = y.as_slice();
    if !fit(&circuit, first, second) {
        return Ok(None);
    }
    let bit = test(alloc, &mut circuit, op, first, second)?;
    Ok(solved(&mut circuit, &[bit]))
}

/// The digit of a byte.
fn digit(byte: u8) -> Option<usize> {
    if byte >= b'0' && byte <= b'9' {
        Some((byte - b'0') as usize)
    } else {
        None
    }
}

/// Whether a table has what the circuits give.
fn agrees(
    alloc: Global,
    op: BitOp,
    width: usize,
    size: usize,
    table: &[u8],
) -> Result<bool, AllocError> {
    for k in 0..table.len() {
        let a = k.checked_div(size).unwrap_or(0);
        let b = k.checked_rem(size).unwrap_or(0);
        if computed(alloc, op, width, a, b)? != digit(table[k]) {
            return Ok(false);
        }
    }
    Ok(true)
}

/// Whether a table of a test has what the circuits give.
fn test_agrees(
    alloc: Global,
    op: BitTest,
    width: usize,
    size: usize,
    table: &[u8],
) -> Result<bool, AllocError> {
    for k in 0..table.len() {
        let a = k.checked_div(size).unwrap_or(0);
        let b = k.checked_rem(size).unwrap_or(0);
        if tested(alloc, op, width, a, b)? != digit(table[k]) {
            return Ok(false);
        }
    }
    Ok(true)
}

/// The operators, with their tables at one, two and three bits.
const OPERATORS: [(BitOp, &[u8], &[u8], &[u8]); 14] = [
    (
        BitOp::Add,
        b"0110",
        b"0123123023013012",
        b"0123456712345670234567013456701245670123567012346701234570123456",
    ),
    (
        BitOp::Sub,
        b"0110",
        b"0321103221033210",
        b"0765432110765432210765433210765443210765543210766543210776543210",
    ),
    (
        BitOp::Mul,
        b"0001",
        b"0000012302020321",
        b"0000000001234567024602460361472504040404052741630642064207654321",
    ),
    (
        BitOp::Div,
        b"1011",
        b"3000310032103311",
        b"7000000071000000721000007311000074211000752111007632111077321111",
    ),
    (
        BitOp::Rem,
        b"0010",
        b"0000101120023010",
        b"0000000010111111200222223010333340010444501210556000210670113210",
    ),
    (
        BitOp::Sdiv,
        b"1011",
        b"3000310312121301",
        b"7000000071000007721000767311077514671124157701131670001217000001",
    ),
    (
        BitOp::Srem,
        b"0010",
        b"0000101020003030",
        b"0000000010111110200222003010301040070700507050706006660070777770",
    ),
    (
        BitOp::Smod,
        b"0010",
        b"0000103020003030",
        b"0000000010115670200267003010707040020700501050706001660070127770",
    ),
    (
        BitOp::And,
        b"0001",
        b"0000010100220123",
        b"0000000001010101002200220123012300004444010145450022446601234567",
    ),
    (
        BitOp::Or,
        b"0111",
        b"0123113323233333",
        b"0123456711335577232367673333777745674567557755776767676777777777",
    ),
    (
        BitOp::Xor,
        b"0110",
        b"0123103223013210",
        b"0123456710325476230167453210765445670123547610326745230176543210",
    ),
    (
        BitOp::Shl,
        b"0010",
        b"0000120020003200",
        b"0000000012400000240000003640000040000000524000006400000076400000",
    ),
    (
        BitOp::Lshr,
        b"0010",
        b"0000100021003100",
        b"0000000010000000210000003100000042100000521000006310000073100000",
    ),
    (
        BitOp::Ashr,
        b"0011",
        b"0000100023333333",
        b"0000000010000000210000003100000046777777567777776777777777777777",
    ),
];

/// The tests, with theirs.
const TESTS: [(BitTest, &[u8], &[u8], &[u8]); 5] = [
    (
        BitTest::Equal,
        b"1001",
        b"1000010000100001",
        b"1000000001000000001000000001000000001000000001000000001000000001",
    ),
    (
        BitTest::Ge,
        b"1011",
        b"1000110011101111",
        b"1000000011000000111000001111000011111000111111001111111011111111",
    ),
    (
        BitTest::Gt,
        b"0010",
        b"0000100011001110",
        b"0000000010000000110000001110000011110000111110001111110011111110",
    ),
    (
        BitTest::Sge,
        b"1101",
        b"1011111100100011",
        b"1000111111001111111011111111111100001000000011000000111000001111",
    ),
    (
        BitTest::Sgt,
        b"0100",
        b"0011101100000010",
        b"0000111110001111110011111110111100000000000010000000110000001110",
    ),
];

#[test]
fn operators_and_tests_of_small_words(rt: HostRuntime) -> Result<(), Fail> {
    for (op, one, two, three) in OPERATORS {
        assert!(rt; agrees(rt.alloc(), op, 1, 2, one)?);
        assert!(rt; agrees(rt.alloc(), op, 2, 4, two)?);
        assert!(rt; agrees(rt.alloc(), op, 3, 8, three)?);
    }
    for (op, one, two, three) in TESTS {
        assert!(rt; test_agrees(rt.alloc(), op, 1, 2, one)?);
        assert!(rt; test_agrees(rt.alloc(), op, 2, 4, two)?);
        assert!(rt; test_agrees(rt.alloc(), op, 3, 8, three)?);
    }
    Ok(())
}
